//! Runs boards of jobs to their ends, each with one worker, and prints how much was done.
//!
//! The words of the command line are pairs: `chain`, `fan` or `glyphs`, and how many links, leaves
//! or glyphs there are.
#![tactic(auto)]

mod job;
mod plan;
mod runs;

use anyhow::{Result, bail};
use job::Job;
use plan::Grown;
use runs::run_plan;
use std::env;

fn main(rt: HostRuntime) -> Result<()> {
    let mut first = None;
    for word in env::args(&rt)?.skip(1) {
        match first {
            None => first = Some(first_of(word.as_str())?),
            Some(job) => {
                let size = word.parse::<u32>()?;
                first = None;
                print_run(&rt, job, size)?;
            }
        }
    }
    Ok(())
}

/// The job that a plan of this name begins with.
fn first_of(name: &str) -> Result<Job> {
    match name {
        "chain" => Ok(Job::Link(0)),
        "fan" => Ok(Job::Spread),
        "glyphs" => Ok(Job::Index),
        _ => bail!("no plan is named {name}"),
    }
}

/// Runs a plan to its end, and prints what was done.
fn print_run(rt: &HostRuntime, first: Job, size: u32) -> Result<()> {
    let Ok(tally) = run_plan(rt.alloc(), Grown { first, size }) else {
        bail!("no memory for {size}");
    };
    println!(rt;
        "{} jobs read {} items in {} events: {:?}",
        tally.jobs, tally.reads, tally.events, tally.end
    )?;
    Ok(())
}

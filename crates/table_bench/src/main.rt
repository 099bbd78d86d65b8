//! Writes the variation data of many glyphs, lays out trees of many children and measures many
//! glyphs, and prints how much came of it.
//!
//! The words of the command line come in threes: `variations`, `layout` or `measure`; how many
//! glyphs or children there are; and how often the same is done with them.
#![tactic(auto)]

mod metrics;
mod outlines;
mod trees;

use anyhow::{Result, bail};
use std::env;

/// What is done.
#[derive(Clone, Copy)]
enum Task {
    Variations,
    Layout,
    Measure,
}

fn main(rt: HostRuntime) -> Result<()> {
    let mut task = None;
    let mut size = None;
    for word in env::args(&rt)?.skip(1) {
        match (task, size) {
            (None, _) => task = Some(task_of(word.as_str())?),
            (Some(_), None) => size = Some(word.parse::<u16>()?),
            (Some(kind), Some(count)) => {
                let times = word.parse::<u32>()?;
                task = None;
                size = None;
                print_task(&rt, kind, count, times)?;
            }
        }
    }
    Ok(())
}

/// What a word asks for.
fn task_of(name: &str) -> Result<Task> {
    match name {
        "variations" => Ok(Task::Variations),
        "layout" => Ok(Task::Layout),
        "measure" => Ok(Task::Measure),
        _ => bail!("nothing is named {name}"),
    }
}

/// Does it so many times, and prints what came of it.
fn print_task(rt: &HostRuntime, task: Task, count: u16, times: u32) -> Result<()> {
    match task {
        Task::Variations => {
            let Ok(varying) = outlines::variations(rt.alloc(), count, times) else {
                bail!("no memory for {count} glyphs");
            };
            println!(rt; "{varying} of {count} glyphs have variation data")?;
        }
        Task::Layout => {
            let Ok(bytes) = trees::layouts(rt.alloc(), count, times) else {
                bail!("no memory for {count} children");
            };
            println!(rt; "a tree of {count} children has {bytes} bytes")?;
        }
        Task::Measure => {
            let Ok(maxima) = metrics::measures(rt.alloc(), count, times) else {
                bail!("no memory for {count} glyphs");
            };
            println!(rt;
                "of {count} glyphs one has {} components, and they nest {} deep",
                maxima.components, maxima.depth
            )?;
        }
    }
    Ok(())
}

//! Runs fontc on worked sources, and compares how each run ends with how it must end.
//!
//! Each word of the command line names a file of rows; `data/header.rows` says how a row is
//! written. A row is run over files and a console in memory, and where it asks for that over the
//! files of the system too. The table of rows that passed is printed, and a line for each that
//! differs; the exit status is 1 where one does.
#![tactic(auto)]

mod ending;
mod real_files;
mod row;
mod runs;
mod source;
mod table;

use anyhow::{Context, Result};
use row::Row;
use std::process::ExitCode;
use std::{env, fs};
use table::Table;

fn main(rt: HostRuntime) -> Result<ExitCode> {
    let mut table = Table::new(&rt);
    for name in env::args(&rt)?.skip(1) {
        run_rows(&rt, name.as_str(), &mut table)?;
    }
    real_files::run_checks(&rt, &mut table)?;
    table.end(&rt)
}

/// Runs each row of a file. Rows are separated by empty lines.
fn run_rows(rt: &HostRuntime, name: &str, table: &mut Table<'_>) -> Result<()> {
    let text = fs::read_to_string(rt, name).context(format_args!("reading {name}"))?;
    for lines in text.split("\n\n") {
        if let Some(row) = Row::read(rt, lines).context(format_args!("in {name}: {lines}"))? {
            runs::run_row(rt, &row, table)?;
        }
    }
    Ok(())
}

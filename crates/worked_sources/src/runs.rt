use crate::ending::{BEFORE, Ended};
use crate::row::Row;
use crate::table::Table;
use anyhow::{Result, bail};
use fontc_cli::run;
use outside_io::{Files, MemConsole, MemFiles, OpenGate, RealFiles};
use std::alloc::{AllocError, Global};
use std::fs;

/// How many bytes the appends of one run may add.
const ROOM: usize = 1_000_000;

/// How many bytes the console of one run may take, where its row doesn't say.
const CONSOLE_ROOM: usize = 10_000;

/// Runs a row over memory, and where it asks for that over the files of the system, and adds it to
/// the table.
pub fn run_row(rt: &HostRuntime, row: &Row<'_>, table: &mut Table<'_>) -> Result<()> {
    let ended = run_in_memory(rt.alloc(), row)?;
    add(rt, row, row.name, &ended, table)?;
    if row.is_real {
        let name = format!(in rt.alloc(); "{}, over real files", row.name)?;
        let ended = run_on_disk(rt, row)?;
        add(rt, row, name.as_str(), &ended, table)?;
    }
    Ok(())
}

fn add(
    rt: &HostRuntime,
    row: &Row<'_>,
    name: &str,
    ended: &Ended,
    table: &mut Table<'_>,
) -> Result<()> {
    let summary = ended.summary(rt.alloc())?;
    let difference = difference(rt, row, ended)?;
    let difference = difference.as_ref().map(|text| text.as_str());
    table.add(rt, name, summary.as_str(), difference)
}

/// What differs between how a row's run ended and how it must end.
fn difference(rt: &HostRuntime, row: &Row<'_>, ended: &Ended) -> Result<Option<String>> {
    let alloc = rt.alloc();
    if ended.status != row.status {
        let text = format!(in alloc; "status {}, wanted {}", ended.status, row.status)?;
        return Ok(Some(text));
    }
    if ended.printed.as_str() != row.printed.as_str() {
        let text = format!(in alloc; "it printed {:?}, wanted {:?}", ended.printed, row.printed)?;
        return Ok(Some(text));
    }
    if !row.left.is(rt, ended.output.as_slice())? {
        let count = ended.output.len();
        let text = format!(in alloc; "the output holds {count} bytes, wanted {:?}", row.left)?;
        return Ok(Some(text));
    }
    if !ended.source_kept {
        return Ok(Some(String::from_str(alloc, "the source has changed")?));
    }
    Ok(None)
}

/// Runs a row over files in memory, of which `in` holds its source and `out` something else.
pub fn run_in_memory(alloc: Global, row: &Row<'_>) -> Result<Ended> {
    let mut files = memory_of(alloc, row)?;
    let (status, printed) = run_words(alloc, row, &mut files)?;
    let output = Vec::from_slice(alloc, files.held("out").unwrap_or(&[]))?;
    let source_kept = files.held("in") == Some(row.source.as_slice());
    Ok(Ended {
        status,
        output,
        source_kept,
        printed,
    })
}

/// Files in memory with the row's source in `in` and something in `out`, which fail where the row
/// wants them to.
fn memory_of(alloc: Global, row: &Row<'_>) -> Result<MemFiles> {
    let Ok(mut files) = MemFiles::with_room(alloc, 2, ROOM) else {
        bail!("no memory for files")
    };
    if files.put(alloc, "in", row.source.as_slice()).is_err()
        || files.put(alloc, "out", BEFORE).is_err()
    {
        bail!("no memory for files")
    }
    if let Some(call) = row.fail
        && files.fail(alloc, call).is_err()
    {
        bail!("no memory for files")
    }
    if let Some(step) = row.step
        && step > 0
    {
        files.step(step);
    }
    Ok(files)
}

/// Runs a row over the files `in` and `out` of this folder.
fn run_on_disk(rt: &HostRuntime, row: &Row<'_>) -> Result<Ended> {
    let alloc = rt.alloc();
    fs::write(rt, "in", row.source.as_slice())?;
    fs::write(rt, "out", BEFORE)?;
    let Ok(mut files) = RealFiles::new(rt, alloc) else {
        bail!("no memory for files")
    };
    let (status, printed) = run_words(alloc, row, &mut files)?;
    let output = fs::read(rt, "out")?;
    let source = fs::read(rt, "in")?;
    let source_kept = source.as_slice() == row.source.as_slice();
    Ok(Ended {
        status,
        output,
        source_kept,
        printed,
    })
}

/// Runs a row's command over files and a console in memory, and answers its exit status and what
/// the console took.
fn run_words<F: Files>(alloc: Global, row: &Row<'_>, files: &mut F) -> Result<(u8, String)> {
    let words = owned(alloc, row.words)?;
    let mut console = console_of(alloc, row)?;
    let report = run(alloc, words.as_slice(), files, &mut console, &OpenGate);
    let printed = String::from_utf8(Vec::from_slice(alloc, console.held())?)?;
    Ok((report.status.code(), printed))
}

/// A console in memory, which fails where the row wants it to.
fn console_of(alloc: Global, row: &Row<'_>) -> Result<MemConsole> {
    let room = row.console_room.unwrap_or(CONSOLE_ROOM);
    let Ok(mut console) = MemConsole::with_room(alloc, room) else {
        bail!("no memory for a console")
    };
    if let Some(write) = row.print_fail
        && console.fail(alloc, write).is_err()
    {
        bail!("no memory for a console")
    }
    Ok(console)
}

/// The words between spaces, each by itself.
fn owned(alloc: Global, words: &str) -> Result<Vec<String>, AllocError> {
    let mut all = Vec::new(alloc);
    for word in words.split_whitespace() {
        all.push(String::from_str(alloc, word)?)?;
    }
    Ok(all)
}

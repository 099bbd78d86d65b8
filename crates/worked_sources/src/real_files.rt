//! What no contract can say of the files of the system: which bytes they give and take.
use crate::table::Table;
use anyhow::{Result, bail};
use outside_io::{Files, RealFiles};
use std::fs;

/// The path that the checks write and read.
const PATH: &str = "real";

/// Runs the checks, and adds a row of each to the table.
pub fn run_checks(rt: &HostRuntime, table: &mut Table<'_>) -> Result<()> {
    let Ok(mut files) = RealFiles::new(rt, rt.alloc()) else {
        bail!("no memory for files")
    };
    let anew = begins_anew(rt, &mut files)?;
    add(
        rt,
        table,
        "a real path that is begun holds nothing of what it held",
        anew,
    )?;
    let counted = counts_appends(rt, &mut files)?;
    add(
        rt,
        table,
        "a real path holds the bytes that its appends say",
        counted,
    )?;
    let twice = reads_twice(rt, &mut files)?;
    add(rt, table, "a place of a real path can be read twice", twice)?;
    let missing = fails_where_missing(&mut files);
    add(
        rt,
        table,
        "a real path that isn't there can't be read or appended to",
        missing,
    )
}

fn add(rt: &HostRuntime, table: &mut Table<'_>, name: &str, holds: bool) -> Result<()> {
    let difference = if holds { None } else { Some("it is not so") };
    table.add(rt, name, "so", difference)
}

/// Whether a path that held a long text holds a short one alone after it was begun and appended to.
fn begins_anew<F: Files>(rt: &HostRuntime, files: &mut F) -> Result<bool> {
    fs::write(rt, PATH, "a text that is longer than what comes")?;
    if files.begin(PATH).is_err() {
        return Ok(false);
    }
    let is_empty = fs::read(rt, PATH)?.is_empty();
    let count = files.append(PATH, b"short").unwrap_or(0);
    let held = fs::read(rt, PATH)?;
    Ok(is_empty && count == 5 && held.as_slice() == b"short".as_slice())
}

/// Whether a path holds just the bytes that each append said it took, and a second one goes behind
/// them.
fn counts_appends<F: Files>(rt: &HostRuntime, files: &mut F) -> Result<bool> {
    let many = vec![in rt.alloc(); b'm'; 200_000]?;
    if files.begin(PATH).is_err() {
        return Ok(false);
    }
    let first = files.append(PATH, many.as_slice()).unwrap_or(0);
    let held = fs::read(rt, PATH)?;
    let is_first_so = first > 0 && held.len() == first;
    let second = files.append(PATH, b"end").unwrap_or(0);
    let held = fs::read(rt, PATH)?;
    Ok(
        is_first_so
            && second == 3
            && held.ends_with(b"end")
            && held.len() == first.saturating_add(3),
    )
}

/// Whether a place gives the same bytes when it is read a second time, right after the first and
/// after another place, and whether a read goes by its place alone, also behind one that met the
/// end of a path that then grows.
fn reads_twice<F: Files>(rt: &HostRuntime, files: &mut F) -> Result<bool> {
    fs::write(rt, PATH, "glyfhmtxloca")?;
    let is_again = reads(files, 0, b"glyf")
        && reads(files, 4, b"hmtx")
        && reads(files, 4, b"hmtx")
        && reads(files, 8, b"loca")
        && reads(files, 0, b"glyf")
        && reads(files, 0, b"glyf")
        && reads(files, 12, b"")
        && reads(files, 10, b"ca");
    fs::write(rt, PATH, "glyfhmtxlocamaxphead")?;
    Ok(is_again && reads(files, 14, b"xphe"))
}

/// Whether a read with room for four bytes gives these.
fn reads<F: Files>(files: &mut F, place: u64, expected: &[u8]) -> bool {
    let mut into = [0; 4];
    match files.read_some(PATH, place, &mut into) {
        Ok(count) => &into[..count] == expected,
        Err(_) => false,
    }
}

/// Whether a path that isn't there can't be read or appended to.
fn fails_where_missing<F: Files>(files: &mut F) -> bool {
    let mut into = [0; 4];
    files.read_some("missing", 0, &mut into).is_err() && files.append("missing", b"x").is_err()
}

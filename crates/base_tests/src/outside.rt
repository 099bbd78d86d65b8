use outside_io::{
    Console, Files, Gate, MemConsole, MemFiles, OpenGate, RealConsole, RealFiles, SureConsole,
    SureFiles,
};
use refusal_codes::NoMemory;
use std::alloc::Global;
use std::fs;
use std::test::Fail;

/// Whether a read with room for 4,096 bytes gives these and no more.
fn reads<F: Files>(files: &mut F, path: &str, place: u64, expected: &[u8]) -> bool {
    let mut into = [0; 4096];
    match files.read_some(path, place, &mut into) {
        Ok(count) => &into[..count] == expected,
        Err(_) => false,
    }
}

/// Whether a read fails.
fn read_fails<F: Files>(files: &mut F, path: &str, place: u64) -> bool {
    let mut into = [0; 4096];
    files.read_some(path, place, &mut into).is_err()
}

/// How many of these bytes an append takes.
fn appended<F: Files>(files: &mut F, path: &str, bytes: &[u8]) -> Option<usize> {
    if bytes.is_empty() {
        return None;
    }
    files.append(path, bytes).ok()
}

fn begins<F: Files>(files: &mut F, path: &str) -> bool {
    files.begin(path).is_ok()
}

/// Files with a source of 259 bytes in `in`, whose calls handle at most 100 bytes, and of which
/// this one fails.
pub(crate) fn listed(alloc: Global, call: u64) -> Result<MemFiles, NoMemory> {
    let mut files = MemFiles::with_room(alloc, 2, 1000)?;
    files.put(alloc, "in", &[7; 259])?;
    files.step(100);
    files.fail(alloc, call)?;
    Ok(files)
}

/// Whether a path holds this many times this byte.
pub(crate) fn holds(files: &MemFiles, path: &str, count: usize, byte: u8) -> bool {
    match files.held(path) {
        Some(bytes) => bytes.len() == count && bytes.iter().all(|b| *b == byte),
        None => false,
    }
}

/// Whether the source is read to its end, in steps.
fn is_read_in_steps(files: &mut MemFiles) -> bool {
    reads(files, "in", 0, &[7; 100])
        && reads(files, "in", 100, &[7; 100])
        && reads(files, "in", 200, &[7; 59])
        && reads(files, "in", 259, &[])
}

/// Whether the output takes two appends and fails the third.
fn is_cut_after_200(files: &mut MemFiles) -> bool {
    begins(files, "out")
        && appended(files, "out", &[9; 280]) == Some(100)
        && appended(files, "out", &[9; 180]) == Some(100)
        && appended(files, "out", &[9; 80]).is_none()
}

#[test]
fn a_listed_append_takes_nothing(rt: HostRuntime) -> Result<(), Fail> {
    let mut files = listed(rt.alloc(), 8)?;
    assert!(rt; is_read_in_steps(&mut files) && is_cut_after_200(&mut files));
    assert!(rt; holds(&files, "out", 200, 9) && holds(&files, "in", 259, 7));
    Ok(())
}

/// Whether the second read of the source fails.
fn is_read_once(files: &mut MemFiles) -> bool {
    read_fails(files, "out", 0) && reads(files, "in", 0, &[7; 100]) && read_fails(files, "in", 100)
}

#[test]
fn a_listed_read_leaves_the_output(rt: HostRuntime) -> Result<(), Fail> {
    let mut files = listed(rt.alloc(), 3)?;
    assert!(rt; is_read_once(&mut files) && files.held("out").is_none());
    Ok(())
}

#[test]
fn a_listed_begin_leaves_the_output(rt: HostRuntime) -> Result<(), Fail> {
    let mut files = listed(rt.alloc(), 1)?;
    assert!(rt; !begins(&mut files, "out") && files.held("out").is_none());
    assert!(rt; begins(&mut files, "out") && holds(&files, "out", 0, 0));
    assert!(rt; !begins(&mut files, "third"));
    Ok(())
}

/// How many of these bytes a console takes.
fn written<C: Console>(console: &mut C, bytes: &[u8]) -> Option<usize> {
    if bytes.is_empty() {
        return None;
    }
    console.write(bytes).ok()
}

/// Whether a console takes nothing, then five bytes, and is full.
fn is_full_after_five<C: Console>(console: &mut C) -> bool {
    written(console, b"wrote").is_none()
        && written(console, b"wrote 280 bytes") == Some(5)
        && written(console, b" 280").is_none()
}

#[test]
fn a_console_fails_where_listed_or_full(rt: HostRuntime) -> Result<(), Fail> {
    let mut console = MemConsole::with_room(rt.alloc(), 5)?;
    console.fail(rt.alloc(), 1)?;
    assert!(rt; is_full_after_five(&mut console));
    assert!(rt; console.held() == b"wrote".as_slice());
    Ok(())
}

/// Whether a source is read from its third byte, and an output of four bytes written.
fn is_read_and_written<F: Files>(files: &mut F) -> bool {
    reads(files, "any", 2, b"urce")
        && begins(files, "out")
        && appended(files, "out", b"font") == Some(4)
}

#[test]
fn sure_forms_count_bytes(rt: HostRuntime) {
    let mut files = SureFiles::over(b"source");
    assert!(rt; is_read_and_written(&mut files) && files.appended() == 4);
    let mut console = SureConsole::new();
    assert!(rt; written(&mut console, b"done") == Some(4) && console.taken() == 4);
    OpenGate.enter(0, 1, 2);
}

/// Whether a path that isn't there is neither read nor appended to.
fn is_missing<F: Files>(files: &mut F, path: &str) -> bool {
    read_fails(files, path, 0) && appended(files, path, b"x").is_none()
}

/// Whether a path takes three appends, and gives its bytes back from any place.
fn is_written_and_read_back<F: Files>(files: &mut F, path: &str) -> bool {
    begins(files, path)
        && appended(files, path, b"glyf ") == Some(5)
        && appended(files, path, b"loca") == Some(4)
        && reads(files, path, 0, b"glyf loca")
        && reads(files, path, 9, b"")
        && reads(files, path, 5, b"loca")
        && appended(files, path, b"!") == Some(1)
        && reads(files, path, 8, b"a!")
}

#[test]
fn real_files_are_written_and_read_back(rt: HostRuntime) -> Result<(), Fail> {
    let path = "outside_io_real_test";
    let mut files = RealFiles::new(&rt, rt.alloc())?;
    assert!(rt; is_missing(&mut files, "outside_io_no_such_file"));
    assert!(rt; is_written_and_read_back(&mut files, path));
    fs::remove_file(&rt, path)?;
    Ok(())
}

#[test]
fn the_real_console_takes_bytes(rt: HostRuntime) {
    let mut console = RealConsole::new(&rt);
    assert!(rt; written(&mut console, b"done\n") == Some(5));
}

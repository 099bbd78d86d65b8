ghost use Rattle.std.specs.Prelude.{◌<◌, ◌^◌};

use crate::outside::{holds, listed};
use outside_io::{MemConsole, MemFiles};
use std::alloc::Global;
use std::test::Fail;
use whole_files::{ReadWholeError, print_whole, read_whole, write_whole};

/// Why a path can't be read whole, where it can't.
fn error_of(alloc: Global, files: &mut MemFiles, path: &str, limit: usize) -> Option<ReadWholeError>
    requires { limit < 2 ^ 62 }
{
    match read_whole(alloc, files, path, limit) {
        Ok(_) => None,
        Err(error) => Some(error),
    }
}

#[test]
fn a_path_is_written_and_read_in_steps(rt: HostRuntime) -> Result<(), Fail> {
    let mut files = listed(rt.alloc(), 99)?;
    assert!(rt; write_whole(&mut files, "out", &[9; 280]).is_ok() && holds(&files, "out", 280, 9));
    let whole = read_whole(rt.alloc(), &mut files, "out", 280)?;
    assert!(rt; whole.as_slice() == [9; 280].as_slice());
    let long = error_of(rt.alloc(), &mut files, "out", 279);
    let missing = error_of(rt.alloc(), &mut files, "none", 279);
    assert!(rt; long == Some(ReadWholeError::TooLong) && missing == Some(ReadWholeError::Failed));
    Ok(())
}

#[test]
fn a_failed_append_leaves_first_bytes(rt: HostRuntime) -> Result<(), Fail> {
    let mut files = listed(rt.alloc(), 4)?;
    assert!(rt; write_whole(&mut files, "out", &[9; 280]).is_err() && holds(&files, "out", 200, 9));
    Ok(())
}

#[test]
fn a_line_is_printed_whole_or_in_part(rt: HostRuntime) -> Result<(), Fail> {
    let mut console = MemConsole::with_room(rt.alloc(), 20)?;
    assert!(rt; print_whole(&mut console, b"wrote 280 bytes\n").is_ok());
    assert!(rt; print_whole(&mut console, b"more\n").is_err());
    assert!(rt; console.held() == b"wrote 280 bytes\nmore".as_slice());
    Ok(())
}

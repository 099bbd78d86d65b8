ghost use Rattle.std.specs.Prelude.{◌≡◌};
ghost use Rattle.whole_files.specs.Requests.{Since};
ghost use Rattle.fontc_cli.specs.Asked.{WritingAsks};
ghost use Rattle.fontc_cli.specs.Runs.{WritingEnds, Between};

use crate::lines::{WRITE_FAULT, tell};
use crate::status::Status;
use outside_io::{Console, Files};
use whole_files::{print_whole, write_whole};

/// Writes bytes to a path, and then prints the line that tells of them.
pub fn write_and_tell<F: Files, C: Console>(
    files: &mut F,
    console: &mut C,
    path: &str,
    bytes: &[u8],
    line: &str,
) -> Status
    ensures ends { Between (WritingEnds path.now bytes.now line.now result) F.holds F.failed_reads
        F.failed_writes C.took C.failed_writes files.old files.new console.old console.new }
    ensures asked { Since (WritingAsks path.now result) (F.calls files.old) (F.calls files.new) }
{
    match write_whole(files, path, bytes) {
        Ok(()) => match print_whole(console, line.as_bytes()) {
            Ok(()) => Status::Done,
            Err(_) => Status::ConsoleFault,
        },
        Err(_) => {
            tell(console, WRITE_FAULT);
            Status::WriteFault
        }
    }
}

ghost use Rattle.std.specs.Prelude.{OnOk, OnErr};
ghost use Rattle.whole_files.specs.Printing.{printed, PrintsAll, PrintsPart};

use crate::behind;
use outside_io::{Console, Failed};

/// Prints these bytes, each write offering all that is left. Where that fails, the console took
/// first bytes of them, and nothing is tried any more.
pub fn print_whole<C: Console>(console: &mut C, bytes: &[u8]) -> Result<(), Failed>
    ensures ok { OnOk result (PrintsAll bytes.now (printed C.took C.failed_writes console.old)
        (printed C.took C.failed_writes console.new)) }

    // It fails only where the count of failed writes rose.
    ensures err { OnErr result (PrintsPart bytes.now
        (printed C.took C.failed_writes console.old)
        (printed C.took C.failed_writes console.new)) }
{
    let mut rest = bytes;
    while !rest.is_empty() {
        let count = console.write(rest)?;
        rest = behind(rest, count);
    }
    Ok(())
}

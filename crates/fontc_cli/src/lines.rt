ghost use Rattle.std.specs.Prelude.{◌≡◌, [], ◌∷◌, ◌++◌, Err, IfOk, OnOk};
ghost use Rattle.std.specs.Fmt.{decimal, signed_decimal};
ghost use Rattle.std.specs.String.{string_bytes};
ghost use Rattle.whole_files.specs.Printing.{printed, Prints};
ghost use Rattle.fontc_cli.specs.Lines.{lines_of, wrote, sample_line, point_line};
ghost use Rattle.fontc_cli.specs.Runs.{IsTold, IsPointTold};
ghost use Rattle.fontc_cli.specs.declared.status.Status.TheVariants as statuses;

use crate::status::Status;
use font_reader::{FontFault, Point};
use outside_io::Console;
use refusal_codes::{NoMemory, Refusal};
use std::alloc::{AllocError, Global};
use whole_files::print_whole;

/// What is printed where the words are no command.
pub const USAGE: &str = concat!(
    "usage: fontc build IN OUT\n",
    "usage: fontc inspect point FONT GID INDEX COORDS\n",
    "usage: fontc sample SEED GLYPHS OUT [--source]\n"
);

/// What is printed where a read failed.
pub const READ_FAULT: &str = "fontc: read fault\n";

/// What is printed where a write failed.
pub const WRITE_FAULT: &str = "fontc: write fault\n";

/// What is printed where a font of so many bytes was written.
pub fn wrote_line(alloc: Global, count: usize) -> Result<String, AllocError>
    ensures { IfOk result (λ line. string_bytes line ≡ wrote count) }
{
    format!(in alloc; "wrote {count} bytes\n")
}

/// What is printed where so many bytes of a sample were written, which so many jobs made.
pub fn sample_line(
    alloc: Global,
    seed: u32,
    glyphs: u32,
    count: usize,
    jobs: usize,
) -> Result<String, AllocError>
    ensures { IfOk result (λ line. string_bytes line ≡ sample_line seed glyphs count jobs) }
{
    let mut line = String::from_str(alloc, "sample ")?;
    push_number(&mut line, seed as usize, " ")?;
    push_number(&mut line, glyphs as usize, ": ")?;
    push_number(&mut line, count, " bytes, ")?;
    push_number(&mut line, jobs, " jobs\n")?;
    Ok(line)
}

/// Adds a number, and a text behind it.
fn push_number(line: &mut String, number: usize, behind: &str) -> Result<(), AllocError>
    ensures { OnOk result (string_bytes line.new
        ≡ string_bytes line.old ++ decimal number ++ behind.now) }
{
    write!(line, "{number}")?;
    line.push_str(behind)
}

/// What is printed of a point.
pub fn point_line(alloc: Global, point: Point) -> Result<String, AllocError>
    ensures { IfOk result (λ line. string_bytes line ≡ point_line point) }
{
    let x = coordinate_text(alloc, point.x)?;
    let y = coordinate_text(alloc, point.y)?;
    pair_line(alloc, x.as_str(), y.as_str())
}

/// The line of two texts.
fn pair_line(alloc: Global, x: &str, y: &str) -> Result<String, AllocError>
    ensures { IfOk result (λ line. string_bytes line ≡ x.now ++ (32 ∷ (y.now ++ 10 ∷ []))) }
{
    format!(in alloc; "{x} {y}\n")
}

/// The digits of a coordinate, behind a hyphen where it is negative.
fn coordinate_text(alloc: Global, coordinate: i64) -> Result<String, AllocError>
    ensures { IfOk result (λ text. string_bytes text ≡ signed_decimal coordinate) }
{
    coordinate.to_string(alloc)
}

/// What is printed where a font is at fault.
fn fault_line(alloc: Global, fault: FontFault) -> Result<String, AllocError>
    ensures { IfOk result (λ line. string_bytes line ≡ lines_of [] (statuses.BadFont fault)) }
{
    let kind = fault.kind.name();
    let place = fault.place;
    format!(in alloc; "fontc: bad font: {kind} at {place}\n")
}

/// What is printed where the source is refused.
fn refusal_line(alloc: Global, refusal: &Refusal) -> Result<String, NoMemory>
    ensures { IfOk result (λ line. string_bytes line
        ≡ lines_of [] (statuses.Refused refusal.now)) }
{
    let text = refusal.text(alloc)?;
    Ok(format!(in alloc; "fontc: {text}\n")?)
}

/// Prints lines, of which the console may fail some or all: that changes no status.
pub fn tell<C: Console>(console: &mut C, lines: &str)
    ensures { Prints lines.now (printed C.took C.failed_writes console.old)
        (printed C.took C.failed_writes console.new) }
{
    let _ = print_whole(console, lines.as_bytes());
}

/// Prints a refusal, and answers its status. Where memory runs out nothing is printed.
pub fn refuse<C: Console>(alloc: Global, console: &mut C, refusal: Refusal) -> Status
    ensures { IsTold refusal result (printed C.took C.failed_writes console.old)
        (printed C.took C.failed_writes console.new) }
{
    match refusal_line(alloc, &refusal) {
        Ok(line) => {
            tell(console, line.as_str());
            Status::Refused(refusal)
        }
        Err(_) => Status::NoMemory,
    }
}

/// Prints the fault of a font, and answers its status. Where memory runs out nothing is printed.
pub fn tell_fault<C: Console>(alloc: Global, console: &mut C, fault: FontFault) -> Status
    ensures { IsPointTold result (Err fault) (printed C.took C.failed_writes console.old)
        (printed C.took C.failed_writes console.new) }
{
    match fault_line(alloc, fault) {
        Ok(line) => {
            tell(console, line.as_str());
            Status::BadFont(fault)
        }
        Err(_) => Status::NoMemory,
    }
}

ghost use Rattle.std.specs.Prelude.{◌≡◌, ◌≤◌, length, IfOk, Ok, Err};
ghost use Rattle.font_reader.specs.Fields.{fault};
ghost use Rattle.font_reader.specs.Points.{point_at};
ghost use Rattle.font_reader.specs.declared.faults.FaultKind.TheVariants as kinds;
ghost use Rattle.whole_files.specs.Printing.{printed};
ghost use Rattle.whole_files.specs.Requests.{Since, AreRoomyReads};
ghost use Rattle.fontc_cli.specs.Inspected.{font_bytes, inspected, read_point};
ghost use Rattle.fontc_cli.specs.Runs.{Between, InspectEnds, IsPointTold};
ghost use Rattle.command_words.specs.Shown.{shown_inspect};

use crate::lines::{READ_FAULT, point_line, tell, tell_fault};
use crate::status::Status;
use command_words::{InspectCommand, place};
use fixed_math::F2Dot14;
use font_reader::{FaultKind, FontFault, FontView, Point, Room};
use outside_io::{Console, Files};
use refusal_codes::NoMemory;
use std::alloc::Global;
use whole_files::{ReadWholeError, print_whole, read_whole};

/// The greatest length of a font that is inspected, in bytes.
pub const FONT_BYTES: usize = 268_435_456;

/// Tells a point of a font at a place of the design space.
pub fn inspect<F: Files, C: Console>(
    alloc: Global,
    command: InspectCommand<'_>,
    files: &mut F,
    console: &mut C,
) -> Status
    ensures ends { Between (InspectEnds (shown_inspect command.entry) result) F.holds F.failed_reads
        F.failed_writes C.took C.failed_writes files.old files.new console.old console.new }
    ensures asked { Since (AreRoomyReads command.entry.font.now) (F.calls files.old)
        (F.calls files.new) }
{
    match read_whole(alloc, files, command.font, FONT_BYTES) {
        Ok(font) => tell_point(alloc, command, console, font.as_slice()),
        Err(ReadWholeError::TooLong) => tell_too_large(alloc, console),
        Err(ReadWholeError::Failed) => {
            tell(console, READ_FAULT);
            Status::ReadFault
        }
        Err(ReadWholeError::NoMemory) => Status::NoMemory,
    }
}

/// Tells that a font is too long.
fn tell_too_large<C: Console>(alloc: Global, console: &mut C) -> Status
    ensures { IsPointTold result (Err (fault kinds.TooLarge font_bytes))
        (printed C.took C.failed_writes console.old) (printed C.took C.failed_writes console.new) }
{
    let fault = FontFault {
        place: FONT_BYTES as u64,
        kind: FaultKind::TooLarge,
    };
    tell_fault(alloc, console, fault)
}

/// Tells a point of a font that was read, or the font's first fault.
#[tactic(auto, unfolding(crate::specs::Inspected::inspected))]
fn tell_point<C: Console>(
    alloc: Global,
    command: InspectCommand<'_>,
    console: &mut C,
    font: &[u8],
) -> Status
    requires { length font.now ≤ font_bytes }
    ensures { IsPointTold result (inspected (shown_inspect command.entry) font.now)
        (printed C.took C.failed_writes console.old) (printed C.took C.failed_writes console.new) }
{
    match read_point(alloc, command, font) {
        Ok(Ok(point)) => print_point(alloc, console, point),
        Ok(Err(fault)) => tell_fault(alloc, console, fault),
        Err(_) => Status::NoMemory,
    }
}

/// Prints a point.
fn print_point<C: Console>(alloc: Global, console: &mut C, point: Point) -> Status
    ensures { IsPointTold result (Ok point) (printed C.took C.failed_writes console.old)
        (printed C.took C.failed_writes console.new) }
{
    let Ok(line) = point_line(alloc, point) else {
        return Status::NoMemory;
    };
    match print_whole(console, line.as_bytes()) {
        Ok(()) => Status::Done,
        Err(_) => Status::ConsoleFault,
    }
}

/// Reads a point of a font, or the font's first fault.
///
/// # Errors
///
/// `NoMemory` alone, where memory ran out.
#[tactic(auto, unfolding(crate::specs::Inspected::read_point))]
fn read_point(
    alloc: Global,
    command: InspectCommand<'_>,
    font: &[u8],
) -> Result<Result<Point, FontFault>, NoMemory>
    ensures { IfOk result (λ read. read ≡ read_point (shown_inspect command.entry) font.now) }
{
    let place = place(alloc, command.place)?;
    match FontView::of(font) {
        Ok(view) => point_in(alloc, view, command, place.as_slice()),
        Err(fault) => Ok(Err(fault)),
    }
}

/// Reads a point of a font without a fault of its own. Where there is no room to be had for the
/// glyph, it has a fault that is met before the room is.
fn point_in(
    alloc: Global,
    view: FontView<'_>,
    command: InspectCommand<'_>,
    place: &[F2Dot14],
) -> Result<Result<Point, FontFault>, NoMemory>
    ensures { IfOk result (λ read. read ≡ point_at view.entry.bytes.now command.entry.glyph
        command.entry.index place.now) }
{
    let points = view.room_for(command.glyph).unwrap_or(0);
    let mut room = Room::new(alloc, points)?;
    let index = u32::from(command.index);
    Ok(view.point_at(command.glyph, index, place, &mut room))
}

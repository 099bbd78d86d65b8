ghost use Rattle.std.specs.Prelude.{◌≡◌, ◌≤◌, false, length};
ghost use Rattle.whole_files.specs.Requests.{Since};
ghost use Rattle.refusal_codes.specs.declared.limits.TheConstants.{SOURCE_BYTES};
ghost use Rattle.fontc_cli.specs.Asked.{WritingAsks};
ghost use Rattle.fontc_cli.specs.Boards.{HasSampleBoard};
ghost use Rattle.fontc_cli.specs.Compiled.{jobs_run};
ghost use Rattle.fontc_cli.specs.Lines.{sample_line};
ghost use Rattle.fontc_cli.specs.Runs.{Between, SampleEnds, WritingEnds};
ghost use Rattle.fontc_cli.specs.Sampled.{text_of_sample};
ghost use Rattle.command_words.specs.Shown.{shown_sample, IsMakeable};

use crate::lines::{refuse, sample_line};
use crate::status::{Report, Status};
use crate::writing::write_and_tell;
use command_words::SampleCommand;
use font_plan::{FontPlan, compile_one};
use job_graph::Board;
use outside_io::{Console, Files};
use refusal_codes::CompileError;
use std::alloc::Global;

/// Writes the sample of a seed and a number of glyphs: its font, or its text.
pub fn sample<F: Files, C: Console>(
    alloc: Global,
    command: SampleCommand<'_>,
    files: &mut F,
    console: &mut C,
) -> Report
    requires { IsMakeable command }
    ensures ends { Between (SampleEnds (shown_sample command.entry) result.status) F.holds
        F.failed_reads F.failed_writes C.took C.failed_writes files.old files.new console.old
        console.new }
    ensures board { Between (HasSampleBoard (shown_sample command.entry) result.status result.board)
        F.holds F.failed_reads F.failed_writes C.took C.failed_writes files.old files.new
        console.old console.new }
    ensures asked { Since (WritingAsks command.entry.output.now result.status)
        (F.calls files.old) (F.calls files.new) }
{
    match sample_maker::sample(alloc, command.seed, command.glyphs) {
        Ok(text) => write_sample(alloc, command, files, console, text.as_slice()),
        Err(_) => Report::of(Status::NoMemory),
    }
}

/// Writes the text of a sample, or its font.
fn write_sample<F: Files, C: Console>(
    alloc: Global,
    command: SampleCommand<'_>,
    files: &mut F,
    console: &mut C,
    text: &[u8],
) -> Report
    requires text { text.now ≡ text_of_sample (shown_sample command) }
    requires fits { length text.now ≤ SOURCE_BYTES }
    ensures ends { Between (SampleEnds (shown_sample command.entry) result.status) F.holds
        F.failed_reads F.failed_writes C.took C.failed_writes files.old files.new console.old
        console.new }
    ensures board { Between (HasSampleBoard (shown_sample command.entry) result.status result.board)
        F.holds F.failed_reads F.failed_writes C.took C.failed_writes files.old files.new
        console.old console.new }
    ensures asked { Since (WritingAsks command.entry.output.now result.status)
        (F.calls files.old) (F.calls files.new) }
{
    if command.writes_text {
        Report::of(write_bytes(alloc, command, files, console, text, 0))
    } else {
        write_font(alloc, command, files, console, text)
    }
}

/// Compiles the text of a sample, and writes its font.
fn write_font<F: Files, C: Console>(
    alloc: Global,
    command: SampleCommand<'_>,
    files: &mut F,
    console: &mut C,
    text: &[u8],
) -> Report
    requires font { command.writes_text ≡ false }
    requires text { text.now ≡ text_of_sample (shown_sample command) }
    requires fits { length text.now ≤ SOURCE_BYTES }
    ensures ends { Between (SampleEnds (shown_sample command.entry) result.status) F.holds
        F.failed_reads F.failed_writes C.took C.failed_writes files.old files.new console.old
        console.new }
    ensures board { Between (HasSampleBoard (shown_sample command.entry) result.status result.board)
        F.holds F.failed_reads F.failed_writes C.took C.failed_writes files.old files.new
        console.old console.new }
    ensures asked { Since (WritingAsks command.entry.output.now result.status)
        (F.calls files.old) (F.calls files.new) }
{
    match compile_one(alloc, text) {
        Ok(built) => {
            let jobs = jobs_run(&built.board);
            let font = built.font.as_slice();
            let status = write_bytes(alloc, command, files, console, font, jobs);
            Report::with_board(status, built.board)
        }
        Err(CompileError::Refused(refusal)) => Report::of(refuse(alloc, console, refusal)),
        Err(CompileError::NoMemory) => Report::of(Status::NoMemory),
    }
}

/// How many jobs were run on a board that has ended: each has two events.
fn jobs_run(board: &Board<FontPlan>) -> usize
    ensures { result ≡ jobs_run board.now }
{
    board.events().len() / 2
}

/// Writes what so many jobs made of a sample, once the line that tells of it stands in memory too.
fn write_bytes<F: Files, C: Console>(
    alloc: Global,
    command: SampleCommand<'_>,
    files: &mut F,
    console: &mut C,
    bytes: &[u8],
    jobs: usize,
) -> Status
    ensures ends { Between (WritingEnds command.entry.output.now bytes.now
        (sample_line command.entry.seed command.entry.glyphs (length bytes.now) jobs) result)
        F.holds F.failed_reads F.failed_writes C.took C.failed_writes files.old files.new
        console.old console.new }
    ensures asked { Since (WritingAsks command.entry.output.now result)
        (F.calls files.old) (F.calls files.new) }
{
    match sample_line(alloc, command.seed, command.glyphs, bytes.len(), jobs) {
        Ok(line) => write_and_tell(files, console, command.output, bytes, line.as_str()),
        Err(_) => Status::NoMemory,
    }
}

ghost use Rattle.std.specs.Prelude.{◌≡◌, ◌≤◌, map, length, IfSome, Some};
ghost use Rattle.std.specs.String.{string_bytes};
ghost use Rattle.outside_io.specs.Files.{told_bytes};
ghost use Rattle.whole_files.specs.Requests.{Since};
ghost use Rattle.refusal_codes.specs.declared.limits.TheConstants.{SOURCE_BYTES};
ghost use Rattle.fontc_cli.specs.Boards.{HasBoard, HasBuildBoard};
ghost use Rattle.fontc_cli.specs.Asked.{WritingAsks, BuildAsks, RunAsks};
ghost use Rattle.command_words.specs.Commands.{command_of};
ghost use Rattle.fontc_cli.specs.Lines.{wrote};
ghost use Rattle.fontc_cli.specs.Runs.{BuildEnds, RunEnds, IsComplete, WritingEnds, Between};
ghost use Rattle.fontc_cli.specs.Statuses.{ExitsBy};
ghost use Rattle.command_words.specs.Shown.{shown, shown_command, IsRunnable};

use crate::inspect::inspect;
use crate::lines::{READ_FAULT, USAGE, refuse, tell, wrote_line};
use crate::sample::sample;
use crate::status::{Report, Status};
use crate::writing::write_and_tell;
use command_words::{BuildCommand, Command, read_command};
use font_plan::{compile_one, source_too_large};
use outside_io::{Console, Files, Gate};
use refusal_codes::CompileError;
use refusal_codes::limits::SOURCE_BYTES;
use std::alloc::Global;
use std::process::ExitCode;
use whole_files::{ReadWholeError, read_whole};

/// Runs the command that the words are, over these files and this console.
///
/// The words are those behind the program's name: `build IN OUT`,
/// `inspect point FONT GID INDEX COORDS` or `sample SEED GLYPHS OUT`, with `--source` anywhere
/// behind `sample`. The report says how the run ended.
///
/// Of a build: the font of what IN held stands in OUT; or the words are no command, the source is
/// refused, a read of IN or a write of OUT failed, or memory ran out. Files are asked for reads of
/// IN first. OUT is begun once the whole font and the line that tells of it stand in memory, and
/// then all that is left of the font is offered to it, until it stands there or a write fails.
///
/// Of an inspection: the point INDEX of the glyph GID of the font that FONT holds, at the place
/// COORDS of the design space, was read; or the font, or what is asked of it, is at fault, a read
/// of FONT failed, or memory ran out. Nothing is written.
///
/// Of a sample: OUT holds the font of the text that is drawn from SEED for GLYPHS glyphs, or with
/// `--source` that text; or the text is refused, a write of OUT failed, or memory ran out. Nothing
/// is read, and OUT is begun as that of a build is.
///
/// The console takes one line, which says the same, and of a point its coordinates in 16.16; of
/// words that are no command it takes a line for each command, and where memory ran out none. A
/// console that fails takes first bytes of it, and changes how the run ended only where it would
/// else be `Done`.
///
/// The report has a board exactly where a font was begun to be written: the board of its
/// compilation.
pub fn run<F: Files, C: Console, G: Gate + Sync>(
    alloc: Global,
    words: &[String],
    files: &mut F,
    console: &mut C,
    _gate: &G,
) -> Report
    ensures ends { Between (RunEnds (command_of (map string_bytes words.now)) result.status)
        F.holds F.failed_reads F.failed_writes C.took C.failed_writes files.old files.new
        console.old console.new }
    ensures complete { Between (IsComplete (command_of (map string_bytes words.now)) result.status)
        F.holds F.failed_reads F.failed_writes C.took C.failed_writes files.old files.new
        console.old console.new }
    ensures board { Between (HasBoard (command_of (map string_bytes words.now)) result.status
        result.board) F.holds F.failed_reads F.failed_writes C.took C.failed_writes files.old
        files.new console.old console.new }
    ensures asked { Since (RunAsks (command_of (map string_bytes words.now)) result.status)
        (F.calls files.old) (F.calls files.new) }
{
    run_alone(alloc, words, files, console)
}

/// Runs the command that the words are, as `run` does, and answers what the program ends with: the
/// exit status of a status by which such a run can end.
pub fn run_program<F: Files, C: Console, G: Gate + Sync>(
    alloc: Global,
    words: &[String],
    files: &mut F,
    console: &mut C,
    gate: &G,
) -> ExitCode
    ensures ends { ExitsBy (λ status. Between
        (RunEnds (command_of (map string_bytes words.now)) status)
        F.holds F.failed_reads F.failed_writes C.took C.failed_writes files.old files.new
        console.old console.new) result }
    ensures complete { ExitsBy (λ status. Between
        (IsComplete (command_of (map string_bytes words.now)) status)
        F.holds F.failed_reads F.failed_writes C.took C.failed_writes files.old files.new
        console.old console.new) result }
    ensures asked { ExitsBy (λ status. Since
        (RunAsks (command_of (map string_bytes words.now)) status)
        (F.calls files.old) (F.calls files.new)) result }
{
    run(alloc, words, files, console, gate).status.exit()
}

/// Runs the command that the words are, as `run` does, and waits for nobody.
pub fn run_alone<F: Files, C: Console>(
    alloc: Global,
    words: &[String],
    files: &mut F,
    console: &mut C,
) -> Report
    ensures ends { Between (RunEnds (command_of (map string_bytes words.now)) result.status)
        F.holds F.failed_reads F.failed_writes C.took C.failed_writes files.old files.new
        console.old console.new }
    ensures complete { Between (IsComplete (command_of (map string_bytes words.now)) result.status)
        F.holds F.failed_reads F.failed_writes C.took C.failed_writes files.old files.new
        console.old console.new }
    ensures board { Between (HasBoard (command_of (map string_bytes words.now)) result.status
        result.board) F.holds F.failed_reads F.failed_writes C.took C.failed_writes files.old
        files.new console.old console.new }
    ensures asked { Since (RunAsks (command_of (map string_bytes words.now)) result.status)
        (F.calls files.old) (F.calls files.new) }
{
    run_words(alloc, words, files, console)
}

/// Runs the command that the words are, and answers how that ended.
fn run_words<F: Files, C: Console>(
    alloc: Global,
    words: &[String],
    files: &mut F,
    console: &mut C,
) -> Report
    ensures ends { Between (RunEnds (command_of (map string_bytes words.now)) result.status)
        F.holds F.failed_reads F.failed_writes C.took C.failed_writes files.old files.new
        console.old console.new }
    ensures board { Between (HasBoard (command_of (map string_bytes words.now)) result.status
        result.board) F.holds F.failed_reads F.failed_writes C.took C.failed_writes files.old
        files.new console.old console.new }
    ensures asked { Since (RunAsks (command_of (map string_bytes words.now)) result.status)
        (F.calls files.old) (F.calls files.new) }
{
    match read_command(alloc, words) {
        Ok(Some(command)) => run_command(alloc, command, files, console),
        Ok(None) => {
            tell(console, USAGE);
            Report::of(Status::Usage)
        }
        Err(_) => Report::of(Status::NoMemory),
    }
}

/// Runs a command, and answers how that ended.
fn run_command<F: Files, C: Console>(
    alloc: Global,
    command: Command<'_>,
    files: &mut F,
    console: &mut C,
) -> Report
    requires { IsRunnable command }
    ensures ends { Between (RunEnds (Some (shown_command command.entry)) result.status)
        F.holds F.failed_reads F.failed_writes C.took C.failed_writes files.old files.new
        console.old console.new }
    ensures board { Between (HasBoard (Some (shown_command command.entry)) result.status
        result.board) F.holds F.failed_reads F.failed_writes C.took C.failed_writes files.old
        files.new console.old console.new }
    ensures asked { Since (RunAsks (Some (shown_command command.entry)) result.status)
        (F.calls files.old) (F.calls files.new) }
{
    match command {
        Command::Build(command) => build(alloc, command, files, console),
        Command::Inspect(command) => Report::of(inspect(alloc, command, files, console)),
        Command::Sample(command) => sample(alloc, command, files, console),
    }
}

/// Compiles the source at one path and writes its font to another.
fn build<F: Files, C: Console>(
    alloc: Global,
    command: BuildCommand<'_>,
    files: &mut F,
    console: &mut C,
) -> Report
    ensures ends { Between (BuildEnds (shown command.entry) result.status) F.holds F.failed_reads
        F.failed_writes C.took C.failed_writes files.old files.new console.old console.new }
    ensures board { Between (HasBuildBoard (shown command.entry) result.status result.board)
        F.holds F.failed_reads F.failed_writes C.took C.failed_writes files.old files.new
        console.old console.new }
    ensures asked { Since (BuildAsks (shown command.entry) result.status)
        (F.calls files.old) (F.calls files.new) }
{
    match read_whole(alloc, files, command.source, SOURCE_BYTES) {
        Ok(source) => build_source(alloc, command, files, console, source.as_slice()),
        Err(ReadWholeError::TooLong) => {
            Report::of(refuse(alloc, console, source_too_large(alloc)))
        }
        Err(ReadWholeError::Failed) => {
            tell(console, READ_FAULT);
            Report::of(Status::ReadFault)
        }
        Err(ReadWholeError::NoMemory) => Report::of(Status::NoMemory),
    }
}

/// Compiles a source that was read, and writes its font.
fn build_source<F: Files, C: Console>(
    alloc: Global,
    command: BuildCommand<'_>,
    files: &mut F,
    console: &mut C,
    source: &[u8],
) -> Report
    requires fits { length source.now ≤ SOURCE_BYTES }
    requires read { IfSome (told_bytes (F.holds files.old command.source.now))
        (λ bytes. source.now ≡ bytes) }
    ensures ends { Between (BuildEnds (shown command.entry) result.status) F.holds F.failed_reads
        F.failed_writes C.took C.failed_writes files.old files.new console.old console.new }
    ensures board { Between (HasBuildBoard (shown command.entry) result.status result.board)
        F.holds F.failed_reads F.failed_writes C.took C.failed_writes files.old files.new
        console.old console.new }
    ensures asked { Since (WritingAsks command.entry.output.now result.status)
        (F.calls files.old) (F.calls files.new) }
{
    match compile_one(alloc, source) {
        Ok(built) => {
            let font = built.font.as_slice();
            let status = write_font(alloc, command.output, files, console, font);
            Report::with_board(status, built.board)
        }
        Err(CompileError::Refused(refusal)) => Report::of(refuse(alloc, console, refusal)),
        Err(CompileError::NoMemory) => Report::of(Status::NoMemory),
    }
}

/// Writes the font of a source, once the line that tells of it stands in memory too.
fn write_font<F: Files, C: Console>(
    alloc: Global,
    output: &str,
    files: &mut F,
    console: &mut C,
    font: &[u8],
) -> Status
    ensures ends { Between (WritingEnds output.now font.now (wrote (length font.now)) result)
        F.holds F.failed_reads F.failed_writes C.took C.failed_writes files.old files.new
        console.old console.new }
    ensures asked { Since (WritingAsks output.now result) (F.calls files.old) (F.calls files.new) }
{
    match wrote_line(alloc, font.len()) {
        Ok(line) => write_and_tell(files, console, output, font, line.as_str()),
        Err(_) => Status::NoMemory,
    }
}

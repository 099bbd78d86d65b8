ghost use Rattle.std.specs.Prelude.{◌≡◌, None};
ghost use Rattle.std.specs.Process.{exit_status};
ghost use Rattle.fontc_cli.specs.Boards.{kept_board};
ghost use Rattle.fontc_cli.specs.Statuses.{exit_code};

use font_plan::FontPlan;
use font_reader::FontFault;
use job_graph::Board;
use refusal_codes::Refusal;
use std::process::ExitCode;

/// How a run ended.
#[derive(Debug, Drop)]
pub enum Status {
    /// The font or the sample was written, or the point read, and the console took the line that
    /// says so.
    Done,
    /// The words are no command.
    Usage,
    /// The source fails a rule.
    Refused(Refusal),
    /// A font that was to be inspected is at fault, or what is asked of it.
    BadFont(FontFault),
    /// The source could not be read, or the font that was to be inspected.
    ReadFault,
    /// The font or the sample could not be written.
    WriteFault,
    /// The font or the sample was written, or the point read, and the console failed the line that
    /// says so.
    ConsoleFault,
    /// Memory ran out.
    NoMemory,
}

impl Status {
    /// What the program ends with.
    pub fn exit(&self) -> ExitCode
        ensures { exit_status result ≡ exit_code self.now }
    {
        ExitCode::from(self.code())
    }

    /// The program's exit status.
    pub fn code(&self) -> u8
        ensures { result ≡ exit_code self.now }
    {
        match self {
            Status::Done => 0,
            Status::Usage => 1,
            Status::Refused(_) => 2,
            Status::BadFont(_) => 3,
            Status::ReadFault => 4,
            Status::WriteFault => 5,
            Status::ConsoleFault => 6,
            Status::NoMemory => 7,
        }
    }
}

/// What a run answers.
#[derive(Drop)]
pub struct Report {
    /// How the run ended.
    pub status: Status,
    /// The board of the compilation whose font was begun to be written.
    pub board: Option<Board<FontPlan>>,
}

impl Report {
    /// The report of a run in which no font was begun. It takes no memory.
    pub(crate) fn of(status: Status) -> Report
        ensures { result ≡ record { status = status; board = None } }
    {
        Report {
            status,
            board: None,
        }
    }

    /// The report of a run whose font was compiled on this board: it keeps the board, unless memory
    /// ran out before the font was begun.
    pub(crate) fn with_board(status: Status, board: Board<FontPlan>) -> Report
        ensures status { result.status ≡ status }
        ensures board { result.board ≡ kept_board status board }
    {
        match status {
            Status::NoMemory => Report::of(Status::NoMemory),
            status => Report {
                status,
                board: Some(board),
            },
        }
    }
}

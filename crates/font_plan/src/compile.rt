ghost use Rattle.std.specs.Prelude.{◌≡◌, ◌≤◌, length, IfOk};
ghost use Rattle.refusal_codes.specs.Gives.{Compiles};
ghost use Rattle.refusal_codes.specs.declared.limits.TheConstants.{SOURCE_BYTES};
ghost use Rattle.font_plan.specs.Alone.{HasEnded};
ghost use Rattle.font_plan.specs.Font.{font_of};

use crate::alone::run_to_end;
use crate::plan::FontPlan;
use crate::telling::{font_bytes, verdict};
use job_graph::Board;
use refusal_codes::{CompileError, NoMemory};
use std::alloc::Global;
use std::sync::Arc;

/// A font that was compiled, and the board on which its jobs were run.
#[derive(Drop)]
pub struct Built {
    /// The bytes of the font.
    pub font: Vec<u8>,
    /// The board, which has ended.
    pub board: Board<FontPlan>,
}

/// Compiles a source of at most 67,108,864 bytes, with one worker.
///
/// It answers the font of an accepted source, and for every other one the least refusal of all its
/// jobs. `NoMemory` comes only where an allocation fails; it may come for any source, and says
/// nothing of it.
pub fn compile_one(alloc: Global, source: &[u8]) -> Result<Built, CompileError>
    requires { length source.now ≤ SOURCE_BYTES }
    ensures font { Compiles (λ built. built.font.items) result (font_of source.now) }
    ensures over { IfOk result (λ built. built.board.plan ≡ source.now) }
    ensures workers { IfOk result (λ built. built.board.workers ≡ 1) }
    ensures ended { IfOk result (λ built. HasEnded built.board) }
{
    let board = ended_board(alloc, source)?;
    let item = verdict(alloc, &board)?;
    let font = font_bytes(alloc, &item)?;
    Ok(Built { font, board })
}

/// A board over this source whose jobs were all run.
fn ended_board(alloc: Global, source: &[u8]) -> Result<Board<FontPlan>, NoMemory>
    ensures over { IfOk result (λ board. board.plan ≡ source.now) }
    ensures workers { IfOk result (λ board. board.workers ≡ 1) }
    ensures ended { IfOk result HasEnded }
{
    let source = Arc::new(alloc, Vec::from_slice(alloc, source)?)?;
    let mut board = Board::new(alloc, FontPlan::over(source), 1)?;
    run_to_end(alloc, &mut board)?;
    Ok(board)
}

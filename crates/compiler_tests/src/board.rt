// A source's jobs on a board.
ghost use Rattle.std.specs.Prelude.{◌≡◌, ◌<◌, ℕ, None, Some, IfOk, OnOk};
ghost use Rattle.job_graph.specs.BoardView.{NowHas};
ghost use Rattle.job_graph.specs.Histories.{out_at};
ghost use Rattle.job_graph.specs.Rounds.{IsDue};

use crate::font::FONT;
use crate::plan::is_told;
use access_context::{Reads, Settled};
use fixtures::SOURCE;
use font_graph::JobId;
use font_plan::{FontPlan, Item, compile_one, verdict};
use job_graph::{Board, Claim, End, Event, Plan, Ticket, run_claimed};
use refusal_codes::{CompileError, NoMemory, Refusal, Rule};
use std::alloc::Global;
use std::sync::Arc;
use std::test::Fail;

/// Two glyphs, each with a cubic node. The second glyph's name is the lesser.
const TWO_CUBIC_GLYPHS: &[u8] = b"{
.formatVersion = 3;
familyName = Tri;
fontMaster = ({id = m1;});
glyphs = (
{glyphname = x;layers = ({layerId = m1;shapes = (\
{nodes = ((0,0,l),(500,0,l),(250,700,c));});width = 500;});},
{glyphname = b;layers = ({layerId = m1;shapes = (\
{nodes = ((0,0,l),(500,0,l),(250,700,c));});width = 500;});}
);
unitsPerEm = 1000;
}
";

/// The jobs of a source.
fn jobs_of(alloc: Global, source: &[u8]) -> Result<FontPlan, NoMemory> {
    let source = Arc::new(alloc, Vec::from_slice(alloc, source)?)?;
    Ok(FontPlan::over(source))
}

/// Runs a job that a worker has, and finishes it.
fn finish<P: Plan>(
    alloc: Global,
    board: &mut Board<P>,
    worker: u32,
    ticket: Ticket<P::Id>,
    reads: &Reads<P::Id, P::Value>,
) -> Result<(), NoMemory>
    requires out { out_at board.old.workers board.old.events worker ≡ Some (Some ticket) }
    requires due { IsDue P.Id.eq (P.meaning board.old.plan) ticket reads.now }
    ensures workers { OnOk result (board.new.workers ≡ board.old.workers) }
    ensures free { OnOk result (NowHas board.old board.new worker None) }
{
    let outcome = run_claimed(alloc, board.plan(), &ticket, reads)?;
    match board.finish(alloc, worker, ticket, outcome) {
        Ok(()) => Ok(()),
        Err(_) => Err(NoMemory),
    }
}

/// Runs a worker's next job, where there is one for it.
fn run_next<P: Plan>(alloc: Global, board: &mut Board<P>, worker: u32) -> Result<(), NoMemory>
    requires known { worker < board.old.workers }
    requires free { out_at board.old.workers board.old.events worker ≡ Some None }
    ensures workers { OnOk result (board.new.workers ≡ board.old.workers) }
    ensures free { OnOk result (out_at board.new.workers board.new.events worker ≡ Some None) }
{
    match board.claim(alloc, worker) {
        Claim::Run(ticket, reads) => finish(alloc, board, worker, ticket, &reads),
        Claim::NoMemory => Err(NoMemory),
        Claim::Idle(_) | Claim::Ended | Claim::Halted => Ok(()),
    }
}

/// A board of one worker, after so many calls.
fn run_alone_by<P: Plan>(alloc: Global, plan: P, calls: u32) -> Result<Board<P>, NoMemory> {
    let mut board = Board::new(alloc, plan, 1)?;
    for _call in 0..calls {
        run_next(alloc, &mut board, 0)?;
    }
    Ok(board)
}

/// What two workers are told in turn: the job that the first one gets, how many jobs run while
/// there is none for the second, the job that the second gets once the first has finished, and
/// whether the first is halted after its halt.
fn first_answers<P: Plan>(
    alloc: Global,
    plan: P,
) -> Result<Option<(P::Id, u32, P::Id, bool)>, NoMemory> {
    let mut board = Board::new(alloc, plan, 2)?;
    let Claim::Run(ticket, reads) = board.claim(alloc, 0) else {
        return Ok(None);
    };
    let first = *ticket.id();
    let Claim::Idle(running) = board.claim(alloc, 1) else {
        return Ok(None);
    };
    finish(alloc, &mut board, 0, ticket, &reads)?;
    let Claim::Run(ticket, _reads) = board.claim(alloc, 1) else {
        return Ok(None);
    };
    let second = *ticket.id();
    board.halt(0);
    let is_halted = match board.claim(alloc, 0) {
        Claim::Halted => true,
        _ => false,
    };
    Ok(Some((first, running, second, is_halted)))
}

/// How many events give a worker a job.
fn claims(events: &[Event<JobId>]) -> usize {
    events
        .iter()
        .filter(|event| matches!(event, Event::Claim(..)))
        .count()
}

/// How many events finish a job.
fn finishes(events: &[Event<JobId>]) -> usize {
    events
        .iter()
        .filter(|event| matches!(event, Event::Finish(..)))
        .count()
}

/// Whether one worker has claimed and finished the 25 jobs of a triangle, and none is left.
pub fn is_run_whole(board: &Board<FontPlan>) -> bool {
    let events = board.events();
    board.result() == End::Ended
        && board.workers() == 1
        && events.len() == 50
        && claims(events) == 25
        && finishes(events) == 25
}

/// Whether an item is this font.
fn is_font(item: &Item, font: &[u8]) -> bool {
    match item {
        Item::Font(bytes) => bytes.as_slice() == font,
        _ => false,
    }
}

/// Whether a job is refused.
fn is_refused(board: &Board<FontPlan>, id: JobId) -> bool {
    matches!(board.get(&id), Some(Settled::Refused(_)))
}

/// The refusal of a board that has ended, where it has one.
fn refusal_on(alloc: Global, board: &Board<FontPlan>) -> Option<Refusal> {
    match board.result() {
        End::Ended => match verdict(alloc, board) {
            Err(CompileError::Refused(refusal)) => Some(refusal),
            _ => None,
        },
        _ => None,
    }
}

#[test]
fn a_triangle_is_compiled_by_25_jobs(rt: HostRuntime) -> Result<(), Fail> {
    let built = compile_one(rt.alloc(), SOURCE)?;
    assert!(rt; built.font.len() == 728);
    assert!(rt; is_run_whole(&built.board));
    Ok(())
}

#[test]
fn the_verdict_on_a_triangle_is_its_font(rt: HostRuntime) -> Result<(), Fail> {
    let font = hex::decode(rt.alloc(), FONT)?;
    let built = compile_one(rt.alloc(), SOURCE)?;
    let item = verdict(rt.alloc(), &built.board)?;
    assert!(rt; is_font(&item, font.as_slice()));
    Ok(())
}

#[test]
fn of_two_refusals_the_lesser_is_the_verdict(rt: HostRuntime) -> Result<(), Fail> {
    let board = run_alone_by(rt.alloc(), jobs_of(rt.alloc(), TWO_CUBIC_GLYPHS)?, 40)?;
    assert!(rt; is_refused(&board, JobId::Raw(0)) && is_refused(&board, JobId::Raw(1)));
    let refusal = refusal_on(rt.alloc(), &board).ok_or("no refusal")?;
    assert!(rt; is_told(&refusal, (1, 3, "b"), Rule::CubicNode, 266));
    Ok(())
}

#[test]
fn a_worker_waits_while_the_source_is_read(rt: HostRuntime) -> Result<(), Fail> {
    let answers = first_answers(rt.alloc(), jobs_of(rt.alloc(), SOURCE)?)?;
    assert!(rt;
        matches!(
            &answers,
            Some((JobId::Tree, 1, JobId::Header | JobId::Index, true))
        )
    );
    Ok(())
}

/// What can be moved to and shared by threads.
fn cross_threads<T: Send + Sync>(_value: &T) {}

#[test]
fn items_can_be_moved_to_threads_and_shared(rt: HostRuntime) -> Result<(), Fail> {
    cross_threads(&Reads::<JobId, Item>::of(Vec::new(rt.alloc())));
    Ok(())
}

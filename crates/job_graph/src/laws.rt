// The laws of a plan's growth, over every plan and every history. Each is a function that does
// nothing: its contract is
// the law.
ghost use Rattle.std.specs.Prelude.{◌≡◌, ◌<◌, ℕ, List, true};
ghost use Rattle.job_graph.specs.declared.event.End.TheVariants.{Ended};
ghost use Rattle.job_graph.specs.Laws.{IsLawful};
ghost use Rattle.job_graph.specs.Solutions.{IsSolved};
ghost use Rattle.job_graph.specs.Histories.{is_run, end_of, out_at, events_of};
ghost use Rattle.job_graph.specs.Promises.{IsFirstOver, IsLimit, AddsNoneBelow, IsHistory};
ghost use Rattle.job_graph.specs.Promises.{IsComplete};

use crate::event::Event;
use crate::plan::{Plan, Solved};

/// The limit is the first state of the rounds in which no job is ready.
pub fn limit_is_first_over<P: Plan>(plan: &P)
    ensures { IsFirstOver P.Id.eq (P.meaning plan.now) }
{
    let _ = plan;
}

/// Once a job that awaits a stratum is ready, no job of that stratum or a lower one is ever added.
pub fn ready_job_bars_lower_strata<P: Plan>(plan: &P)
    ensures { (workers : ℕ) (events more : List (Event P.Id))
        → AddsNoneBelow P.Id.eq (P.meaning plan.now) workers events more }
{
    let _ = plan;
}

/// In every legal history what is settled is settled as in the limit, written once, and read only
/// when it is settled.
pub fn every_history_keeps<P: Plan>(plan: &P)
    ensures { (workers : ℕ) (events : List (Event P.Id))
        → is_run P.Id.eq (P.meaning plan.now) workers events ≡ true
        → IsHistory P.Id.eq (P.meaning plan.now) workers events }
{
    let _ = plan;
}

/// Every legal history that has ended has come to the limit.
pub fn ended_history_is_complete<P: Plan>(plan: &P)
    ensures { (workers : ℕ) (events : List (Event P.Id))
        → is_run P.Id.eq (P.meaning plan.now) workers events ≡ true
        → end_of P.Id.eq (P.meaning plan.now) workers events ≡ Ended
        → IsComplete P.Id.eq (P.meaning plan.now) events }
{
    let _ = plan;
}

/// Each value of the limit is what comes of a job by what that job reads there. Each of its jobs is
/// an opening one, or one
/// that has a value added it. A job has a value once all that it reads has one and no job is
/// unfinished that it awaits.
pub fn limit_follows_from_values<P: Plan>(plan: &P)
    ensures { IsLimit P.Id.eq (P.meaning plan.now) }
{
    let _ = plan;
}

/// What a worker has out follows from its own events alone.
pub fn own_events_tell_what_is_out<Id: Copy + Ord>(events: &[Event<Id>], workers: u32)
    ensures { (w : ℕ) → w < workers → out_at workers events.now w
        ≡ out_at workers (events_of w events.now) w }
{
    let _ = events;
    let _ = workers;
}

/// A solved plan keeps the laws of plans.
pub fn solved_plan_is_lawful<P: Solved>(plan: &P)
    ensures { IsLawful P.Id.eq (P.meaning plan.now) }
{
    let _ = plan;
}

/// The limit of a solved plan has the jobs that are there, and exactly the founded ones have
/// values, which are those that the
/// solution tells.
pub fn limit_is_the_solution<P: Solved>(plan: &P)
    ensures { IsSolved P.Id.eq (P.meaning plan.now) (P.spec_of plan.now) (P.is_there plan.now)
        (P.value_of plan.now) }
{
    let _ = plan;
}

//! A board of jobs that grows while it runs: a pure machine of claims, finishes and halts.
#![tactic(auto)]

mod agenda;
mod board;
mod claim;
mod event;
mod laws;
mod lines;
mod lists;
mod numbers;
mod plan;
mod queues;
mod scan;
mod strata;
mod turns;
mod values;

pub use board::Board;
pub use claim::{Claim, Ticket, Unfinished, run_claimed};
pub use event::{End, Event};
pub use laws::{
    ended_history_is_complete, every_history_keeps, limit_follows_from_values, limit_is_first_over,
    limit_is_the_solution, own_events_tell_what_is_out, ready_job_bars_lower_strata,
    solved_plan_is_lawful,
};
pub use plan::{Plan, Solved};

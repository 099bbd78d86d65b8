ghost use Rattle.std.specs.Prelude.{◌≡◌, ℕ, ◌<◌, ◌≤◌, ◌^◌, false, true, [], ◌∷◌, All, length, IfOk};
ghost use Rattle.std.specs.Prelude.{IfErr, Some};
ghost use Rattle.turnstile.specs.Members.{everyone};
ghost use Rattle.turnstile.specs.Entries.{BeginsWith, AddsAtMostOne, entries_of};
ghost use Rattle.turnstile.specs.Passes.{new_passes, entered, has_left, IsHistoryOf};

use crate::counted::Counted;
use crate::knowledge::{PassSeat, TurnTable};
use crate::pass::Pass;
use crate::rule::Beginning;
use crate::seats::{deal, gather};
use crate::steps::{give_back, take_turn};
use crate::turn::Turn;
use atomic_table::Table;
use refusal_codes::NoMemory;
use std::alloc::Global;
use std::marker::Model;
use std::snapshot::Snapshot;
use std::sync::Wait;

/// One value, and passes that take turns with it. A contract sees which turnstile it is, and how
/// many passes it has.
#[derive(Drop)]
pub struct Turnstile<B: Counted> {
    table: TurnTable<B>,
    passes: u32,
}

impl<B: Counted> Model for Turnstile<B> {
    ghost use Rattle.std.specs.Prelude.{◌≡◌, ◌<◌};
    ghost use Rattle.turnstile.specs.Passes.{TurnstileView};

    ghost Value = { TurnstileView };

    ghost view = { λ t. record { table = t.table.shared.table_id; passes = t.passes } };

    ghost invariant = { λ t. (t.table.shared.table_id.words ≡ 3)
        × (t.table.shared.table_id.slots ≡ 1) × (t.table.shared.key.passes ≡ t.passes)
        × (0 < t.passes) };
}

impl<B: Counted + Drop> Turnstile<B> {
    /// A turnstile around a value whose list is empty, and its passes, numbered from 0 in their
    /// order.
    pub fn new(
        alloc: Global,
        value: B,
        passes: u32,
    ) -> Result<(Turnstile<B>, Vec<Pass<B>>), NoMemory>
        requires empty { B.entries value ≡ [] }
        requires some { 0 < passes }
        ensures passes { IfOk result (λ r. r.0.passes ≡ passes) }
        ensures each { IfOk result (λ r. r.1.items ≡ new_passes r.0.table (B.root value) 0 passes) }
    {
        let mut all = Vec::with_capacity(alloc, passes as usize)?;
        let about = Beginning {
            value: Snapshot::of(&value),
            passes,
        };
        let mut slots = Vec::with_capacity(alloc, 1)?;
        slots.push_reserved(Some(value));
        let (table, seat) = open_table(alloc, slots, &about)?;
        deal(&table.shared, seat, &about, &mut all);
        Ok((Turnstile { table, passes }, all))
    }
}

/// Opens the table on the one slot with the value.
fn open_table<B: Counted + Drop>(
    alloc: Global,
    slots: Vec<Option<B>>,
    about: &Beginning<B>,
) -> Result<(TurnTable<B>, PassSeat<B>), NoMemory>
    requires slots { slots.items ≡ Some about.now.value.value ∷ [] }
    requires empty { B.entries about.now.value.value ≡ [] }
    requires few { about.now.passes < 2 ^ 32 }
    ensures sizes { IfOk result (λ t. (t.0.shared.table_id.words ≡ 3)
        × (t.0.shared.table_id.slots ≡ 1) × (t.0.shared.key ≡ about.now)) }
    ensures seat { IfOk result (λ t. (t.1.table_id ≡ t.0.shared.table_id)
        × (t.1.me ≡ (everyone (B.root about.now.value.value) about.now.passes, []))) }
{
    match Table::new(alloc, &[0, 0, 0], slots, about) {
        Ok(opened) => Ok(opened),
        Err(_) => Err(NoMemory),
    }
}

impl<B: Counted> Turnstile<B> {
    /// Ends the turnstile: takes all its passes, none of which may have a turn out, and gives the
    /// value back. This body takes no memory. The other answer, which is free for want of memory,
    /// would hand back what was handed in.
    pub fn close(
        self,
        _alloc: Global,
        passes: Vec<Pass<B>>,
    ) -> Result<B, (Turnstile<B>, Vec<Pass<B>>)>
        requires of_this { All (λ p. (p.table ≡ self.table) × (p.is_out ≡ false)) passes.items }
        requires all { length passes.items ≡ self.passes }
        ensures history { IfOk result (λ b. All (λ p. IsHistoryOf (B.entries b) (B.root b) p)
            passes.items) }
        ensures nobody_else { IfOk result (λ b. (k : ℕ) → self.passes ≤ k
            → entries_of k (B.entries b) ≡ []) }
        ensures back { IfErr result (λ e. (e.0 ≡ self) × (e.1.items ≡ passes.items)) }
    {
        let Turnstile { table, passes: _ } = self;
        let seat = gather(&table.shared, passes);
        let mut closed = table.close_with(seat);
        let value = closed.take(0);
        closed.free();
        Ok(value.unwrap())
    }

    /// Waits for the pass's turn, and lends the value. The list has all that the pass has seen, and
    /// of its number just the entries that it made. It takes no memory.
    pub fn enter<R: Wait>(&self, rt: &R, pass: &mut Pass<B>) -> Turn<B>
        requires pass { pass.old.table ≡ self.now.table }
        requires free { pass.old.is_out ≡ false }
        ensures seen { pass.new ≡ entered (B.entries result.value) pass.old }
        ensures begins { BeginsWith (B.entries result.value) pass.old.seen }
        ensures mine { entries_of pass.old.worker (B.entries result.value) ≡ pass.old.mine }
        ensures root { B.root result.value ≡ pass.old.root }
    {
        let (ticket, value) = take_turn(rt, &self.table.shared, &mut pass.seat);
        pass.ticket = ticket;
        Turn { value }
    }

    /// Ends the pass's turn, and takes the value back. The value may have one entry more, of the
    /// pass's number. It takes no memory.
    pub fn leave(&self, pass: &mut Pass<B>, turn: Turn<B>)
        requires pass { pass.old.table ≡ self.now.table }
        requires out { pass.old.is_out ≡ true }
        requires list { AddsAtMostOne pass.old.worker pass.old.seen (B.entries turn.value) }
        requires root { B.root turn.value ≡ pass.old.root }
        ensures { pass.new ≡ has_left (B.entries turn.value) pass.old }
    {
        let Turn { value } = turn;
        let ticket = pass.ticket;
        give_back(&self.table.shared, &mut pass.seat, ticket, value);
    }
}

//! A turn, step by step.
ghost use Rattle.std.specs.Prelude.{◌≡◌, ℕ, ◌+◌, ◌%◌, ◌^◌, ◌<◌, List, [], ◌∷◌, ◌++◌, Some, None};
ghost use Rattle.std.specs.Prelude.{drop, length};
ghost use Rattle.turnstile.specs.declared.knowledge.Stage.TheVariants.{Away, Waiting, Served};
ghost use Rattle.turnstile.specs.declared.knowledge.Stage.TheVariants.{Noted};
ghost use Rattle.turnstile.specs.declared.knowledge.Member.{Member};
ghost use Rattle.turnstile.specs.Entries.{AddsAtMostOne};
ghost use Rattle.turnstile.specs.Steps.{seat_of, after_adding, after_leaving, Takes, HasTurn};
ghost use Rattle.turnstile.specs.Steps.{MayLeave};

use crate::counted::Counted;
use crate::knowledge::{Common, PassSeat};
use crate::plays::{Draw, Give, Leaving, Look, Note};
use std::hint::spin_loop;
use std::marker::Brand;
use std::sync::Wait;

/// The word with the number of entries.
const LENGTH: usize = 0;

/// The word with the next ticket.
const NEXT: usize = 1;

/// The word with the ticket that is served.
const SERVED: usize = 2;

/// The slot with the value.
const VALUE: usize = 0;

/// After so many looks a pass sleeps between two looks.
const LOOKS: u32 = 1000;

/// Draws a ticket.
fn draw<B: Counted>(common: &Common<B>, seat: &mut PassSeat<B>) -> u64
    requires table { (seat.old.table_id ≡ common.now.table_id) × (common.now.table_id.words ≡ 3) }
    requires away { (m : Member B.Entry B.Root) × (seat.old.me ≡ (seat_of Away m, [])) }
    ensures table { seat.new.table_id ≡ seat.old.table_id }
    ensures drawn { (m : Member B.Entry B.Root) → seat.old.me ≡ (seat_of Away m, [])
        → (at : ℕ) × (result ≡ at % 2 ^ 64) × (seat.new.me ≡ (seat_of (Waiting at) m, [])) }
{
    common.fetch_add::<Draw>(seat, NEXT, 1)
}

/// Waits until the ticket is served, and takes the slot.
fn wait_for<B: Counted, R: Wait>(rt: &R, common: &Common<B>, seat: &mut PassSeat<B>, ticket: u64)
    requires table { (seat.old.table_id ≡ common.now.table_id) × (common.now.table_id.words ≡ 3) }
    requires waiting { (at : ℕ) × (m : Member B.Entry B.Root) × (ticket ≡ at % 2 ^ 64)
        × (seat.old.me ≡ (seat_of (Waiting at) m, [])) }
    ensures table { seat.new.table_id ≡ seat.old.table_id }
    ensures taken { (at : ℕ) (m : Member B.Entry B.Root) → ticket ≡ at % 2 ^ 64
        → seat.old.me ≡ (seat_of (Waiting at) m, []) → Takes B.entries B.root at m seat.new.me }
{
    let mut looks = 1;
    for _ in rt.forever() {
        let served = common.load::<Look>(seat, SERVED);
        if served == ticket {
            return;
        }
        if looks < LOOKS {
            looks += 1;
            spin_loop();
        } else {
            common.park(rt, SERVED, (served & u32::MAX as u64) as u32);
        }
    }
    unreachable!()
}

/// Draws a ticket, waits until it is served, and takes the value.
pub(crate) fn take_turn<B: Counted, R: Wait>(
    rt: &R,
    common: &Common<B>,
    seat: &mut PassSeat<B>,
) -> (u64, B)
    requires table { (seat.old.table_id ≡ common.now.table_id) × (common.now.table_id.words ≡ 3) }
    requires away { (m : Member B.Entry B.Root) × (seat.old.me ≡ (seat_of Away m, [])) }
    ensures table { seat.new.table_id ≡ seat.old.table_id }
    ensures turn { (m : Member B.Entry B.Root) → seat.old.me ≡ (seat_of Away m, [])
        → HasTurn B.entries B.root m result.0 result.1 seat.new.me }
{
    let ticket = draw(common, seat);
    wait_for(rt, common, seat, ticket);
    let value = common.exchange(seat, VALUE, None).unwrap();
    (ticket, value)
}

/// Stores how many entries the value has.
fn note<B: Counted, J: Leaving<B::Entry>>(common: &Common<B>, seat: &mut PassSeat<B>, value: &B)
    requires table { (seat.old.table_id ≡ common.now.table_id) × (common.now.table_id.words ≡ 3) }
    requires list { J.list ≡ B.entries value.now }
    requires served { (at : ℕ) × (m : Member B.Entry B.Root)
        × (seat.old.me.0 ≡ seat_of (Served at) m) × (J.list ≡ m.seen ++ J.added)
        × AddsAtMostOne m.worker [] J.added }
    ensures table { seat.new.table_id ≡ seat.old.table_id }
    ensures noted { (at : ℕ) (m : Member B.Entry B.Root) → seat.old.me.0 ≡ seat_of (Served at) m
        → (seat.new.me.0 ≡ seat_of (Noted at) (after_adding J.list J.added m))
        × (seat.new.me.1 ≡ seat.old.me.1) }
{
    let count = value.count();
    common.store::<Note<J>>(seat, LENGTH, count);
}

/// Stores how many entries the value has, puts it back, and gives the slot and the ticket back.
pub(crate) fn give_back<B: Counted>(
    common: &Common<B>,
    seat: &mut PassSeat<B>,
    ticket: u64,
    value: B,
)
    requires table { (seat.old.table_id ≡ common.now.table_id) × (common.now.table_id.words ≡ 3) }
    requires served { (m : Member B.Entry B.Root)
        × MayLeave B.entries B.root m ticket value seat.old.me }
    ensures table { seat.new.table_id ≡ seat.old.table_id }
    ensures left { (m : Member B.Entry B.Root)
        → MayLeave B.entries B.root m ticket value seat.old.me
        → seat.new.me ≡ (seat_of Away (after_leaving (B.entries value) m), []) }
{
    note::<B, Brand>(common, seat, &value);
    let empty = common.exchange(seat, VALUE, Some(value));
    let None = empty else { unreachable!() };
    let next = ticket.wrapping_add(1);
    common.store::<Give>(seat, SERVED, next);
    if common.peek(NEXT) != next {
        common.wake_all(SERVED);
    }
}

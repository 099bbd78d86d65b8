ghost use Rattle.std.specs.Prelude.{◌≡◌, false, []};
ghost use Rattle.turnstile.specs.declared.knowledge.Stage.TheVariants.{Away};
ghost use Rattle.turnstile.specs.Members.{newcomer};
ghost use Rattle.turnstile.specs.Steps.{seat_of};
ghost use Rattle.turnstile.specs.Passes.{new_pass, member_of};

use crate::counted::Counted;
use crate::knowledge::PassSeat;
use crate::rule::Beginning;
use std::marker::Model;
use std::snapshot::Snapshot;

/// The right to take turns at one turnstile. A contract sees which turnstile it is, the pass's
/// number, what the pass has seen of the list of entries, which of them it made, the value's root,
/// and whether it has a turn out.
#[derive(Drop)]
pub struct Pass<B: Counted> {
    worker: u32,
    pub(crate) ticket: u64,
    pub(crate) seat: PassSeat<B>,
    origin: Snapshot<Beginning<B>>,
}

impl<B: Counted> Model for Pass<B> {
    ghost use Rattle.turnstile.specs.Members.{seen_of, mine_of};
    ghost use Rattle.turnstile.specs.Passes.{PassView, IsPass, has_ticket};

    ghost Value = { PassView B.Entry B.Root };

    ghost view = { λ p. record {
      table = p.seat.table_id;
      worker = p.worker;
      seen
          = seen_of p.seat.me.0.members;
      mine = mine_of p.seat.me.0.members;
      root
          = B.root p.origin.value.value.value;
      is_out = has_ticket p.seat.me.0.stage;
    } };

    ghost invariant = { λ p. IsPass p.worker p.ticket (B.root p.origin.value.value.value)
        p.seat.me };
}

impl<B: Counted> Pass<B> {
    /// The pass of a seat that was just cut off.
    pub(crate) fn of(worker: u32, seat: PassSeat<B>, about: &Beginning<B>) -> Pass<B>
        requires { seat.me ≡ (seat_of Away (newcomer (B.root about.now.value.value) worker), []) }
        ensures { result ≡ new_pass seat.table_id (B.root about.now.value.value) worker }
    {
        Pass {
            worker,
            ticket: 0,
            seat,
            origin: Snapshot::of(about),
        }
    }

    /// The seat of a pass that has no turn out.
    pub(crate) fn into_seat(self) -> PassSeat<B>
        requires { self.is_out ≡ false }
        ensures { (result.table_id ≡ self.table)
            × (result.me ≡ (seat_of Away (member_of self), [])) }
    {
        let Pass {
            worker: _,
            ticket: _,
            seat,
            origin: _,
        } = self;
        seat
    }

    /// The pass's number. The passes of a turnstile are numbered from 0, in their order. It takes
    /// no memory.
    pub fn worker(&self) -> u32
        ensures { result ≡ self.now.worker }
    {
        self.worker
    }
}

//! How the seats of the passes are given out and taken in.
ghost use Rattle.std.specs.Prelude.{◌≡◌, ℕ, ◌<◌, ◌≤◌, false, [], All, map, vec_len, vec_capacity};
ghost use Rattle.turnstile.specs.declared.knowledge.Stage.TheVariants.{Away};
ghost use Rattle.turnstile.specs.Members.{everyone};
ghost use Rattle.turnstile.specs.Passes.{new_passes, member_of};

use crate::counted::Counted;
use crate::knowledge::{Common, PassSeat};
use crate::pass::Pass;
use crate::plays::{Cut, Gather};
use crate::rule::Beginning;

/// Makes the passes, in the order of their numbers, from the first seat. There is room for them.
pub(crate) fn deal<B: Counted>(
    common: &Common<B>,
    mut seat: PassSeat<B>,
    about: &Beginning<B>,
    all: &mut Vec<Pass<B>>,
)
    requires table { (seat.table_id ≡ common.now.table_id) × (common.now.table_id.words ≡ 3) }
    requires first { seat.me ≡ (everyone (B.root about.now.value.value) about.now.passes, []) }
    requires room { (all.old.items ≡ []) × (vec_len all.old ≡ 0)
        × (about.now.passes ≤ vec_capacity all.old) }
    ensures { all.new.items ≡ new_passes common.now.table_id (B.root about.now.value.value) 0
        about.now.passes }
{
    for worker in 0..about.passes {
        let one = common.split_seat::<Cut>(&mut seat);
        all.push_reserved(Pass::of(worker, one, about));
    }
}

/// Takes in the seats of all passes.
pub(crate) fn gather<B: Counted>(common: &Common<B>, mut passes: Vec<Pass<B>>) -> PassSeat<B>
    requires table { common.now.table_id.words ≡ 3 }
    requires some { 0 < vec_len passes }
    requires each { All (λ p. (p.table ≡ common.now.table_id) × (p.is_out ≡ false)) passes.items }
    ensures table { result.table_id ≡ common.now.table_id }
    ensures everyone { result.me ≡ (
      record { stage = Away; members = map member_of passes.items },
      [],
    ) }
{
    let Some(last) = passes.pop() else {
        unreachable!()
    };
    let mut seat = last.into_seat();
    while let Some(pass) = passes.pop() {
        common.join_seat::<Gather>(&mut seat, pass.into_seat());
    }
    passes.destroy_empty();
    seat
}

//! What each kind of step tells the seat that takes it.
ghost use Rattle.turnstile.specs.Steps.{drawn, looked, noted, gave};
ghost use Rattle.turnstile.specs.Members.{pass_of, without_pass, joined, spent};
ghost use Rattle.std.specs.Prelude.{ℕ, List, []};

use crate::counted::Counted;
use crate::knowledge::{Knowledge, Known};
use atomic_table::{Join, Play, Split};
use std::marker::{Brand, PhantomData};

/// A ticket is drawn.
pub(crate) struct Draw;

impl<B: Counted> Play<Option<B>, Known<B>> for Draw {
    ghost then = { drawn };
}

/// A look at the ticket that is served.
pub(crate) struct Look;

impl<B: Counted> Play<Option<B>, Known<B>> for Look {
    ghost then = { looked B.entries B.root };
}

/// Which list of entries a pass leaves, and which of them it added. A call picks both.
pub(crate) trait Leaving<E> {
    ghost list: { List (ℕ × E) };

    ghost added: { List (ℕ × E) };
}

impl<E> Leaving<E> for Brand {
    ghost list = { [] };

    ghost added = { [] };
}

/// The number of entries is stored.
pub(crate) struct Note<J> {
    of: PhantomData<J>,
}

impl<B: Counted, J: Leaving<B::Entry>> Play<Option<B>, Known<B>> for Note<J> {
    ghost then = { noted J.list J.added };
}

/// The slot and the ticket are given back.
pub(crate) struct Give;

impl<B: Counted> Play<Option<B>, Known<B>> for Give {
    ghost then = { gave };
}

/// A pass is cut off.
pub(crate) struct Cut;

impl<E, T> Split<Knowledge<E, T>> for Cut {
    ghost left = { without_pass };

    ghost right = { pass_of };
}

/// A pass is taken in.
pub(crate) struct Gather;

impl<E, T> Join<Knowledge<E, T>> for Gather {
    ghost both = { joined };

    ghost spent = { spent };
}

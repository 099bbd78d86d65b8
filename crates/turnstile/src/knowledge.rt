//! What the seats at the table know. No value of these types is made: they are read by proofs
//! alone.
use crate::counted::Counted;
use crate::rule::{Beginning, Turns};
use atomic_table::{Seat, Shared, Table};
use std::alloc::Global;
use std::collections::LinkedList;

/// How far a seat is in its turn. A ticket is counted from 0, without an end.
pub enum Stage {
    /// It has no ticket.
    Away,
    /// It has drawn a ticket.
    Waiting(u64),
    /// Its ticket is served, and it has the slot.
    Served(u64),
    /// The same, and it has stored how many entries there are.
    Noted(u64),
}

/// What one worker knows.
pub struct Member<E, T> {
    pub worker: u32,
    /// The history, as far as it has seen it.
    pub seen: LinkedList<(u32, E)>,
    /// The entries that it made.
    pub mine: LinkedList<(u32, E)>,
    pub root: T,
}

/// What a seat knows. The seat of a pass has one member, and one that was joined into another has
/// none.
pub struct Knowledge<E, T> {
    pub stage: Stage,
    pub members: LinkedList<Member<E, T>>,
}

pub(crate) type Known<B> = Knowledge<<B as Counted>::Entry, <B as Counted>::Root>;

pub(crate) type PassSeat<B> = Seat<Option<B>, Known<B>>;

pub(crate) type Common<B> = Shared<Option<B>, Known<B>, Beginning<B>, Turns<B>>;

pub(crate) type TurnTable<B> = Table<Option<B>, Known<B>, Beginning<B>, Turns<B>, Global>;

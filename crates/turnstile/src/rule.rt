//! The rule of the table.
use crate::counted::Counted;
use crate::knowledge::Known;
use atomic_table::TableRule;
use std::marker::PhantomData;
use std::snapshot::Snapshot;

/// What the table is told once: the value that was given to `new`, and how many passes there are.
#[derive(Drop)]
pub struct Beginning<B> {
    pub value: Snapshot<B>,
    pub passes: u32,
}

pub struct Turns<B> {
    of: PhantomData<B>,
}

impl<B: Counted> TableRule<Option<B>, Known<B>, Beginning<B>> for Turns<B> {
    ghost use Rattle.turnstile.specs.Rule.{Kept};
    ghost use Rattle.turnstile.specs.Members.{everyone};

    ghost holds = { λ key. Kept B.entries B.root key.passes (B.root key.value.value) };

    ghost first = { λ key. everyone (B.root key.value.value) key.passes };
}

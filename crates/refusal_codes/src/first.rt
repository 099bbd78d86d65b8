ghost use Rattle.std.specs.Prelude.{◌≡◌, List, [], Option, Some, None};
ghost use Rattle.refusal_codes.specs.First.{first_of, IsFirst};
ghost use Rattle.refusal_codes.specs.declared.errors.ReadError.TheVariants as read_errors;

use crate::errors::ReadError;
use crate::job::Job;
use crate::refusal::Refusal;
use crate::rule::Rule;
use plain_lists::Text;
use std::marker::Model;

/// A rule that fails, and where.
#[derive(Clone, Copy, Debug, PartialEq, Eq)]
pub struct Failure {
    /// The rule.
    pub rule: Rule,
    /// The place at which it fails.
    pub place: u64,
}

impl Failure {
    ghost use Rattle.refusal_codes.specs.First.{is_before, refusal_of};

    /// Whether this failure comes before another one: by place, then by rule.
    pub fn is_before(&self, other: &Failure) -> bool
        ensures { result ≡ is_before self.now other.now }
    {
        self.place < other.place
            || (self.place == other.place && self.rule.number() < other.rule.number())
    }

    /// The refusal of a job of this kind, with this name, that finds this failure.
    pub fn refusal(self, job: Job, name: Text) -> Refusal
        ensures { result ≡ refusal_of job name self }
    {
        Refusal {
            stratum: job.stratum,
            kind: job.kind,
            name,
            rule: self.rule,
            place: self.place,
        }
    }

    /// The error of a reading job of this kind, with this name, that finds this failure.
    pub fn refused(self, job: Job, name: Text) -> ReadError
        ensures { result ≡ read_errors.Refused (refusal_of job name self) }
    {
        ReadError::Refused(self.refusal(job, name))
    }
}

/// The least failure so far. A contract sees it as that failure, where there is one.
#[derive(Debug, Drop)]
pub struct FirstFailure {
    least: Option<Failure>,
}

impl Model for FirstFailure {
    ghost use Rattle.std.specs.Prelude.{Option};
    ghost use Rattle.refusal_codes.specs.declared.first.Failure.{Failure};

    ghost Value = { Option Failure };

    ghost view = { λ f. f.least };
}

impl FirstFailure {
    ghost use Rattle.std.specs.Prelude.{◌∷◌};
    ghost use Rattle.refusal_codes.specs.First.{noted};

    /// No failure yet.
    pub fn new() -> Self
        ensures { result ≡ None }
    {
        FirstFailure { least: None }
    }

    /// Keeps this failure where it comes before the least one so far.
    pub fn note(&mut self, rule: Rule, place: u64)
        ensures { self.new ≡ noted self.old (record { rule = rule; place = place } ∷ []) }
    {
        let failure = Failure { rule, place };
        match self.least {
            None => self.least = Some(failure),
            Some(least) => {
                if failure.is_before(&least) {
                    self.least = Some(failure);
                }
            }
        }
    }

    /// The least failure, where there is one.
    pub fn get(&self) -> Option<Failure>
        ensures { result ≡ self.now }
    {
        self.least
    }
}

/// The first of a list of failures is the least of them, and there is one unless the list is empty.
/// A law: the function does nothing.
pub fn first_failure_is_the_least()
    ensures least { (fs : List Failure) (f : Failure) → first_of fs ≡ Some f → IsFirst fs f }
    ensures none { (fs : List Failure) → first_of fs ≡ None → fs ≡ [] }
{}

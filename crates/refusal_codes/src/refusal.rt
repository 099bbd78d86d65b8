ghost use Rattle.std.specs.Prelude.{◌≡◌, ◌++◌, IfOk, OnOk};
ghost use Rattle.std.specs.Cmp.{IsTotalOrder};
ghost use Rattle.std.specs.String.{string_bytes};
ghost use Rattle.std.specs.declared.cmp.Ordering.TheVariants.{Equal};
ghost use Rattle.refusal_codes.specs.declared.refusal.Refusal.{Refusal};
ghost use Rattle.refusal_codes.specs.Order.{refusal_cmp};
ghost use Rattle.refusal_codes.specs.Texts.{refusal_text, spaced_name};

use crate::errors::NoMemory;
use crate::kind::kind_name_of;
use crate::rule::Rule;
use plain_lists::Text;
use std::alloc::{AllocError, Global};
use std::cmp::Ordering;

/// Why a source is refused: the rule that fails, and where.
///
/// Refusals are ordered by stratum, kind, name (by bytes), rule and place.
#[derive(Debug, PartialEq, Eq, Drop)]
pub struct Refusal {
    /// The stratum of the job that found it.
    pub stratum: u8,
    /// The number of that job's kind.
    pub kind: u8,
    /// The glyph's name or the table's tag, where the job has one; else empty.
    pub name: Text,
    /// The rule that fails.
    pub rule: Rule,
    /// The byte of the source at which it fails, or the number that is too large.
    pub place: u64,
}

impl Refusal {
    /// Which of two refusals comes first. It takes no memory.
    pub fn cmp(&self, other: &Refusal) -> Ordering
        ensures { result ≡ refusal_cmp self.now other.now }
    {
        self.stratum
            .cmp(&other.stratum)
            .then(self.kind.cmp(&other.kind))
            .then(self.name.cmp(&other.name))
            .then(self.rule.number().cmp(&other.rule.number()))
            .then(self.place.cmp(&other.place))
    }

    /// The same refusal.
    pub fn copy(&self, alloc: Global) -> Result<Refusal, NoMemory>
        ensures { IfOk result (λ r. r ≡ self.now) }
    {
        Ok(Refusal {
            stratum: self.stratum,
            kind: self.kind,
            name: self.name.copy(alloc)?,
            rule: self.rule,
            place: self.place,
        })
    }

    /// What the console shows: the rule's code and name, the kind of the job, the name where there
    /// is one, and the place.
    pub fn text(&self, alloc: Global) -> Result<String, NoMemory>
        ensures { IfOk result (λ text. string_bytes text ≡ refusal_text self.now) }
    {
        let mut text = String::from_str(alloc, self.rule.code())?;
        text.push_str(" ")?;
        text.push_str(self.rule.name())?;
        text.push_str(" ")?;
        text.push_str(kind_name_of(self.kind))?;
        push_name(&mut text, &self.name)?;
        text.push_str(" at ")?;
        let place = self.place.to_string(alloc)?;
        text.push_str(place.as_str())?;
        Ok(text)
    }
}

/// Adds the name behind a space, where there is one.
fn push_name(text: &mut String, name: &Text) -> Result<(), AllocError>
    ensures { OnOk result (string_bytes text.new ≡ string_bytes text.old ++ spaced_name name.now) }
{
    if name.is_empty() {
        return Ok(());
    }
    text.push_str(" ")?;
    text.push_str(name.as_str())
}

/// The order of refusals is total, and two refusals that are equal in it are one. A law: the
/// function does nothing.
pub fn refusals_are_ordered()
    ensures total { IsTotalOrder refusal_cmp }
    ensures exact { (a b : Refusal) → refusal_cmp a b ≡ Equal → a ≡ b }
{}

ghost use Rattle.std.specs.Prelude.{◌≡◌, ◌<◌, ◌+◌, ◌++◌, [], ◌∷◌, length, map, take, true, Some};
ghost use Rattle.std.specs.Prelude.{None};
ghost use Rattle.std.specs.Prelude.{IfOk, OnOk, IfSome, slice_get, slice_index_or, option_copied};
ghost use Rattle.std.specs.Prelude.{IsTrue};
ghost use Rattle.std.specs.List.{All, list_all};
ghost use Rattle.font_ir.specs.FlatGlyphs.{IsFlatGlyph, glyphs_of};
ghost use Rattle.refusal_codes.specs.declared.rule.Rule.TheVariants.{DeltaTooLarge};
ghost use Rattle.component_flatten.specs.Judging.{Judges, between_of, has_no_large_deltas};

use crate::between::{Between, base_at, between_of};
use crate::limits::LimitError;
use font_ir::{FlatGlyph, Location};
use indexmap::IndexMap;
use plain_lists::Sequence;
use refusal_codes::NoMemory;
use std::alloc::Global;
use std::marker::Model;
use std::sync::Arc;

/// For the base of each component of a glyph, what gives it between its places, if it lacks one of
/// the glyph's. It is made once for a base, however many components have that.
#[derive(Debug, Drop)]
pub struct Betweens {
    made: Sequence<Between>,
    /// For each component, the number of what is made of its base.
    used: Sequence<Option<usize>>,
}

impl Model for Betweens {
    ghost use Rattle.std.specs.Prelude.{List, Option, ◌<◌, length, map, slice_get, IfSome};
    ghost use Rattle.std.specs.List.{All};
    ghost use Rattle.std.specs.Option.{option_and_then};
    ghost use Rattle.component_flatten.specs.declared.between.Between.{Between};

    ghost Value = { List (Option Between) };

    ghost view = { λ b. map (λ n. option_and_then (slice_get b.made) n) b.used };

    ghost invariant = { λ b. All (λ n. IfSome n (λ k. k < length b.made)) b.used };
}

impl Betweens {
    /// Those of these bases. The error is that a delta is outside an `i16`.
    pub fn of(
        alloc: Global,
        places: &[Location],
        bases: &[Arc<FlatGlyph>],
    ) -> Result<Betweens, LimitError>
        requires { All IsFlatGlyph (glyphs_of bases.now) }
        ensures value { IfOk result (λ made. made
            ≡ map (between_of places.now) (glyphs_of bases.now)) }
        ensures limit { Judges DeltaTooLarge
            (list_all (has_no_large_deltas places.now) (glyphs_of bases.now)) result }
    {
        let mut seen = IndexMap::new(alloc);
        let mut betweens = Betweens::with_capacity(alloc, bases.len())?;
        for component in 0..bases.len() {
            push_next(alloc, places, bases, component, &mut seen, &mut betweens)?;
        }
        Ok(betweens)
    }

    /// None yet, with room for so many components.
    fn with_capacity(alloc: Global, components: usize) -> Result<Betweens, NoMemory>
        ensures { IfOk result (λ betweens. betweens ≡ []) }
    {
        let used = Vec::with_capacity(alloc, components)?;
        Ok(Betweens {
            made: Sequence::new(alloc),
            used: Sequence::from_vec(used),
        })
    }

    /// What is made of the next component's base.
    fn push(&mut self, made: Option<Between>) -> Result<(), NoMemory>
        ensures { OnOk result (self.new ≡ self.old ++ made ∷ []) }
    {
        match made {
            Some(between) => self.push_made(between),
            None => self.push_none(),
        }
    }

    fn push_made(&mut self, between: Between) -> Result<(), NoMemory>
        ensures { OnOk result (self.new ≡ self.old ++ Some between ∷ []) }
    {
        let n = self.made.len();
        self.made.push(between)?;
        self.used.push(Some(n))?;
        Ok(())
    }

    fn push_none(&mut self) -> Result<(), NoMemory>
        ensures { OnOk result (self.new ≡ self.old ++ None ∷ []) }
    {
        self.used.push(None)?;
        Ok(())
    }

    /// The next component has what this earlier one has.
    fn push_again(&mut self, component: usize) -> Result<(), NoMemory>
        requires { component < length self.old }
        ensures { OnOk result (self.new
            ≡ self.old ++ slice_index_or self.old component None ∷ []) }
    {
        let n = self.used.as_slice()[component];
        self.used.push(n)?;
        Ok(())
    }

    /// What is made of a component's base.
    pub fn get(&self, component: usize) -> Option<&Between>
        requires { component < length self.now }
        ensures { option_copied result ≡ slice_index_or self.now component None }
    {
        match self.used.as_slice()[component] {
            Some(n) => self.made.as_slice().get(n),
            None => None,
        }
    }
}

/// What is made of the base of one more component. `seen` has, for the number of a glyph, a
/// component for whose base something is made.
fn push_next(
    alloc: Global,
    places: &[Location],
    bases: &[Arc<FlatGlyph>],
    component: usize,
    seen: &mut IndexMap<u32, usize>,
    betweens: &mut Betweens,
) -> Result<(), LimitError>
    requires flat { All IsFlatGlyph (glyphs_of bases.now) }
    requires within { component < length bases.now }
    requires so_far { betweens.old
        ≡ map (between_of places.now) (take component (glyphs_of bases.now)) }
    requires storable { list_all (has_no_large_deltas places.now)
        (take component (glyphs_of bases.now)) ≡ true }
    ensures so_far { OnOk result (betweens.new
        ≡ map (between_of places.now) (take (component + 1) (glyphs_of bases.now))) }
    ensures limit { Judges DeltaTooLarge (list_all (has_no_large_deltas places.now)
        (take (component + 1) (glyphs_of bases.now))) result }
{
    if let Some(same) = earlier(seen, bases, component) {
        betweens.push_again(same)?;
        return Ok(());
    }
    let base = base_at(bases, component);
    let made = between_of(alloc, places, base)?;
    if made.is_some() {
        seen.insert(base.number, component)?;
    }
    betweens.push(made)?;
    Ok(())
}

/// An earlier component whose base draws the same, if this one has been seen.
fn earlier(seen: &IndexMap<u32, usize>, bases: &[Arc<FlatGlyph>], component: usize) -> Option<usize>
    requires { component < length bases.now }
    ensures earlier { IfSome result (λ same. same < component) }
    ensures places { IfSome result (λ same.
        slice_get (map (λ base. base.places) (glyphs_of bases.now)) same
        ≡ slice_get (map (λ base. base.places) (glyphs_of bases.now)) component) }
    ensures drawn { IfSome result (λ same.
        slice_get (map (λ base. base.drawn) (glyphs_of bases.now)) same
        ≡ slice_get (map (λ base. base.drawn) (glyphs_of bases.now)) component) }
{
    let base = base_at(bases, component);
    let same = *seen.get(&base.number)?;
    if same < component && draw_alike(base_at(bases, same), base) {
        Some(same)
    } else {
        None
    }
}

/// Whether two glyphs have the same contours at the same places.
fn draw_alike(a: &FlatGlyph, b: &FlatGlyph) -> bool
    ensures places { IsTrue result → a.now.places ≡ b.now.places }
    ensures drawn { IsTrue result → a.now.drawn ≡ b.now.drawn }
{
    a.places == b.places && a.drawn == b.drawn
}

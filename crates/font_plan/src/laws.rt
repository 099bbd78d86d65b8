//! What becomes of a source: by its parts, and by the rules that they fail.

ghost use Rattle.std.specs.Prelude.{◌≡◌, ℕ, ◌<◌, ◌≤◌, List, length, Ok, Err};
ghost use Rattle.refusal_codes.specs.declared.limits.TheConstants.{SOURCE_BYTES};
ghost use Rattle.refusal_codes.specs.declared.refusal.Refusal.{Refusal};
ghost use Rattle.plist_reader.specs.Refusals.{IsRefusal};
ghost use Rattle.font_graph.specs.Fails.{Fails};
ghost use Rattle.font_graph.specs.declared.ids.JobId.{JobId};
ghost use Rattle.font_plan.specs.Accepted.{IsFontOf, IsRefusedBy};
ghost use Rattle.font_plan.specs.Direct.{direct_font};
ghost use Rattle.font_plan.specs.Failing.{FailsBy};
ghost use Rattle.font_plan.specs.Font.{font_of};
ghost use Rattle.font_plan.specs.FontFile.{source_too_large};
ghost use Rattle.font_plan.specs.Jobs.{parts};
ghost use Rattle.font_plan.specs.SourceGlyphs.{GlyphsDrawAsTheirSource};

use crate::glyph_jobs::drawing_laws;
use component_flatten::flat_glyphs_draw_as_their_source;
use glyphs_source::entries_are_numbered;
use plist_reader::sources_have_one_answer;

/// The jobs of a source make a font exactly where its definition without jobs gives one, which
/// makes each part of those that it needs, one after the other; and it is the same font.
pub fn jobs_make_the_direct_font()
    ensures direct { (source font : List ℕ) → font_of source ≡ Ok font
        → direct_font source ≡ Ok font }
    ensures made { (source font : List ℕ) → direct_font source ≡ Ok font
        → font_of source ≡ Ok font }
{}

/// A source is accepted exactly where the grammar gives it a tree, each of its parts is read, and
/// its glyphs, its tables and its font keep their limits; its font is then the file of the tables
/// of its glyphs.
pub fn a_source_is_accepted_with_its_parts()
    ensures parts { (source font : List ℕ) → font_of source ≡ Ok font → IsFontOf source font }
    ensures accepted { (source font : List ℕ) → IsFontOf source font → font_of source ≡ Ok font }
{
    sources_have_one_answer();
}

/// Each glyph of an accepted source's font draws what the source says: at each of its locations the
/// contours of its shapes in their order, where a component stands for what the glyph of its name
/// draws there, transformed; and so on from component to component.
pub fn glyphs_draw_as_their_source()
    ensures { GlyphsDrawAsTheirSource }
{
    drawing_laws();
    entries_are_numbered();
    flat_glyphs_draw_as_their_source();
}

/// A job of a source fails exactly where its part does: all that the part is made of, directly or
/// through others, was made, and it is refused itself, by the first of its rules that fails.
pub fn failures_are_those_of_the_parts()
    ensures parts { (source : List ℕ) (id : JobId) (r : Refusal) → Fails (parts source) id r
        → FailsBy source id r }
    ensures jobs { (source : List ℕ) (id : JobId) (r : Refusal) → FailsBy source id r
        → Fails (parts source) id r }
{}

/// A source is accepted exactly where none of its parts fails by a rule.
pub fn a_source_is_accepted_where_nothing_fails()
    ensures accepted { (source font : List ℕ) → font_of source ≡ Ok font → (id : JobId)
        (r : Refusal) → FailsBy source id r → ⊥ }
    ensures unfailed { (source : List ℕ)
        → ((id : JobId) (r : Refusal) → FailsBy source id r → ⊥)
        → (font : List ℕ) × (font_of source ≡ Ok font) }
{}

/// A source is refused by the least of all refusals by which its parts fail, and by no other one,
/// whatever order its jobs are run in.
pub fn a_source_is_refused_by_its_least_failure()
    ensures least { (source : List ℕ) (r : Refusal) → font_of source ≡ Err r
        → IsRefusedBy source r }
    ensures refused { (source : List ℕ) (r : Refusal) → IsRefusedBy source r
        → font_of source ≡ Err r }
{}

/// A source that is too long is refused for that, and another whose text has no tree by the first
/// rule that its text fails: nothing else is asked of either.
pub fn a_refused_text_refuses_its_source()
    ensures long { (source : List ℕ) → SOURCE_BYTES < length source
        → font_of source ≡ Err source_too_large }
    ensures text { (source : List ℕ) (r : Refusal) → length source ≤ SOURCE_BYTES
        → IsRefusal source r → font_of source ≡ Err r }
{
    sources_have_one_answer();
}

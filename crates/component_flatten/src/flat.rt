ghost use Rattle.std.specs.Prelude.{◌≡◌, ◌<◌, [], length, slice_get, IfOk, IfSome};
ghost use Rattle.std.specs.List.{All};
ghost use Rattle.font_ir.specs.FlatGlyphs.{IsFlatGlyph, glyphs_of};
ghost use Rattle.font_ir.specs.ReadGlyphs.{IsReadGlyph, HasNoComponents};
ghost use Rattle.refusal_codes.specs.Gives.{Gives};
ghost use Rattle.component_flatten.specs.Drawing.{glyph_drawn};
ghost use Rattle.component_flatten.specs.Flattening.{IsBase, HasBases, flat_of, made_of};
ghost use Rattle.component_flatten.specs.Judging.{GivesDrawn, rule_of};

use crate::anchors::anchors;
use crate::betweens::Betweens;
use crate::composites::kept;
use crate::counting::has_many_points;
use crate::drawing::{drawn, widths};
use crate::limits::LimitError;
use font_ir::{Contour, FlatGlyph, GlyphIr, Name, copied_locations};
use glyphs_source::GlyphIndex;
use plain_lists::Sequence;
use refusal_codes::{Failure, NoMemory, ReadError, Rule, job};
use std::alloc::Global;
use std::sync::Arc;

/// The glyph with its contours drawn at each of its places, in 16.16 font units, the components
/// that stay, and its anchors.
///
/// `bases` are the flat glyphs of its components, in the order in which a layer has these, each
/// with as many axes as the glyph. At a place that a base lacks, its contours are those that its
/// variation model gives there. `index` has the glyph's number, gives the name that a refusal
/// tells, and says which bases are exported.
///
/// The error is the first of these, at the glyph: a place has more than 8,000 drawn points; a delta
/// of a base that lacks one of the places is outside an `i16`; a drawn coordinate is beyond 16383
/// in size. Or it is want of memory. It takes time for the points that are drawn.
pub fn flatten(
    alloc: Global,
    glyph: &GlyphIr,
    index: &GlyphIndex,
    bases: &[Arc<FlatGlyph>],
) -> Result<FlatGlyph, ReadError>
    requires number { glyph.now.number < length index.now }
    requires read { IsReadGlyph glyph.now }
    requires enough { HasBases glyph.now (glyphs_of bases.now) }
    requires bases { All (IsBase glyph.now.places) (glyphs_of bases.now) }
    ensures record { IfSome (slice_get index.now glyph.now.number) (λ entry. Gives (λ flat. flat)
        result (flat_of index.now entry.0 glyph.now (glyphs_of bases.now))) }
    ensures flat { IfOk result IsFlatGlyph }
    ensures places { IfOk result (λ flat. flat.places ≡ glyph.now.places) }
    ensures kept { HasNoComponents glyph.now → IfOk result (λ flat. flat.kept ≡ []) }
{
    let (name, _) = index.at(glyph.number).unwrap();
    draw(alloc, glyph, index, bases, name)
}

/// The glyph with its contours drawn, where it has this name.
#[tactic(auto, using(crate::proofs::FlatLaws::flat_made))]
fn draw(
    alloc: Global,
    glyph: &GlyphIr,
    index: &GlyphIndex,
    bases: &[Arc<FlatGlyph>],
    name: &Name,
) -> Result<FlatGlyph, ReadError>
    requires read { IsReadGlyph glyph.now }
    requires enough { HasBases glyph.now (glyphs_of bases.now) }
    requires bases { All (IsBase glyph.now.places) (glyphs_of bases.now) }
    ensures record { Gives (λ flat. flat) result
        (flat_of index.now name.now glyph.now (glyphs_of bases.now)) }
    ensures places { IfOk result (λ flat. flat.places ≡ glyph.now.places) }
{
    match within_limits(alloc, glyph, bases) {
        Ok(drawn) => Ok(record(alloc, index, glyph, drawn)?),
        Err(LimitError::Broken(rule)) => {
            let place = glyph.place;
            Err(Failure { rule, place }.refused(job::FLAT, name.copy(alloc)?))
        }
        Err(LimitError::NoMemory) => Err(ReadError::NoMemory),
    }
}

/// The glyph that draws these contours.
fn record(
    alloc: Global,
    index: &GlyphIndex,
    glyph: &GlyphIr,
    drawn: Sequence<Sequence<Contour>>,
) -> Result<FlatGlyph, NoMemory>
    requires read { IsReadGlyph glyph.now }
    ensures record { IfOk result (λ flat. flat ≡ made_of index.now glyph.now drawn) }
    ensures places { IfOk result (λ flat. flat.places ≡ glyph.now.places) }
{
    Ok(FlatGlyph {
        number: glyph.number,
        place: glyph.place,
        places: copied_locations(alloc, glyph.places.as_slice())?,
        widths: widths(alloc, glyph.layers.as_slice())?,
        drawn,
        kept: kept(alloc, index, glyph)?,
        anchors: anchors(alloc, glyph)?,
    })
}

/// What the glyph draws at each of its places, or the first rule that this breaks.
fn within_limits(
    alloc: Global,
    glyph: &GlyphIr,
    bases: &[Arc<FlatGlyph>],
) -> Result<Sequence<Sequence<Contour>>, LimitError>
    requires read { IsReadGlyph glyph.now }
    requires enough { HasBases glyph.now (glyphs_of bases.now) }
    requires bases { All (IsBase glyph.now.places) (glyphs_of bases.now) }
    ensures { GivesDrawn (rule_of glyph.now (glyphs_of bases.now))
        (glyph_drawn glyph.now (glyphs_of bases.now)) result }
{
    if has_many_points(glyph, bases) {
        return Err(LimitError::Broken(Rule::TooManyPoints));
    }
    let made = Betweens::of(alloc, glyph.places.as_slice(), bases)?;
    drawn(alloc, glyph, bases, &made)
}

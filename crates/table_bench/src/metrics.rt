// Glyphs that are measured, of which every third one is a composite.
ghost use Rattle.std.specs.Prelude.{◌≡◌, ◌+◌, ◌≤◌, pos, ◌≤ℤ◌, [], ◌∷◌, length, map, IfOk, OnOk};
ghost use Rattle.std.specs.List.{All};
ghost use Rattle.fixtures.specs.Families.{ends};
ghost use Rattle.font_ir.specs.FlatGlyphs.{IsFlatGlyph, glyphs_of};
ghost use Rattle.font_ir.specs.Headers.{IsHeader};
ghost use Rattle.table_bench.specs.Fonts.{AreMeasurable, IsLowerComponent, IsMeasurable};

use fixed_math::{F2Dot14, Fixed};
use fixtures::{growing_header, moving_glyph};
use font_ir::{FlatGlyph, GlyphOrder, Header, Kept, Location};
use metrics_tables::{Maxima, MeasureError, measure};
use plain_lists::{Sequence, Text};
use refusal_codes::NoMemory;
use std::alloc::{AllocError, Global};
use std::sync::Arc;

/// The name of the glyph with this number.
fn name_of(alloc: Global, gid: u16) -> Result<Text, AllocError> {
    Ok(Text::from_string(format!(in alloc; "glyph{gid}")?))
}

/// The order of so many glyphs.
fn order_of(alloc: Global, count: u16) -> Result<GlyphOrder, NoMemory> {
    let mut order = GlyphOrder::new(alloc);
    for gid in 0..count {
        let name = name_of(alloc, gid)?;
        if name.len() <= 255 {
            order.push(alloc, Some(u32::from(gid)), name.as_bytes())?;
        }
    }
    Ok(order)
}

/// Adds the glyph with this name to the components of another, if its number is lower.
fn add_component(
    alloc: Global,
    order: &GlyphOrder,
    gid: u16,
    base: Text,
    all: &mut Vec<Kept>,
) -> Result<(), NoMemory>
    requires { All (IsLowerComponent order.now.names gid) all.old.items }
    ensures components { OnOk result (All (IsLowerComponent order.now.names gid) all.new.items) }
    ensures count { OnOk result (length all.new.items ≤ length all.old.items + 1) }
{
    if let Some(other) = order.gid(base.as_bytes()) {
        if other < gid {
            let at = Sequence::from_vec(vec![in alloc; (0, 0), (0, 0)]?);
            all.push(Kept { base, at })?;
        }
    }
    Ok(())
}

/// The components of a glyph: every third one has the two glyphs before it.
fn components(alloc: Global, order: &GlyphOrder, gid: u16) -> Result<Vec<Kept>, NoMemory>
    ensures components { IfOk result (λ kept. All (IsLowerComponent order.now.names gid)
        kept.items) }
    ensures count { IfOk result (λ kept. length kept.items ≤ 2) }
{
    let mut all = Vec::new(alloc);
    if gid % 3 == 2 {
        add_component(alloc, order, gid, name_of(alloc, gid - 1)?, &mut all)?;
        add_component(alloc, order, gid, name_of(alloc, gid - 2)?, &mut all)?;
    }
    Ok(all)
}

/// A place on one axis.
fn place(alloc: Global, x: i16) -> Result<Location, AllocError>
    ensures { IfOk result (λ place. place ≡ record { 0 = x } ∷ []) }
{
    Ok(Sequence::from_vec(vec![in alloc; F2Dot14(x)]?))
}

/// The glyph without components that is this much wider at the second master.
fn simple_glyph(alloc: Global, wider: i32) -> Result<FlatGlyph, AllocError>
    requires low { pos 0 ≤ℤ wider }
    requires high { wider ≤ℤ pos 63 }
    ensures flat { IfOk result IsFlatGlyph }
    ensures places { IfOk result (λ glyph. glyph.places ≡ ends) }
{
    let places = vec![in alloc; place(alloc, 0)?, place(alloc, 16_384)?]?;
    let widths = vec![in alloc; 500, 500 + wider]?;
    let top = Fixed(16_384_000);
    moving_glyph(alloc, places, widths, [top, top].as_slice())
}

/// The glyph with these components.
fn with_components(glyph: FlatGlyph, kept: Vec<Kept>) -> FlatGlyph
    ensures { result ≡ record glyph { kept = kept.items } }
{
    let mut composite = glyph;
    composite.kept = Sequence::from_vec(kept);
    composite
}

/// The glyph with this number.
fn glyph(alloc: Global, order: &GlyphOrder, gid: u16) -> Result<FlatGlyph, NoMemory>
    ensures { IfOk result (IsMeasurable order.now.names gid) }
{
    let simple = simple_glyph(alloc, i32::from(gid % 64))?;
    let kept = components(alloc, order, gid)?;
    Ok(with_components(simple, kept))
}

/// So many glyphs.
fn glyphs(alloc: Global, order: &GlyphOrder, count: u16) -> Result<Vec<Arc<FlatGlyph>>, NoMemory>
    ensures { IfOk result (λ glyphs. AreMeasurable order.now.names (glyphs_of glyphs.items)) }
{
    let mut glyphs = Vec::with_capacity(alloc, count as usize)?;
    for gid in 0..count {
        glyphs.push(Arc::new(alloc, glyph(alloc, order, gid)?)?)?;
    }
    Ok(glyphs)
}

/// The greatest counts over glyphs, which are measured so many times.
fn greatest_counts(
    alloc: Global,
    header: &Header,
    order: &GlyphOrder,
    glyphs: &[Arc<FlatGlyph>],
    times: u32,
) -> Result<Maxima, MeasureError>
    requires header { IsHeader header.now }
    requires masters { map (λ master. master.location) header.now.masters ≡ ends }
    requires one_each { length glyphs.now ≡ length order.now.names }
    requires glyphs { AreMeasurable order.now.names (glyphs_of glyphs.now) }
{
    let mut maxima = Maxima {
        points: 0,
        contours: 0,
        composite_points: 0,
        composite_contours: 0,
        components: 0,
        depth: 0,
    };
    for _time in 0..times {
        maxima = measure(alloc, header, order, glyphs)?.maxima;
    }
    Ok(maxima)
}

/// Measures so many glyphs so many times. Answers their greatest counts.
pub fn measures(alloc: Global, count: u16, times: u32) -> Result<Maxima, MeasureError> {
    let header = growing_header(alloc, 500)?;
    let order = order_of(alloc, count)?;
    let glyphs = glyphs(alloc, &order, count)?;
    if glyphs.len() != order.len() {
        return Err(MeasureError::NoMemory);
    }
    greatest_counts(alloc, &header, &order, glyphs.as_slice(), times)
}

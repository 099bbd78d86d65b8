ghost use Rattle.std.specs.Prelude.{◌≡◌, [], ◌∷◌, IfOk};
ghost use Rattle.font_ir.specs.FlatGlyphs.{IsFlatGlyph};
ghost use Rattle.font_ir.specs.Places.{AreGlyphPlaces};
ghost use Rattle.gvar_writer.specs.GlyphVariations.{AreShared};

use fixed_math::{F2Dot14, Fixed};
use fixtures::moving_glyph;
use font_ir::{FlatGlyph, Location, Region};
use gvar_writer::{glyph_variations, gvar_table};
use plain_lists::Sequence;
use std::alloc::{AllocError, Global};
use std::sync::Arc;
use std::test::Fail;
use table_bytes::TableError;
use variation_model::{DeltaError, Model};

fn on_one_axis(alloc: Global, x: i16) -> Result<Location, AllocError>
    ensures { IfOk result (λ l. l ≡ record { 0 = x } ∷ []) }
{
    Ok(Sequence::from_vec(vec![in alloc; F2Dot14(x)]?))
}

fn on_two_axes(alloc: Global, x: i16, y: i16) -> Result<Location, AllocError>
    ensures { IfOk result (λ l. l ≡ record { 0 = x } ∷ record { 0 = y } ∷ []) }
{
    Ok(Sequence::from_vec(vec![in alloc; F2Dot14(x), F2Dot14(y)]?))
}

/// The regions of a font whose masters have this model.
fn shared_of(model: &Model) -> &[Region]
    requires { AreGlyphPlaces model.now }
    ensures { AreShared result.now }
{
    &model.supports()[1..]
}

/// Whether these are the variation data of a glyph, in a font whose masters have this model.
fn is_data(alloc: Global, masters: &Model, glyph: &FlatGlyph, expected: &[u8]) -> bool
    requires masters { AreGlyphPlaces masters.now }
    requires flat { IsFlatGlyph glyph.now }
{
    let Ok(model) = Model::new(alloc, glyph.places.as_slice()) else {
        return false;
    };
    match glyph_variations(alloc, shared_of(masters), &model, glyph) {
        Ok(data) => data.as_slice() == expected,
        Err(_) => false,
    }
}

/// The model of two masters, at the default and at the end of one axis.
fn two_masters(alloc: Global) -> Result<Model, Fail>
    ensures { IfOk result AreGlyphPlaces }
{
    let places = vec![in alloc; on_one_axis(alloc, 0)?, on_one_axis(alloc, 16_384)?]?;
    Ok(Model::new(alloc, places.as_slice())?)
}

/// The first delta of a glyph that is too large, with its number.
fn too_large(alloc: Global, glyph: &FlatGlyph) -> Option<(u32, i64)>
    requires { IsFlatGlyph glyph.now }
{
    let Ok(model) = Model::new(alloc, glyph.places.as_slice()) else {
        return None;
    };
    match glyph_variations(alloc, shared_of(&model), &model, glyph) {
        Err(DeltaError::TooLarge { at, value }) => Some((at, value)),
        _ => None,
    }
}

/// A tuple with a shared peak, whose deltas are those of all points: 10 and 20 units in x, of the
/// top and of the advance width.
const GROWING: &str = "000100080008200000000a8200148186";

#[test]
fn a_triangle_that_grows_has_a_tuple_of_all_points(rt: HostRuntime) -> Result<(), Fail> {
    let alloc = rt.alloc();
    let places = vec![in alloc; on_one_axis(alloc, 0)?, on_one_axis(alloc, 16_384)?]?;
    let widths = vec![in alloc; 500, 520]?;
    let tops = [Fixed(16_384_000), Fixed(17_039_360)];
    let glyph = moving_glyph(alloc, places, widths, tops.as_slice())?;
    let expected = hex::decode(alloc, GROWING)?;
    let masters = two_masters(alloc)?;
    assert!(rt; is_data(alloc, &masters, &glyph, expected.as_slice()));
    Ok(())
}

#[test]
fn a_triangle_that_stays_has_no_data(rt: HostRuntime) -> Result<(), Fail> {
    let alloc = rt.alloc();
    let places = vec![in alloc; on_one_axis(alloc, 0)?, on_one_axis(alloc, 16_384)?]?;
    let widths = vec![in alloc; 500, 500]?;
    let tops = [Fixed(16_384_000), Fixed(16_384_000)];
    let glyph = moving_glyph(alloc, places, widths, tops.as_slice())?;
    let masters = two_masters(alloc)?;
    assert!(rt; is_data(alloc, &masters, &glyph, &[]));
    Ok(())
}

/// A tuple whose peak, half way, stands in the glyph: its flags are 0x8000 and 0x2000.
const HALF_WAY: &str = "0001000a\
    0008a0002000\
    00000a8200148186\
    0000";

#[test]
fn a_peak_that_no_master_has_stands_in_the_glyph(rt: HostRuntime) -> Result<(), Fail> {
    let alloc = rt.alloc();
    let places = vec![in alloc; on_one_axis(alloc, 0)?, on_one_axis(alloc, 8192)?]?;
    let widths = vec![in alloc; 500, 520]?;
    let tops = [Fixed(16_384_000), Fixed(17_039_360)];
    let glyph = moving_glyph(alloc, places, widths, tops.as_slice())?;
    let expected = hex::decode(alloc, HALF_WAY)?;
    let masters = two_masters(alloc)?;
    assert!(rt; is_data(alloc, &masters, &glyph, expected.as_slice()));
    Ok(())
}

/// Two tuples with a start and an end: from 0 over a peak half way, which stands in the glyph, to
/// the axis's end, and from half way to the shared peak. The deltas are 10 and 20 units, and then
/// 30 and 30.
const WITH_ENDS: &str = "00020016\
    0008e000200000004000\
    0008600020004000\
    00000a8200148186\
    00001e82001e8186\
    0000";

#[test]
fn a_region_that_is_not_implied_has_start_and_end(rt: HostRuntime) -> Result<(), Fail> {
    let alloc = rt.alloc();
    let places = vec![in alloc;
        on_one_axis(alloc, 0)?,
        on_one_axis(alloc, 8192)?,
        on_one_axis(alloc, 16_384)?,
    ]?;
    let widths = vec![in alloc; 500, 520, 530]?;
    let tops = [Fixed(16_384_000), Fixed(17_039_360), Fixed(18_350_080)];
    let glyph = moving_glyph(alloc, places, widths, tops.as_slice())?;
    let expected = hex::decode(alloc, WITH_ENDS)?;
    let masters = two_masters(alloc)?;
    assert!(rt; is_data(alloc, &masters, &glyph, expected.as_slice()));
    Ok(())
}

#[test]
fn the_first_delta_outside_is_refused(rt: HostRuntime) -> Result<(), Fail> {
    let alloc = rt.alloc();
    let places = vec![in alloc;
        on_two_axes(alloc, 0, 0)?,
        on_two_axes(alloc, 16_384, 0)?,
        on_two_axes(alloc, 0, 16_384)?,
        on_two_axes(alloc, 16_384, 16_384)?,
    ]?;
    let widths = vec![in alloc; 500, 500, 500, 500]?;
    let far = Fixed(16_383 * 65_536);
    let tops = [Fixed(0), far, far, Fixed(-3 * 65_536)];
    let glyph = moving_glyph(alloc, places, widths, tops.as_slice())?;
    assert!(rt; too_large(alloc, &glyph) == Some((3, -32_769)));
    Ok(())
}

/// The table of an empty glyph and of one with data, in a font with one axis.
const TABLE: &str = "0001000000010001000000200002000100000024\
    000000000000000000000010\
    40000000\
    000100080008200000000a8200148186";

#[test]
fn a_table_has_the_peak_before_the_data(rt: HostRuntime) -> Result<(), Fail> {
    let alloc = rt.alloc();
    let places = vec![in alloc; on_one_axis(alloc, 0)?, on_one_axis(alloc, 16_384)?]?;
    let model = Model::new(alloc, places.as_slice())?;
    let data = hex::decode(alloc, GROWING)?;
    let parts = vec![in alloc; Arc::new(alloc, Vec::new(alloc))?, Arc::new(alloc, data)?]?;
    let table = gvar_table(alloc, shared_of(&model), 1, parts.as_slice())?;
    assert!(rt; table == hex::decode(alloc, TABLE)?);
    Ok(())
}

/// The length that is told where so many times 16 MiB of data are too long.
fn too_long(alloc: Global, model: &Model, count: u16) -> Result<Option<u64>, Fail>
    requires { AreGlyphPlaces model.now }
{
    let part = Arc::new(alloc, vec![in alloc; 0u8; 16_777_216]?)?;
    let mut parts = Vec::new(alloc);
    for _i in 0..count {
        parts.push(part.clone()?)?;
    }
    match gvar_table(alloc, shared_of(model), 1, parts.as_slice()) {
        Err(TableError::TooLarge(length)) => Ok(Some(length)),
        _ => Ok(None),
    }
}

#[test]
fn a_table_of_four_gigabytes_is_refused(rt: HostRuntime) -> Result<(), Fail> {
    let alloc = rt.alloc();
    let places = vec![in alloc; on_one_axis(alloc, 0)?, on_one_axis(alloc, 16_384)?]?;
    let model = Model::new(alloc, places.as_slice())?;
    assert!(rt; too_long(alloc, &model, 256)? == Some(4_294_968_348));
    Ok(())
}

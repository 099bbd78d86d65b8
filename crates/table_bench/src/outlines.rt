// Glyphs of sixty points that vary over two axes.
ghost use Rattle.std.specs.Prelude.{◌≡◌, ◌≤◌, ◌<◌, pos, neg_ℤ, ◌≤ℤ◌, true, length, map, replicate};
ghost use Rattle.std.specs.Prelude.{IfOk};
ghost use Rattle.std.specs.List.{All};
ghost use Rattle.font_ir.specs.FlatGlyphs.{IsSmallPoint};
ghost use Rattle.font_ir.specs.Places.{AreGlyphPlaces};
ghost use Rattle.gvar_writer.specs.GlyphVariations.{AreShared};
ghost use Rattle.table_bench.specs.Outlines.{IsOutline, IsVarying, at as place, three_places};

use fixed_math::{F2Dot14, Fixed};
use font_ir::{Contour, DrawnPoint, FlatGlyph, Location, Region};
use gvar_writer::glyph_variations;
use plain_lists::Sequence;
use refusal_codes::NoMemory;
use std::alloc::{AllocError, Global};
use variation_model::{DeltaError, Model};

/// A place on two axes.
fn place(alloc: Global, x: i16, y: i16) -> Result<Location, AllocError>
    ensures { IfOk result (λ l. l ≡ place x y) }
{
    Ok(Sequence::from_vec(vec![in alloc; F2Dot14(x), F2Dot14(y)]?))
}

/// The places of three masters.
fn three_places(alloc: Global) -> Result<Vec<Location>, AllocError>
    ensures { IfOk result (λ places. places.items ≡ three_places) }
{
    Ok(vec![in alloc;
        place(alloc, 0, 0)?,
        place(alloc, 16_384, 0)?,
        place(alloc, 0, 16_384)?,
    ]?)
}

/// How far the points of a master lie from those of the default: away from the glyph's middle.
#[derive(Clone, Copy)]
struct Growth {
    right: i32,
    up: i32,
}

/// A number that goes up for fifteen steps and down for fifteen.
fn wave(k: u32) -> i32
    ensures low { pos 0 ≤ℤ result }
    ensures high { result ≤ℤ pos 600 }
{
    let step = k % 30;
    let height = if step < 15 { step } else { 30 - step };
    40 * height as i32
}

/// A number below 32 that looks drawn.
fn drawn(seed: u32) -> i32
    ensures low { pos 0 ≤ℤ result }
    ensures high { result ≤ℤ pos 31 }
{
    let mixed = seed.wrapping_mul(1_664_525).wrapping_add(1_013_904_223);
    (mixed / 65536 % 32) as i32
}

/// A coordinate in 16.16, which lies farther from the middle by this many units.
fn grown(coordinate: i32, growth: i32) -> Fixed
    requires low { pos 0 ≤ℤ coordinate }
    requires high { coordinate ≤ℤ pos 631 }
    requires growth_low { pos 0 ≤ℤ growth }
    requires growth_high { growth ≤ℤ pos 100 }
    ensures low { neg_ℤ (pos 1073676288) ≤ℤ result.0 }
    ensures high { result.0 ≤ℤ pos 1073676288 }
{
    if coordinate < 300 {
        Fixed((coordinate - growth) * 65536)
    } else {
        Fixed((coordinate + growth) * 65536)
    }
}

/// A point of a contour, on the curve.
fn point(seed: u32, k: u32, growth: Growth) -> DrawnPoint
    requires few { k < 30 }
    requires right_low { pos 0 ≤ℤ growth.right }
    requires right_high { growth.right ≤ℤ pos 100 }
    requires up_low { pos 0 ≤ℤ growth.up }
    requires up_high { growth.up ≤ℤ pos 100 }
    ensures on { result.on ≡ true }
    ensures small { IsSmallPoint result }
{
    let x = wave(k) + drawn(seed.wrapping_add(k));
    let y = wave(k + 7) + drawn(seed.wrapping_sub(k));
    DrawnPoint {
        x: grown(x, growth.right),
        y: grown(y, growth.up),
        on: true,
    }
}

/// A contour of thirty points.
fn contour(alloc: Global, seed: u32, growth: Growth) -> Result<Contour, AllocError>
    requires right_low { pos 0 ≤ℤ growth.right }
    requires right_high { growth.right ≤ℤ pos 100 }
    requires up_low { pos 0 ≤ℤ growth.up }
    requires up_high { growth.up ≤ℤ pos 100 }
    ensures on { IfOk result (λ contour. map (λ point. point.on) contour.points
        ≡ replicate 30 true) }
    ensures small { IfOk result (λ contour. All IsSmallPoint contour.points) }
{
    let mut points = Vec::with_capacity(alloc, 30)?;
    for k in 0u32..30 {
        points.push(point(seed, k, growth))?;
    }
    Ok(Contour {
        points: Sequence::from_vec(points),
    })
}

/// An outline of two contours.
fn outline(alloc: Global, seed: u32, growth: Growth) -> Result<Sequence<Contour>, AllocError>
    requires right_low { pos 0 ≤ℤ growth.right }
    requires right_high { growth.right ≤ℤ pos 100 }
    requires up_low { pos 0 ≤ℤ growth.up }
    requires up_high { growth.up ≤ℤ pos 100 }
    ensures { IfOk result IsOutline }
{
    let first = contour(alloc, seed, growth)?;
    let second = contour(alloc, seed.wrapping_add(1000), growth)?;
    Ok(Sequence::from_vec(vec![in alloc; first, second]?))
}

/// The outlines at three masters: the default one, one that is bolder, and one that is taller.
fn outlines(alloc: Global, seed: u32) -> Result<Vec<Sequence<Contour>>, AllocError>
    ensures count { IfOk result (λ outlines. length outlines.items ≡ 3) }
    ensures outlines { IfOk result (λ outlines. All IsOutline outlines.items) }
{
    Ok(vec![in alloc;
        outline(alloc, seed, Growth { right: 0, up: 0 })?,
        outline(alloc, seed, Growth { right: 12, up: 4 })?,
        outline(alloc, seed, Growth { right: 3, up: 30 })?,
    ]?)
}

/// A glyph of sixty points.
#[tactic(auto, using(crate::proofs::Shapes::varying_of))]
fn glyph(alloc: Global, number: u16) -> Result<FlatGlyph, AllocError>
    requires { AreGlyphPlaces three_places }
    ensures { IfOk result IsVarying }
{
    let seed = u32::from(number) * 100;
    Ok(FlatGlyph {
        number: u32::from(number),
        place: 0,
        places: Sequence::from_vec(three_places(alloc)?),
        widths: Sequence::from_vec(vec![in alloc; 640, 664, 646]?),
        drawn: Sequence::from_vec(outlines(alloc, seed)?),
        kept: Sequence::new(alloc),
        anchors: Sequence::new(alloc),
    })
}

/// So many glyphs.
fn glyphs(alloc: Global, count: u16) -> Result<Vec<FlatGlyph>, AllocError>
    requires { AreGlyphPlaces three_places }
    ensures { IfOk result (λ glyphs. All IsVarying glyphs.items) }
{
    let mut glyphs = Vec::with_capacity(alloc, count as usize)?;
    for number in 0..count {
        glyphs.push(glyph(alloc, number)?)?;
    }
    Ok(glyphs)
}

/// The regions of a font whose masters have this model.
fn shared_of(model: &Model) -> &[Region]
    requires { AreGlyphPlaces model.now }
    ensures { AreShared result.now }
{
    &model.supports()[1..]
}

/// How many of some glyphs, whose places have this model, have variation data.
fn varying(alloc: Global, model: &Model, glyphs: &[FlatGlyph]) -> Result<usize, DeltaError>
    requires places { model.now ≡ three_places }
    requires are { AreGlyphPlaces three_places }
    requires glyphs { All IsVarying glyphs.now }
{
    let shared = shared_of(model);
    let mut count = 0usize;
    for glyph in glyphs {
        if !glyph_variations(alloc, shared, model, glyph)?.is_empty() {
            count = count.saturating_add(1);
        }
    }
    Ok(count)
}

/// The model of three masters.
fn masters_model(alloc: Global) -> Result<Model, NoMemory>
    ensures places { IfOk result (λ model. model ≡ three_places) }
    ensures are { AreGlyphPlaces three_places }
{
    let places = three_places(alloc)?;
    Model::new(alloc, places.as_slice())
}

/// Writes the variation data of so many glyphs so many times. Answers how many have some.
pub fn variations(alloc: Global, count: u16, times: u32) -> Result<usize, DeltaError> {
    let model = masters_model(alloc)?;
    let glyphs = glyphs(alloc, count)?;
    let mut with_data = 0;
    for _time in 0..times {
        with_data = varying(alloc, &model, glyphs.as_slice())?;
    }
    Ok(with_data)
}

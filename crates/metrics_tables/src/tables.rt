ghost use Rattle.std.specs.Prelude.{◌≡◌, ◌++◌, IfOk, OnOk, ℤ};
ghost use Rattle.table_bytes.specs.DataTypes.{uint16, int16};
ghost use Rattle.font_ir.specs.Extremes.{least as least_of, greatest as greatest_of};
ghost use Rattle.font_ir.specs.Headers.{IsHeader};
ghost use Rattle.metrics_tables.specs.Comparisons.{greatest_count};
ghost use Rattle.metrics_tables.specs.Tables as tables;

use crate::bounds::{cut, greatest, least, least_right_bearing};
use crate::fields::push_words;
use crate::measures::Measures;
use font_ir::Header;
use refusal_codes::NoMemory;
use std::alloc::{AllocError, Global};
use table_bytes::push_uint32;

/// Version 1.0 of a table, in 16.16.
const VERSION_1: u32 = 0x0001_0000;

/// What `head` has as its magicNumber.
const MAGIC: u32 = 0x5F0F_3CF5;

/// The font's version in 16.16, thousandths rounded down.
fn font_revision(header: &Header) -> u32
    requires { IsHeader header.now }
    ensures { result ≡ tables.font_revision header.now }
{
    65536 * u32::from(header.major) + 65536 * u32::from(header.minor) / 1000
}

/// The table `head` (OpenType 1.9, "head"), with 0 as its checksumAdjustment.
#[tactic(auto, unfolding(crate::specs::Tables::head_table))]
pub fn head(alloc: Global, header: &Header, measures: &Measures) -> Result<Vec<u8>, NoMemory>
    requires header { IsHeader header.now }
    requires measures { tables.AreMeasures measures.now }
    ensures { IfOk result (λ table. table.items ≡ tables.head_table header.now measures.now) }
{
    let bounds = measures.bounds.as_slice();
    let x_min = least(bounds, 0);
    let y_min = least(bounds, 1);
    let x_max = greatest(bounds, 2);
    let y_max = greatest(bounds, 3);
    let mut table = Vec::with_capacity(alloc, 54)?;
    push_uint32(&mut table, VERSION_1)?;
    push_uint32(&mut table, font_revision(header))?;
    push_uint32(&mut table, 0)?;
    push_uint32(&mut table, MAGIC)?;
    push_words(&mut table, &[3, header.upem, 0, 0, 0, 0, 0, 0, 0, 0])?;
    push_words(&mut table, &[x_min.cast_unsigned(), y_min.cast_unsigned()])?;
    push_words(&mut table, &[x_max.cast_unsigned(), y_max.cast_unsigned()])?;
    push_words(&mut table, &[0, 6, 2, 1, 0])?;
    Ok(table)
}

/// The greatest advance, 0 where there is no glyph.
fn greatest_advance(advances: &[u16]) -> u16
    ensures { result ≡ greatest_count advances.now }
{
    let mut so_far = 0;
    for advance in advances {
        so_far = so_far.max(*advance);
    }
    so_far
}

/// What `hhea` says of all glyphs.
#[derive(Clone, Copy)]
struct Extremes {
    advance: u16,
    left_bearing: i16,
    right_bearing: i16,
    extent: i16,
}

/// The extremes of the glyphs' metrics, each cut to 16 bits.
fn extremes_of(measures: &Measures) -> Extremes
    requires { tables.AreMeasures measures.now }
    ensures advance { result.advance ≡ greatest_count measures.now.advances }
    ensures left { result.left_bearing ≡ tables.cut
        (least_of (tables.side 0 (tables.boxes_of measures.now.bounds))) }
    ensures right { result.right_bearing ≡ tables.cut
        (least_of (tables.right_bearings measures.now.advances measures.now.bounds)) }
    ensures extent { result.extent ≡ tables.cut
        (greatest_of (tables.side 2 (tables.boxes_of measures.now.bounds))) }
{
    let advances = measures.advances.as_slice();
    let bounds = measures.bounds.as_slice();
    let left_bearing = cut(i32::from(least(bounds, 0)));
    let right_bearing = cut(least_right_bearing(advances, bounds));
    let extent = cut(i32::from(greatest(bounds, 2)));
    Extremes {
        advance: greatest_advance(advances),
        left_bearing,
        right_bearing,
        extent,
    }
}

/// The default master's ascender and descender.
fn vertical_metrics(header: &Header) -> (i16, i16)
    requires { IsHeader header.now }
    ensures ascender { result.0 ≡ tables.of_origin (λ m. m.ascender) header.now }
    ensures descender { result.1 ≡ tables.of_origin (λ m. m.descender) header.now }
{
    let master = &header.masters.as_slice()[header.origin as usize];
    (master.ascender, master.descender)
}

/// The table `hhea` (OpenType 1.9, "hhea"), with the default master's ascender and descender.
#[tactic(auto, unfolding(crate::specs::Tables::hhea_table))]
pub fn hhea(alloc: Global, header: &Header, measures: &Measures) -> Result<Vec<u8>, NoMemory>
    requires header { IsHeader header.now }
    requires measures { tables.AreMeasures measures.now }
    ensures { IfOk result (λ table. table.items ≡ tables.hhea_table header.now measures.now) }
{
    let (ascender, descender) = vertical_metrics(header);
    let extremes = extremes_of(measures);
    let left = extremes.left_bearing.cast_unsigned();
    let right = extremes.right_bearing.cast_unsigned();
    let extent = extremes.extent.cast_unsigned();
    let glyphs = measures.advances.len() as u16;
    let mut table = Vec::with_capacity(alloc, 36)?;
    push_uint32(&mut table, VERSION_1)?;
    push_words(
        &mut table,
        &[ascender.cast_unsigned(), descender.cast_unsigned()],
    )?;
    push_words(&mut table, &[0, extremes.advance, left, right, extent])?;
    push_words(&mut table, &[1, 0, 0, 0, 0, 0, 0, 0, glyphs])?;
    Ok(table)
}

/// The table `maxp` of a font with TrueType outlines (OpenType 1.9, "maxp").
#[tactic(auto, unfolding(crate::specs::Tables::maxp_table))]
pub fn maxp(alloc: Global, header: &Header, measures: &Measures) -> Result<Vec<u8>, NoMemory>
    requires header { IsHeader header.now }
    requires measures { tables.AreMeasures measures.now }
    ensures { IfOk result (λ table. table.items ≡ tables.maxp_table measures.now) }
{
    let _header = header;
    let maxima = &measures.maxima;
    let glyphs = measures.advances.len() as u16;
    let mut table = Vec::with_capacity(alloc, 32)?;
    push_uint32(&mut table, VERSION_1)?;
    push_words(&mut table, &[glyphs, maxima.points, maxima.contours])?;
    push_words(
        &mut table,
        &[maxima.composite_points, maxima.composite_contours],
    )?;
    push_words(&mut table, &[2, 0, 0, 0, 0, 0, 0])?;
    push_words(&mut table, &[maxima.components, maxima.depth])?;
    Ok(table)
}

/// A glyph's record in `hmtx`: its advance and its left side bearing.
fn push_record(
    table: &mut Vec<u8>,
    advance: u16,
    bounds: &Option<[i16; 4]>,
) -> Result<(), AllocError>
    ensures { OnOk result (table.new.items
        ≡ table.old.items ++ (uint16 advance ++ int16 (tables.left_bearing bounds.now))) }
{
    let bearing = match bounds {
        None => 0,
        Some(sides) => sides[0],
    };
    push_words(table, &[advance, bearing.cast_unsigned()])
}

/// The table `hmtx` (OpenType 1.9, "hmtx"): a record for each glyph.
pub fn hmtx(alloc: Global, header: &Header, measures: &Measures) -> Result<Vec<u8>, NoMemory>
    requires header { IsHeader header.now }
    requires measures { tables.AreMeasures measures.now }
    ensures { IfOk result (λ table. table.items ≡ tables.hmtx_table measures.now) }
{
    let _header = header;
    let advances = measures.advances.as_slice();
    let bounds = measures.bounds.as_slice();
    let mut table = Vec::with_capacity(alloc, 4 * advances.len())?;
    for (gid, advance) in advances.iter().enumerate() {
        push_record(&mut table, *advance, &bounds[gid])?;
    }
    Ok(table)
}

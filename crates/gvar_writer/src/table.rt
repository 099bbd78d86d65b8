ghost use Rattle.std.specs.Prelude.{◌≡◌, ◌+◌, ◌*◌, ◌≤◌, ◌++◌, length, map, min, IfOk, OnOk};
ghost use Rattle.std.specs.List.{concat};
ghost use Rattle.refusal_codes.specs.declared.limits.TheConstants.{TABLE_BYTES};
ghost use Rattle.table_bytes.specs.Tables.{Builds};
ghost use Rattle.gvar_writer.specs.GlyphVariations.{AreShared};
ghost use Rattle.gvar_writer.specs.Gvar as spec;

use crate::headers::push_peak;
use crate::padded::pad;
use font_ir::Region;
use refusal_codes::NoMemory;
use refusal_codes::limits::TABLE_BYTES;
use std::alloc::Global;
use std::sync::Arc;
use table_bytes::{TableError, padding, push_uint16, push_uint32};

/// How many bytes the peaks of the shared regions have, at most the greatest number of 64 bits.
fn peaks_length(shared: &[Region]) -> u64
    ensures { result ≡ min (length (spec.shared_peaks shared.now)) 18446744073709551615 }
{
    let mut length: u64 = 0;
    for region in shared {
        length = length.saturating_add((region.sides.len() as u64).saturating_mul(2));
    }
    length
}

/// How many bytes all parts have, at most the greatest number of 64 bits.
fn parts_length(parts: &[Arc<Vec<u8>>]) -> u64
    ensures { result ≡ min (length (concat (map (λ part. part.value.items) parts.now)))
        18446744073709551615 }
{
    let mut length: u64 = 0;
    for part in parts {
        length = length.saturating_add(part.len() as u64);
    }
    length
}

/// How many bytes the table has, at most the greatest number of 64 bits.
fn table_length(shared: &[Region], parts: &[Arc<Vec<u8>>]) -> u64
    requires { length parts.now ≤ 65535 }
    ensures { result ≡ min (spec.table_length shared.now
        (map (λ part. part.value.items) parts.now)) 18446744073709551615 }
{
    let peaks = peaks_length(shared);
    (24 + 4 * parts.len() as u64)
        .saturating_add(peaks)
        .saturating_add(padding(peaks as usize) as u64)
        .saturating_add(parts_length(parts))
}

/// The peaks of the shared regions, with their padding.
fn shared_tuples(alloc: Global, shared: &[Region]) -> Result<Vec<u8>, NoMemory>
    ensures { IfOk result (λ tuples. tuples.items ≡ spec.shared_tuples shared.now) }
{
    let mut tuples = Vec::new(alloc);
    for region in shared {
        push_peak(&mut tuples, region.sides.as_slice())?;
    }
    pad(&mut tuples)?;
    Ok(tuples)
}

/// Appends the fields before the offsets, for shared tuples of so many bytes.
#[tactic(auto, unfolding(crate::specs::Gvar::gvar_head))]
fn push_head(
    table: &mut Vec<u8>,
    axes: u16,
    shared: u16,
    glyphs: u16,
    shared_length: u32,
) -> Result<(), NoMemory>
    requires { spec.shared_tuples_offset glyphs + shared_length ≤ 4294967295 }
    ensures { OnOk result (table.new.items
        ≡ table.old.items ++ spec.gvar_head axes shared glyphs shared_length) }
{
    let offset = 20 + 4 * (u32::from(glyphs) + 1);
    push_uint16(table, 1)?;
    push_uint16(table, 0)?;
    push_uint16(table, axes)?;
    push_uint16(table, shared)?;
    push_uint32(table, offset)?;
    push_uint16(table, glyphs)?;
    push_uint16(table, 1)?;
    push_uint32(table, offset + shared_length)?;
    Ok(())
}

/// Appends where each part begins among the parts, and last where the last one ends.
fn push_offsets(table: &mut Vec<u8>, parts: &[Arc<Vec<u8>>]) -> Result<(), NoMemory>
    requires { length (concat (map (λ part. part.value.items) parts.now)) ≤ 4294967295 }
    ensures { OnOk result (table.new.items
        ≡ table.old.items ++ spec.offsets_bytes (map (λ part. part.value.items) parts.now)) }
{
    let mut offset: u32 = 0;
    for part in parts {
        push_uint32(table, offset)?;
        offset += part.len() as u32;
    }
    push_uint32(table, offset)?;
    Ok(())
}

/// Appends the parts, one after another.
fn push_parts(table: &mut Vec<u8>, parts: &[Arc<Vec<u8>>]) -> Result<(), NoMemory>
    ensures { OnOk result (table.new.items
        ≡ table.old.items ++ concat (map (λ part. part.value.items) parts.now)) }
{
    for part in parts {
        table.extend_from_slice(part.as_slice())?;
    }
    Ok(())
}

/// The table, where it isn't too large.
fn table_of(
    alloc: Global,
    shared: &[Region],
    axes: u16,
    parts: &[Arc<Vec<u8>>],
) -> Result<Vec<u8>, NoMemory>
    requires shared { length shared.now ≤ 4096 }
    requires parts { length parts.now ≤ 65535 }
    requires short { spec.table_length shared.now (map (λ part. part.value.items) parts.now)
        ≤ 4294967295 }
    ensures { IfOk result (λ table. table.items ≡ spec.gvar_table shared.now axes
        (map (λ part. part.value.items) parts.now)) }
{
    let tuples = shared_tuples(alloc, shared)?;
    let mut table = Vec::with_capacity(alloc, table_length(shared, parts) as usize)?;
    push_head(
        &mut table,
        axes,
        shared.len() as u16,
        parts.len() as u16,
        tuples.len() as u32,
    )?;
    push_offsets(&mut table, parts)?;
    table.extend_from_slice(tuples.as_slice())?;
    push_parts(&mut table, parts)?;
    Ok(table)
}

/// The table "gvar" (OpenType 1.9) of each glyph's variation data, in the order of the glyph
/// numbers, for a font with so many axes.
///
/// `shared` are the regions of the font: those of the model of its masters, but for the first.
/// Their peaks stand before the data. The offsets are long. It costs a pass over the parts.
///
/// # Errors
///
/// `TooLarge` with the length of the table, or `u64::MAX` where it is longer, exactly where that is
/// more than 4,294,967,295 bytes. `NoMemory` comes only where it isn't.
pub fn gvar_table(
    alloc: Global,
    shared: &[Region],
    axes: u16,
    parts: &[Arc<Vec<u8>>],
) -> Result<Vec<u8>, TableError>
    requires shared { AreShared shared.now }
    requires parts { length parts.now ≤ 65535 }
    ensures { Builds (λ table. table.items) result
        (spec.too_large shared.now axes (map (λ part. part.value.items) parts.now))
        (spec.gvar_table shared.now axes (map (λ part. part.value.items) parts.now)) }
{
    let length = table_length(shared, parts);
    if length > TABLE_BYTES {
        return Err(TableError::TooLarge(length));
    }
    Ok(table_of(alloc, shared, axes, parts)?)
}

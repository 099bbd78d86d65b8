ghost use Rattle.std.specs.Prelude.{◌≤◌, length, map, codes};
ghost use Rattle.std.specs.Option.{option_map};
ghost use Rattle.refusal_codes.specs.declared.limits.TheConstants.{GLYPHS};
ghost use Rattle.refusal_codes.specs.Gives.{Gives};
ghost use Rattle.font_ir.specs.Headers.{IsHeader};
ghost use Rattle.table_bytes.specs.Tables.{over_limit};
ghost use Rattle.glyf_writer.specs.Tables as outlines;
ghost use Rattle.font_tables.specs.Tables.{outline_table, unless_too_large, variations_table};

use crate::errors::table_refused;
use crate::glyph_data::masters_model;
use font_ir::{Header, Tag};
use glyf_writer::{glyf_table, loca_table};
use gvar_writer::gvar_table;
use refusal_codes::{ReadError, Rule};
use std::alloc::Global;
use std::sync::Arc;
use table_bytes::TableError;

/// The table `glyf`.
fn glyf(alloc: Global, parts: &[Arc<Vec<u8>>]) -> Result<Option<Vec<u8>>, ReadError>
    ensures { Gives (option_map (λ table. table.items)) result (unless_too_large (codes "glyf")
        (over_limit (length (outlines.glyf_bytes (map (λ part. part.value.items) parts.now))))
        (outlines.glyf_bytes (map (λ part. part.value.items) parts.now))) }
{
    match glyf_table(alloc, parts) {
        Ok(table) => Ok(Some(table)),
        Err(TableError::TooLarge(length)) => {
            Err(table_refused(alloc, "glyf", Rule::TableTooLarge, length))
        }
        Err(TableError::NoMemory) => Err(ReadError::NoMemory),
    }
}

/// The table `loca`.
fn loca(alloc: Global, parts: &[Arc<Vec<u8>>]) -> Result<Option<Vec<u8>>, ReadError>
    ensures { Gives (option_map (λ table. table.items)) result (unless_too_large (codes "loca")
        (outlines.too_large (map (λ part. part.value.items) parts.now))
        (outlines.loca_bytes (map (λ part. part.value.items) parts.now))) }
{
    match loca_table(alloc, parts) {
        Ok(table) => Ok(Some(table)),
        Err(TableError::TooLarge(length)) => {
            Err(table_refused(alloc, "loca", Rule::TableTooLarge, length))
        }
        Err(TableError::NoMemory) => Err(ReadError::NoMemory),
    }
}

/// The table with this tag that is made of each glyph's data, in the order of the glyph numbers:
/// `glyf` or `loca` (OpenType 1.9). None for another tag.
///
/// # Errors
///
/// `Refused` exactly where the table, or of `loca` the table `glyf`, is longer than 4,294,967,295
/// bytes, unless memory ran out: of the table's job, with that length.
pub fn outline_table(
    alloc: Global,
    tag: Tag,
    parts: &[Arc<Vec<u8>>],
) -> Result<Option<Vec<u8>>, ReadError>
    ensures { Gives (option_map (λ table. table.items)) result
        (outline_table tag (map (λ part. part.value.items) parts.now)) }
{
    if tag.0 == *b"glyf" {
        glyf(alloc, parts)
    } else if tag.0 == *b"loca" {
        loca(alloc, parts)
    } else {
        Ok(None)
    }
}

/// The table `gvar` (OpenType 1.9) of each glyph's variation data, in the order of the glyph
/// numbers. None for a font without axes.
///
/// # Errors
///
/// `Refused` exactly where the table is longer than 4,294,967,295 bytes, unless memory ran out: of
/// the table's job, with that length.
pub fn variations_table(
    alloc: Global,
    header: &Header,
    parts: &[Arc<Vec<u8>>],
) -> Result<Option<Vec<u8>>, ReadError>
    requires header { IsHeader header.now }
    requires parts { length parts.now ≤ GLYPHS }
    ensures { Gives (option_map (λ table. table.items)) result
        (variations_table header.now (map (λ part. part.value.items) parts.now)) }
{
    if header.axes.is_empty() {
        return Ok(None);
    }
    let model = masters_model(alloc, header)?;
    let shared = &model.supports()[1..];
    match gvar_table(alloc, shared, header.axes.len() as u16, parts) {
        Ok(table) => Ok(Some(table)),
        Err(TableError::TooLarge(length)) => {
            Err(table_refused(alloc, "gvar", Rule::TableTooLarge, length))
        }
        Err(TableError::NoMemory) => Err(ReadError::NoMemory),
    }
}

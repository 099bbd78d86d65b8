ghost use Rattle.std.specs.Prelude.{◌≡◌, IfOk, Ok};
ghost use Rattle.std.specs.Option.{option_map};
ghost use Rattle.refusal_codes.specs.Gives.{Gives};
ghost use Rattle.font_ir.specs.Headers.{IsHeader};
ghost use Rattle.style_tables.specs.Stat.{stat_table};
ghost use Rattle.font_tables.specs.Tables.{metric_variations, style_table, where_axes};

use crate::errors::table_refused;
use crate::glyph_data::masters_model;
use font_ir::{Header, Tag};
use refusal_codes::{NoMemory, ReadError, Rule};
use std::alloc::Global;
use style_tables::{mvar, stat};
use variation_model::DeltaError;

/// The table `MVAR`, which a font has where a metric of it varies.
fn metric_variations(alloc: Global, header: &Header) -> Result<Option<Vec<u8>>, ReadError>
    requires { IsHeader header.now }
    ensures { Gives (option_map (λ table. table.items)) result (metric_variations header.now) }
{
    if header.axes.is_empty() {
        return Ok(None);
    }
    let model = masters_model(alloc, header)?;
    match mvar(alloc, header, &model) {
        Ok(table) => Ok(table),
        Err(DeltaError::TooLarge { .. }) => Err(table_refused(
            alloc,
            "MVAR",
            Rule::DeltaTooLarge,
            header.masters_place,
        )),
        Err(DeltaError::NoMemory) => Err(ReadError::NoMemory),
    }
}

/// The table `STAT`, which a font with axes has.
fn style_attributes(alloc: Global, header: &Header) -> Result<Option<Vec<u8>>, NoMemory>
    requires { IsHeader header.now }
    ensures { IfOk result (λ table. option_map (λ bytes. bytes.items) table
        ≡ where_axes header.now (stat_table header.now)) }
{
    if header.axes.is_empty() {
        return Ok(None);
    }
    Ok(Some(stat(alloc, header)?))
}

/// The table with this tag that is made of the header and the variation model of its masters:
/// `MVAR` or `STAT` (OpenType 1.9). None for another tag, for both in a font without axes, and for
/// `MVAR` where no metric of the whole font varies.
///
/// # Errors
///
/// `Refused` exactly where the table is `MVAR` and a delta of one of its metrics is outside an
/// `i16`, unless memory ran out: of the table's job, at the place of the list of masters.
pub fn style_table(alloc: Global, tag: Tag, header: &Header) -> Result<Option<Vec<u8>>, ReadError>
    requires { IsHeader header.now }
    ensures { Gives (option_map (λ table. table.items)) result (style_table tag header.now) }
{
    if tag.0 == *b"MVAR" {
        metric_variations(alloc, header)
    } else if tag.0 == *b"STAT" {
        Ok(style_attributes(alloc, header)?)
    } else {
        Ok(None)
    }
}

ghost use Rattle.std.specs.Prelude.{◌≡◌, IfOk, Ok};
ghost use Rattle.std.specs.Option.{option_map};
ghost use Rattle.refusal_codes.specs.Gives.{Gives};
ghost use Rattle.font_ir.specs.Headers.{IsHeader};
ghost use Rattle.metrics_tables.specs.Hvar.{AreMeasuresFor};
ghost use Rattle.metrics_tables.specs.Tables.{AreMeasures};
ghost use Rattle.font_tables.specs.Tables.{metrics_table};

use font_ir::{Header, Tag};
use metrics_tables::{Measures, head, hhea, hmtx, hvar, maxp};
use refusal_codes::{NoMemory, ReadError};
use std::alloc::Global;

/// The table with this tag that is made of the header and the measures: `HVAR`, `head`, `hhea`,
/// `hmtx` or `maxp` (OpenType 1.9). None for another tag, and for `HVAR` of a font without axes.
///
/// # Errors
///
/// `NoMemory` where memory runs out.
pub fn metrics_table(
    alloc: Global,
    tag: Tag,
    header: &Header,
    measures: &Measures,
) -> Result<Option<Vec<u8>>, ReadError>
    requires header { IsHeader header.now }
    requires measures { AreMeasures measures.now }
    requires for_header { AreMeasuresFor header.now measures.now }
    ensures { Gives (option_map (λ table. table.items)) result
        (Ok (metrics_table tag header.now measures.now)) }
{
    Ok(metrics_bytes(alloc, tag, header, measures)?)
}

/// The bytes of that table.
fn metrics_bytes(
    alloc: Global,
    tag: Tag,
    header: &Header,
    measures: &Measures,
) -> Result<Option<Vec<u8>>, NoMemory>
    requires header { IsHeader header.now }
    requires measures { AreMeasures measures.now }
    requires for_header { AreMeasuresFor header.now measures.now }
    ensures { IfOk result (λ table. option_map (λ bytes. bytes.items) table
        ≡ metrics_table tag header.now measures.now) }
{
    if tag.0 == *b"HVAR" {
        if header.axes.is_empty() {
            return Ok(None);
        }
        Ok(Some(hvar(alloc, header, measures)?))
    } else if tag.0 == *b"head" {
        Ok(Some(head(alloc, header, measures)?))
    } else if tag.0 == *b"hhea" {
        Ok(Some(hhea(alloc, header, measures)?))
    } else if tag.0 == *b"hmtx" {
        Ok(Some(hmtx(alloc, header, measures)?))
    } else if tag.0 == *b"maxp" {
        Ok(Some(maxp(alloc, header, measures)?))
    } else {
        Ok(None)
    }
}

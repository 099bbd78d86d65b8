ghost use Rattle.std.specs.Prelude.{Ok, Some};
ghost use Rattle.std.specs.Option.{option_map};
ghost use Rattle.refusal_codes.specs.Gives.{Gives};
ghost use Rattle.font_ir.specs.Headers.{IsHeader};
ghost use Rattle.cmap_writer.specs.Cmap.{AreCodes};
ghost use Rattle.metrics_tables.specs.Os2.{os2_table};
ghost use Rattle.metrics_tables.specs.Tables.{AreMeasures};
ghost use Rattle.font_tables.specs.Tables.{code_table};

use crate::errors::table_refused;
use cmap_writer::{CmapError, cmap};
use font_ir::{GlyphOrder, Header};
use metrics_tables::{Measures, os2};
use refusal_codes::{ReadError, Rule};
use std::alloc::Global;

/// The table `cmap` (OpenType 1.9) of the characters, each with its code and the number of its
/// glyph. Each font has it.
///
/// # Errors
///
/// `Refused` exactly where its subtable of format 4 is longer than 65,535 bytes, unless memory ran
/// out: of the table's job, with that length.
pub fn code_table(
    alloc: Global,
    order: &GlyphOrder,
    characters: &[(u32, u16)],
) -> Result<Option<Vec<u8>>, ReadError>
    requires { AreCodes characters.now }
    ensures { Gives (option_map (λ table. table.items)) result (code_table characters.now) }
{
    match cmap(alloc, order, characters) {
        Ok(table) => Ok(Some(table)),
        Err(CmapError::TooLarge(length)) => {
            Err(table_refused(alloc, "cmap", Rule::CmapTooLarge, length))
        }
        Err(CmapError::NoMemory) => Err(ReadError::NoMemory),
    }
}

/// The table `OS/2` (OpenType 1.9) of the header, the measures and the characters. Each font has
/// it.
///
/// # Errors
///
/// `NoMemory` where memory runs out.
pub fn os2_table(
    alloc: Global,
    header: &Header,
    measures: &Measures,
    characters: &[(u32, u16)],
) -> Result<Option<Vec<u8>>, ReadError>
    requires header { IsHeader header.now }
    requires measures { AreMeasures measures.now }
    ensures { Gives (option_map (λ table. table.items)) result
        (Ok (Some (os2_table header.now measures.now characters.now))) }
{
    Ok(Some(os2(alloc, header, measures, characters)?))
}

ghost use Rattle.std.specs.Prelude.{◌≡◌, IfOk, Ok};
ghost use Rattle.std.specs.Option.{option_map};
ghost use Rattle.refusal_codes.specs.Gives.{Gives};
ghost use Rattle.font_ir.specs.Headers.{IsHeader};
ghost use Rattle.font_tables.specs.Tables.{plain_table};

use font_ir::{GlyphOrder, Header, Tag};
use metrics_tables::post;
use name_tables::{avar, fvar, name};
use refusal_codes::{NoMemory, ReadError};
use std::alloc::Global;

/// The table with this tag that is made of the header and the order of the glyphs: `avar`, `fvar`,
/// `name` or `post` (OpenType 1.9). None for another tag, and for `avar` and `fvar` of a font
/// without axes.
///
/// # Errors
///
/// `NoMemory` where memory runs out.
pub fn plain_table(
    alloc: Global,
    tag: Tag,
    header: &Header,
    order: &GlyphOrder,
) -> Result<Option<Vec<u8>>, ReadError>
    requires { IsHeader header.now }
    ensures { Gives (option_map (λ table. table.items)) result
        (Ok (plain_table tag header.now order.now)) }
{
    Ok(plain_bytes(alloc, tag, header, order)?)
}

/// The bytes of that table.
fn plain_bytes(
    alloc: Global,
    tag: Tag,
    header: &Header,
    order: &GlyphOrder,
) -> Result<Option<Vec<u8>>, NoMemory>
    requires { IsHeader header.now }
    ensures { IfOk result (λ table. option_map (λ bytes. bytes.items) table
        ≡ plain_table tag header.now order.now) }
{
    let has_axes = !header.axes.is_empty();
    if tag.0 == *b"avar" {
        if !has_axes {
            return Ok(None);
        }
        Ok(Some(avar(alloc, header)?))
    } else if tag.0 == *b"fvar" {
        if !has_axes {
            return Ok(None);
        }
        Ok(Some(fvar(alloc, header)?))
    } else if tag.0 == *b"name" {
        Ok(Some(name(alloc, header)?))
    } else if tag.0 == *b"post" {
        Ok(Some(post(alloc, header, order)?))
    } else {
        Ok(None)
    }
}

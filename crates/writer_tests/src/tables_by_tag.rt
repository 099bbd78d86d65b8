ghost use Rattle.font_ir.specs.Headers.{IsHeader};

use fixtures::{growing_header, header};
use font_ir::{GlyphOrder, Header, Tag};
use font_tables::{plain_table, style_table};
use refusal_codes::ReadError;
use std::alloc::Global;
use std::test::Fail;

/// Whether a table was made, of these bytes.
fn is_table(answer: Result<Option<Vec<u8>>, ReadError>, expected: &[u8]) -> bool {
    match answer {
        Ok(Some(table)) => table.as_slice() == expected,
        _ => false,
    }
}

/// Whether a font doesn't have a table.
fn is_absent(answer: Result<Option<Vec<u8>>, ReadError>) -> bool {
    matches!(&answer, Ok(None))
}

/// A table that is made of a header and an order, here of no glyphs.
fn plain(alloc: Global, tag: &[u8; 4], header: &Header) -> Result<Option<Vec<u8>>, ReadError>
    requires { IsHeader header.now }
{
    plain_table(alloc, Tag(*tag), header, &GlyphOrder::new(alloc))
}

/// The x-height that grows by 10 units, and the default on the axis wght.
const METRICS: &str = "000100000000000800010014\
    7868677400000000\
    00010000000c000100000016\
    00010001000040004000\
    0001000100010000000a";

const STYLES: &str = "0001000100080001000000140001\
    0000001c0002\
    7767687401000000\
    0002\
    000100000002000201900000";

#[test]
fn a_font_with_an_axis_has_the_tables_of_its_styles(rt: HostRuntime) -> Result<(), Fail> {
    let alloc = rt.alloc();
    let header = growing_header(alloc, 510)?;
    let expected = hex::decode(alloc, METRICS)?;
    assert!(rt;
        is_table(
            style_table(alloc, Tag(*b"MVAR"), &header),
            expected.as_slice()
        )
    );
    let expected = hex::decode(alloc, STYLES)?;
    assert!(rt;
        is_table(
            style_table(alloc, Tag(*b"STAT"), &header),
            expected.as_slice()
        )
    );
    assert!(rt; is_absent(style_table(alloc, Tag(*b"GPOS"), &header)));
    Ok(())
}

#[test]
fn a_font_without_axes_has_no_tables_of_variations(rt: HostRuntime) -> Result<(), Fail> {
    let alloc = rt.alloc();
    let header = header(alloc, 1000)?;
    assert!(rt; is_absent(style_table(alloc, Tag(*b"STAT"), &header)));
    assert!(rt; is_absent(plain(alloc, b"avar", &header)));
    assert!(rt; is_absent(plain(alloc, b"fvar", &header)));
    assert!(rt; !is_absent(plain(alloc, b"name", &header)));
    Ok(())
}

ghost use Rattle.font_ir.specs.Headers.{IsHeader};

use fixtures::{instance, variable_header};
use font_ir::Header;
use name_tables::name;
use std::alloc::Global;
use std::test::Fail;

/// Whether the table name of a header is these bytes.
fn is_name(alloc: Global, header: &Header, expected: &[u8]) -> bool
    requires { IsHeader header.now }
{
    match name(alloc, header) {
        Ok(table) => table.as_slice() == expected,
        Err(_) => false,
    }
}

/// The names of the family Tri in its version 1.0, of its axis Weight and of its instance Medium:
/// the head, eight records, and the texts.
const NAMES: &str = "000000080066\
    000300010409000100060000\
    0003000104090002000e0006\
    000300010409000300220014\
    000300010409000400160036\
    0003000104090005001a004c\
    000300010409000600160066\
    0003000104090100000c007c\
    0003000104090101000c0088\
    005400720069\
    0052006500670075006c00610072\
    0031002e003000300030003b005400720069002d0052006500670075006c00610072\
    00540072006900200052006500670075006c00610072\
    00560065007200730069006f006e00200031002e003000300030\
    005400720069002d0052006500670075006c00610072\
    005700650069006700680074\
    004d0065006400690075006d";

#[test]
fn an_axis_is_named_before_an_instance(rt: HostRuntime) -> Result<(), Fail> {
    let header = variable_header(rt.alloc(), instance(rt.alloc(), 36_044_800)?)?;
    let expected = hex::decode(rt.alloc(), NAMES)?;
    assert!(rt; is_name(rt.alloc(), &header, expected.as_slice()));
    Ok(())
}

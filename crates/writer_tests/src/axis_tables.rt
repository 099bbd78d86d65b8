ghost use Rattle.font_ir.specs.Headers.{IsHeader};

use fixtures::{instance, variable_header};
use font_ir::Header;
use name_tables::{avar, fvar};
use plain_lists::Sequence;
use std::alloc::Global;
use std::test::Fail;

/// Whether the table fvar of a header is these bytes.
fn is_fvar(alloc: Global, header: &Header, expected: &[u8]) -> bool
    requires { IsHeader header.now }
{
    match fvar(alloc, header) {
        Ok(table) => table.as_slice() == expected,
        Err(_) => false,
    }
}

/// Whether the table avar of a header is these bytes.
fn is_avar(alloc: Global, header: &Header, expected: &[u8]) -> bool
    requires { IsHeader header.now }
{
    match avar(alloc, header) {
        Ok(table) => table.as_slice() == expected,
        Err(_) => false,
    }
}

/// The axis wght from 400, the default, to 700.
const AXIS: &str = "00010000001000020001001400000008\
    77676874019000000190000002bc000000000100";

/// The same axis, and an instance at 550.
const AXIS_AND_INSTANCE: &str = "00010000001000020001001400010008\
    77676874019000000190000002bc000000000100\
    0101000002260000";

/// The pairs of the ends and of the default.
const PAIRS: &str = "00010000000000010003c000c0000000000040004000";

#[test]
fn an_axis_from_400_to_700_has_these_tables(rt: HostRuntime) -> Result<(), Fail> {
    let header = variable_header(rt.alloc(), Sequence::new(rt.alloc()))?;
    let expected = hex::decode(rt.alloc(), AXIS)?;
    assert!(rt; is_fvar(rt.alloc(), &header, expected.as_slice()));
    let expected = hex::decode(rt.alloc(), PAIRS)?;
    assert!(rt; is_avar(rt.alloc(), &header, expected.as_slice()));
    Ok(())
}

#[test]
fn an_instance_lies_at_its_user_coordinates(rt: HostRuntime) -> Result<(), Fail> {
    let header = variable_header(rt.alloc(), instance(rt.alloc(), 36_044_800)?)?;
    let expected = hex::decode(rt.alloc(), AXIS_AND_INSTANCE)?;
    assert!(rt; is_fvar(rt.alloc(), &header, expected.as_slice()));
    Ok(())
}

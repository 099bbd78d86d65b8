ghost use Rattle.font_ir.specs.Headers.{IsHeader};

use fixtures::{instance, variable_header};
use font_ir::Header;
use plain_lists::Sequence;
use std::alloc::Global;
use std::test::Fail;
use style_tables::stat;

/// Whether the table STAT of a header is these bytes.
fn is_stat(alloc: Global, header: &Header, expected: &[u8]) -> bool
    requires { IsHeader header.now }
{
    match stat(alloc, header) {
        Ok(table) => table.as_slice() == expected,
        Err(_) => false,
    }
}

/// The axis wght, and a value for its default, 400.
const AXIS: &str = "0001000100080001000000140001\
    0000001c0002\
    7767687401000000\
    0002\
    000100000002000201900000";

/// The same, and a value for an instance at 550.
const AXIS_AND_INSTANCE: &str = "0001000100080001000000140002\
    0000001c0002\
    7767687401000000\
    00040010\
    000100000002000201900000\
    000100000000010102260000";

#[test]
fn the_default_has_a_value(rt: HostRuntime) -> Result<(), Fail> {
    let header = variable_header(rt.alloc(), Sequence::new(rt.alloc()))?;
    let expected = hex::decode(rt.alloc(), AXIS)?;
    assert!(rt; is_stat(rt.alloc(), &header, expected.as_slice()));
    Ok(())
}

#[test]
fn an_instance_has_a_value_unless_it_is_the_default(rt: HostRuntime) -> Result<(), Fail> {
    let header = variable_header(rt.alloc(), instance(rt.alloc(), 36_044_800)?)?;
    let expected = hex::decode(rt.alloc(), AXIS_AND_INSTANCE)?;
    assert!(rt; is_stat(rt.alloc(), &header, expected.as_slice()));
    let header = variable_header(rt.alloc(), instance(rt.alloc(), 26_214_400)?)?;
    let expected = hex::decode(rt.alloc(), AXIS)?;
    assert!(rt; is_stat(rt.alloc(), &header, expected.as_slice()));
    Ok(())
}

use std::test::Fail;
use table_bytes::{padding, push_int16, push_uint16, push_uint32, push_zeros};

#[test]
fn the_highest_byte_stands_first(rt: HostRuntime) -> Result<(), Fail> {
    let mut bytes = Vec::new(rt.alloc());
    push_uint16(&mut bytes, 1000)?;
    push_int16(&mut bytes, -200)?;
    push_uint32(&mut bytes, 0x5F0F3CF5)?;
    push_zeros(&mut bytes, padding(54))?;
    let expected = [0x03, 0xe8, 0xff, 0x38, 0x5f, 0x0f, 0x3c, 0xf5, 0, 0];
    assert_eq!(rt; bytes.as_slice(), expected.as_slice());
    Ok(())
}

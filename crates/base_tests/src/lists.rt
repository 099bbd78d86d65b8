use plain_lists::{Sequence, Text};
use std::test::Fail;

#[test]
fn a_sequence_gives_its_vector_back(rt: HostRuntime) -> Result<(), Fail> {
    let mut sequence = Sequence::from_vec(vec![in rt.alloc(); 1u8, 2]?);
    sequence.push(3)?;
    let same = Sequence::from_vec(vec![in rt.alloc(); 1u8, 2, 3]?);
    assert!(rt; sequence == same && sequence.len() == 3);
    assert!(rt; sequence.into_vec().as_slice() == [1, 2, 3].as_slice());
    Ok(())
}

#[test]
fn texts_are_compared_by_their_bytes(rt: HostRuntime) -> Result<(), Fail> {
    let a = Text::from_string(String::from_str(rt.alloc(), "a")?);
    let b = Text::from_string(String::from_str(rt.alloc(), "B")?);
    let copy = a.copy(rt.alloc())?;
    assert!(rt; b < a && copy == a && a.len() == 1);
    assert!(rt; copy.into_string().as_str() == "a");
    Ok(())
}

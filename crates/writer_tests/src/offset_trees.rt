use plain_lists::Sequence;
use std::alloc::Global;
use std::test::Fail;
use table_tree::{Field, LayoutError, Node, layout, length};

/// A node of one byte.
fn byte(alloc: Global, n: u8) -> Result<Node, Fail> {
    let mut fields = Vec::new(alloc);
    fields.push(Field::U8(n))?;
    Ok(Node::new(fields))
}

/// So many zeros.
fn zeros(alloc: Global, count: usize) -> Result<Field, Fail> {
    Ok(Field::Bytes(Sequence::from_vec(vec![in alloc; 0; count]?)))
}

#[test]
fn equal_siblings_stand_once(rt: HostRuntime) -> Result<(), Fail> {
    let alloc = rt.alloc();
    let mut fields = Vec::new(alloc);
    fields.push(Field::U16(1))?;
    fields.push(Field::Off16(byte(alloc, 7)?))?;
    fields.push(Field::Off32(byte(alloc, 7)?))?;
    fields.push(Field::Far32(byte(alloc, 9)?))?;
    fields.push(Field::Null16)?;
    fields.push(Field::Null32)?;
    let tree = Node::new(fields);
    let bytes = layout(alloc, &tree)?;
    let expected = [
        0, 1, 0, 18, 0, 0, 0, 18, 0, 0, 0, 19, 0, 0, 0, 0, 0, 0, 7, 9,
    ];
    assert_eq!(rt; bytes.as_slice(), expected.as_slice());
    assert_eq!(rt; length(alloc, &tree)?, 20);
    Ok(())
}

#[test]
fn a_far_offset_counts_from_its_own_node(rt: HostRuntime) -> Result<(), Fail> {
    let alloc = rt.alloc();
    let mut inner = Vec::new(alloc);
    inner.push(Field::Far32(byte(alloc, 2)?))?;
    let mut fields = Vec::new(alloc);
    fields.push(Field::Off16(Node::new(inner)))?;
    fields.push(Field::Far32(byte(alloc, 1)?))?;
    let bytes = layout(alloc, &Node::new(fields))?;
    let expected = [0, 6, 0, 0, 0, 10, 0, 0, 0, 5, 1, 2];
    assert_eq!(rt; bytes.as_slice(), expected.as_slice());
    Ok(())
}

#[test]
fn the_store_of_a_font_with_one_region(rt: HostRuntime) -> Result<(), Fail> {
    let alloc = rt.alloc();
    let mut regions = Vec::new(alloc);
    for number in [1, 1, 0, 16384, 16384] {
        regions.push(Field::U16(number))?;
    }
    let mut rows = Vec::new(alloc);
    for number in [2, 1, 1, 0, 0, 20] {
        rows.push(Field::U16(number))?;
    }
    let mut fields = Vec::new(alloc);
    fields.push(Field::U16(1))?;
    fields.push(Field::Off32(Node::new(regions)))?;
    fields.push(Field::U16(1))?;
    fields.push(Field::Off32(Node::new(rows)))?;
    let bytes = layout(alloc, &Node::new(fields))?;
    let expected = [
        0, 1, 0, 0, 0, 12, 0, 1, 0, 0, 0, 22, 0, 1, 0, 1, 0, 0, 64, 0, 64, 0, 0, 2, 0, 1, 0, 1, 0,
        0, 0, 0, 0, 20,
    ];
    assert_eq!(rt; bytes.as_slice(), expected.as_slice());
    Ok(())
}

/// The offset that a tree is refused for, 0 where it is not.
fn refused(alloc: Global, tree: &Node) -> Result<u64, Fail> {
    match layout(alloc, tree) {
        Ok(_) => Ok(0),
        Err(LayoutError::Offset(n)) => Ok(n),
        Err(e) => Err(Fail::from(e)),
    }
}

#[test]
fn an_offset16_leads_at_most_65535_bytes_on(rt: HostRuntime) -> Result<(), Fail> {
    let alloc = rt.alloc();
    for (count, offset, bytes) in [(65528, 0, 65536), (65529, 65536, 65537)] {
        let mut fields = Vec::new(alloc);
        fields.push(Field::Off32(byte(alloc, 7)?))?;
        fields.push(Field::Off16(byte(alloc, 8)?))?;
        fields.push(zeros(alloc, count)?)?;
        let tree = Node::new(fields);
        assert_eq!(rt; refused(alloc, &tree)?, offset);
        assert_eq!(rt; length(alloc, &tree)?, bytes);
    }
    Ok(())
}

#[test]
fn of_two_large_offsets_the_one_that_stands_first_is_told(rt: HostRuntime) -> Result<(), Fail> {
    let alloc = rt.alloc();
    let mut large = Vec::new(alloc);
    large.push(zeros(alloc, 65600)?)?;
    let mut inner = Vec::new(alloc);
    inner.push(Field::Off16(Node::new(large)))?;
    inner.push(Field::Off16(byte(alloc, 1)?))?;
    let mut fields = Vec::new(alloc);
    fields.push(Field::Off16(Node::new(inner)))?;
    fields.push(Field::Off16(byte(alloc, 2)?))?;
    assert_eq!(rt; refused(alloc, &Node::new(fields))?, 65609);
    Ok(())
}

#[test]
fn twenty_thousand_children_of_which_half_are_equal(rt: HostRuntime) -> Result<(), Fail> {
    let alloc = rt.alloc();
    let mut fields = Vec::new(alloc);
    for i in 0..20000u32 {
        let mut child = Vec::new(alloc);
        child.push(Field::U32(i % 10000))?;
        fields.push(Field::Off32(Node::new(child)))?;
    }
    assert_eq!(rt; length(alloc, &Node::new(fields))?, 120000);
    Ok(())
}

/// A node with one field.
fn one_field(alloc: Global, field: Field) -> Result<Node, Fail> {
    let mut fields = Vec::new(alloc);
    fields.push(field)?;
    Ok(Node::new(fields))
}

#[test]
fn nodes_are_equal_where_their_fields_are(rt: HostRuntime) -> Result<(), Fail> {
    let alloc = rt.alloc();
    let tree = one_field(alloc, Field::Off16(byte(alloc, 2)?))?;
    let same = one_field(alloc, Field::Off16(byte(alloc, 2)?))?;
    let other_child = one_field(alloc, Field::Off16(byte(alloc, 3)?))?;
    let wider = one_field(alloc, Field::Off32(byte(alloc, 2)?))?;
    let equal = tree == same;
    let unequal = tree == other_child || tree == wider || wider == tree;
    assert!(rt; equal && !unequal);
    Ok(())
}

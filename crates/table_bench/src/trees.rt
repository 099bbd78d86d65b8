// Trees of offsets.

use refusal_codes::NoMemory;
use std::alloc::{AllocError, Global};
use table_tree::{Field, LayoutError, Node, layout};

/// A child: a node of one number.
fn child(alloc: Global, number: u16) -> Result<Node, AllocError> {
    Ok(Node::new(vec![in alloc; Field::U16(number)]?))
}

/// A tree with so many children, of which each one in the second half is equal to one in the first.
fn tree(alloc: Global, children: u16) -> Result<Node, AllocError> {
    let half = children.div_ceil(2);
    let mut fields = Vec::with_capacity(alloc, children as usize)?;
    for k in 0..children {
        let number = if k < half { k } else { k - half };
        fields.push(Field::Off32(child(alloc, number)?))?;
    }
    Ok(Node::new(fields))
}

/// Lays a tree with so many children out so many times. Answers how many bytes it has.
pub fn layouts(alloc: Global, children: u16, times: u32) -> Result<usize, NoMemory> {
    let tree = tree(alloc, children)?;
    let mut bytes = 0;
    for _time in 0..times {
        bytes = match layout(alloc, &tree) {
            Ok(table) => table.len(),
            Err(LayoutError::Offset(_)) => 0,
            Err(LayoutError::NoMemory) => return Err(NoMemory),
        };
    }
    Ok(bytes)
}

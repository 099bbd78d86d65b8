ghost use Rattle.std.specs.Prelude.{◌≡◌};

use plain_lists::Sequence;
use std::marker::Model;

/// A node of a tree of offsets: its fields, in order.
#[derive(Debug, Drop)]
#[cycle(node)]
pub struct Node {
    fields: Vec<Field>,
}

/// A field of a node (OpenType 1.9, "Data types").
#[derive(Debug, Drop)]
#[cycle(node)]
pub enum Field {
    U8(u8),
    U16(u16),
    U32(u32),
    Bytes(Sequence<u8>),
    /// An Offset16 to a node.
    Off16(Node),
    /// An Offset32 to a node.
    Off32(Node),
    /// An Offset32 to a node that stands behind the whole near part of the tree.
    Far32(Node),
    /// An Offset16 to nothing.
    Null16,
    /// An Offset32 to nothing.
    Null32,
}

impl Model for Node {
    ghost use Rattle.table_tree.specs.Trees.{Tree, tree_size, tree_code};

    ghost Value = { Tree };

    ghost coded = { tree_code };

    ghost use Rattle.table_tree.specs.TreeOf.{tree_of};

    ghost view = { λ n. tree_of n.fields.items };

    ghost size = { tree_size };

    ghost use Rattle.table_tree.specs.TreeFalls.{most_le_size};
    ghost use Rattle.std.proofs.Common.{arith};

    ghost size_decreases = { λ a h. omega (arith, most_le_size a.fields.items) };
}

impl Node {
    ghost use Rattle.table_tree.specs.TreeOf.{tree_of};

    /// The node of these fields. It takes no memory.
    pub fn new(fields: Vec<Field>) -> Node
        ensures { result ≡ tree_of fields.items }
    {
        Node { fields }
    }

    /// The fields, in order.
    pub fn fields(&self) -> &[Field]
        ensures { tree_of result.now ≡ self.now }
    {
        self.fields.as_slice()
    }
}

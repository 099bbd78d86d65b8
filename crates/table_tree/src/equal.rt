ghost use Rattle.std.specs.Prelude.{◌≡◌};
ghost use Rattle.table_tree.specs.Equal.{tree_eq, field_eq};

use crate::node::{Field, Node};

/// Two nodes are equal where they have equal fields in the same order, so one spelling.
impl PartialEq for Node {
    ghost use Rattle.std.specs.Cmp.{partial_equiv_from_equiv};
    ghost use Rattle.table_tree.specs.Equal.{tree_eq, tree_eq_equiv};

    ghost eq = { tree_eq };

    ghost laws = { partial_equiv_from_equiv tree_eq_equiv };

    fn eq(&self, other: &Self) -> bool {
        nodes_equal(self, other)
    }
}

impl Eq for Node {
    ghost use Rattle.table_tree.specs.Equal.{tree_eq_equiv};

    ghost laws = { tree_eq_equiv };
}

/// Whether two nodes are equal.
#[cycle(equal)]
fn nodes_equal(a: &Node, b: &Node) -> bool
    ensures { result ≡ tree_eq a.now b.now }
{
    let fields = a.fields();
    let others = b.fields();
    if fields.len() != others.len() {
        return false;
    }
    for (i, field) in fields.iter().enumerate() {
        if !fields_equal(field, &others[i]) {
            return false;
        }
    }
    true
}

/// Whether two fields are equal.
#[cycle(equal)]
fn fields_equal(a: &Field, b: &Field) -> bool
    ensures { result ≡ field_eq a.now b.now }
{
    match a {
        Field::U8(m) => matches!(b, Field::U8(n) if n == m),
        Field::U16(m) => matches!(b, Field::U16(n) if n == m),
        Field::U32(m) => matches!(b, Field::U32(n) if n == m),
        Field::Bytes(content) => match b {
            Field::Bytes(other) => content.as_slice() == other.as_slice(),
            _ => false,
        },
        Field::Off16(node) => match b {
            Field::Off16(other) => nodes_equal(node, other),
            _ => false,
        },
        Field::Off32(node) => match b {
            Field::Off32(other) => nodes_equal(node, other),
            _ => false,
        },
        Field::Far32(node) => match b {
            Field::Far32(other) => nodes_equal(node, other),
            _ => false,
        },
        Field::Null16 => matches!(b, Field::Null16),
        Field::Null32 => matches!(b, Field::Null32),
    }
}

ghost use Rattle.std.specs.Prelude.{◌≡◌};
ghost use Rattle.std.specs.Cmp.{on_equiv, partial_equiv_from_equiv};
ghost use Rattle.std.specs.Ordering.{on};
ghost use Rattle.plist_reader.specs.Same.{same_value, same_node, same_value_equiv, same_node_equiv};
ghost use Rattle.plist_reader.specs.Stored.{seen, seen_node};

use crate::nodes::Nodes;
use plain_lists::{Sequence, Text};

/// What a value is, as contracts see it and as it is put into a tree. Values inside it are named by
/// their numbers in the tree. A caller borrows a `ValueRef`.
#[derive(Debug, PartialEq, Eq, Drop)]
pub enum TreeValue {
    /// A bare word or a quoted string, its escapes undone.
    Text(Text),
    /// A byte string.
    Bytes(Sequence<u8>),
    /// A list: its values in order.
    Items(Sequence<u32>),
    /// A dictionary: each key, which is a text, and its value, in order.
    Pairs(Sequence<(u32, u32)>),
}

/// A value and where it stands in the source, as contracts see it. A caller borrows a `NodeRef`.
#[derive(Debug, PartialEq, Eq, Drop)]
pub struct TreeNode {
    /// The place of its first byte, counted from 0.
    pub place: u64,
    /// The place behind its last byte.
    pub end: u64,
    /// What it is.
    pub value: TreeValue,
}

/// A value of a tree, borrowed.
#[derive(Clone, Copy, Debug)]
pub enum ValueRef<'t> {
    /// A bare word or a quoted string, its escapes undone.
    Text(&'t str),
    /// A byte string.
    Bytes(&'t [u8]),
    /// A list: its values in order.
    Items(&'t [u32]),
    /// A dictionary: each key, which is a text, and its value, in order.
    Pairs(&'t [(u32, u32)]),
}

/// A node of a tree, borrowed.
#[derive(Clone, Copy, Debug)]
pub struct NodeRef<'t> {
    /// The place of its first byte, counted from 0.
    pub place: u64,
    /// The place behind its last byte.
    pub end: u64,
    /// What it is.
    pub value: ValueRef<'t>,
}

/// Two are equal where they are of one kind and hold the same.
impl PartialEq for ValueRef<'_> {
    ghost eq = { on seen same_value };

    ghost laws = { partial_equiv_from_equiv (on_equiv seen same_value_equiv) };

    fn eq(&self, other: &Self) -> bool {
        match (*self, *other) {
            (ValueRef::Text(own), ValueRef::Text(others)) => own.as_bytes() == others.as_bytes(),
            (ValueRef::Bytes(own), ValueRef::Bytes(others)) => own == others,
            (ValueRef::Items(own), ValueRef::Items(others)) => own == others,
            (ValueRef::Pairs(own), ValueRef::Pairs(others)) => own == others,
            _ => false,
        }
    }
}

impl Eq for ValueRef<'_> {
    ghost laws = { on_equiv seen same_value_equiv };
}

/// Two are equal where their places, their ends and their values are.
impl PartialEq for NodeRef<'_> {
    ghost eq = { on seen_node same_node };

    ghost laws = { partial_equiv_from_equiv (on_equiv seen_node same_node_equiv) };

    fn eq(&self, other: &Self) -> bool {
        self.place == other.place && self.end == other.end && self.value == other.value
    }
}

impl Eq for NodeRef<'_> {
    ghost laws = { on_equiv seen_node same_node_equiv };
}

/// A property list. Its values are numbered in the order in which they end, so each value stands
/// behind those in it.
#[derive(Debug, PartialEq, Eq, Drop)]
pub struct Tree {
    /// All values, keys of dictionaries among them, by their numbers.
    pub nodes: Nodes,
    /// The number of the whole value.
    pub top: u32,
}

impl Tree {
    ghost use Rattle.plist_reader.specs.Tree.{find_in, value_with, is_key};

    /// The number of the value that the dictionary `pairs` has under this key; `None` where it has
    /// none, where `pairs` is no dictionary, or where no value has that number. It takes no memory.
    pub fn find(&self, pairs: u32, key: &[u8]) -> Option<u32>
        ensures { result ≡ find_in self.now pairs key.now }
    {
        match self.nodes.get(pairs)?.value {
            ValueRef::Pairs(pairs) => self.value_with(pairs, key),
            _ => None,
        }
    }

    /// The value of the first of these pairs with this key.
    fn value_with(&self, pairs: &[(u32, u32)], key: &[u8]) -> Option<u32>
        ensures { result ≡ value_with self.now key.now pairs.now }
    {
        for pair in pairs {
            if self.is_key(pair.0, key) {
                return Some(pair.1);
            }
        }
        None
    }

    /// Whether the value with this number is a text with these bytes.
    fn is_key(&self, number: u32, key: &[u8]) -> bool
        ensures { result ≡ is_key self.now key.now number }
    {
        self.nodes.is_text(number, key)
    }
}

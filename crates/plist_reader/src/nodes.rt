ghost use Rattle.std.specs.Prelude.{◌≡◌, ◌==◌, [], ◌∷◌, ◌++◌, length, option_map, slice_get, OnOk};
ghost use Rattle.std.specs.Prelude.{OnErr};
ghost use Rattle.std.specs.Cmp.{partial_equiv_from_equiv};
ghost use Rattle.std.specs.Cmp.Lexicographic.{pointwise};
ghost use Rattle.plist_reader.specs.Grammar.{node};
ghost use Rattle.plist_reader.specs.Same.{same_node, same_nodes_equiv};
ghost use Rattle.plist_reader.specs.Stored.{seen_node};
ghost use Rattle.plist_reader.specs.Tree.{text_at, spells};

use crate::pools::{Content, Pools};
use crate::tree::{NodeRef, TreeValue};
use std::alloc::{AllocError, Global};
use std::marker::Model;

/// A value as it is stored: where it stands in the source, and where what it holds lies.
#[derive(Clone, Copy, Debug)]
struct StoredNode {
    place: u32,
    end: u32,
    content: Content,
}

/// The values of a tree, in a form that takes little memory: 20 bytes for a value, beside what it
/// holds. A contract sees them as a list of nodes.
#[derive(Debug, Drop)]
pub struct Nodes {
    stored: Vec<StoredNode>,
    pools: Pools,
}

impl Model for Nodes {
    ghost use Rattle.std.specs.Prelude.{List, map};
    ghost use Rattle.std.specs.List.{All};
    ghost use Rattle.plist_reader.specs.declared.tree.TreeNode.{TreeNode};

    ghost Value = { List TreeNode };

    ghost use Rattle.plist_reader.specs.Stored.{node_of, IsIn};

    ghost view = { λ s. map (node_of s.pools) s.stored.items };

    ghost invariant = { λ s. All (λ node. IsIn s.pools node.content) s.stored.items };
}

impl Nodes {
    /// No values. It takes no memory.
    pub(crate) fn new(alloc: Global) -> Self
        ensures { result ≡ [] }
    {
        Nodes {
            stored: Vec::new(alloc),
            pools: Pools::new(alloc),
        }
    }

    /// How many values there are.
    pub fn len(&self) -> usize
        ensures { result ≡ length self.now }
    {
        self.stored.len()
    }

    /// Whether there is no value.
    pub fn is_empty(&self) -> bool
        ensures { result ≡ (length self.now == 0) }
    {
        self.stored.is_empty()
    }

    /// The value with this number; `None` where no value has it.
    pub fn get(&self, number: u32) -> Option<NodeRef<'_>>
        ensures { option_map seen_node result ≡ slice_get self.now number }
    {
        self.node(number as usize)
    }

    /// The value at an index.
    fn node(&self, index: usize) -> Option<NodeRef<'_>>
        ensures { option_map seen_node result ≡ slice_get self.now index }
    {
        let node = self.stored.as_slice().get(index)?;
        Some(NodeRef {
            place: u64::from(node.place),
            end: u64::from(node.end),
            value: self.pools.value(node.content),
        })
    }

    /// Whether the value with this number is a text with these bytes.
    pub fn is_text(&self, number: u32, bytes: &[u8]) -> bool
        ensures { result ≡ spells bytes.now (text_at self.now number) }
    {
        match self.stored.as_slice().get(number as usize) {
            Some(node) => self.pools.is_text(node.content, bytes),
            None => false,
        }
    }

    /// Adds a value at the end. Where memory runs out, the values are as before.
    pub(crate) fn push(&mut self, place: u32, end: u32, value: &TreeValue) -> Result<(), AllocError>
        ensures ok { OnOk result (self.new ≡ self.old ++ node place end value.now ∷ []) }
        ensures err { OnErr result (self.new ≡ self.old) }
    {
        let content = self.pools.store(value)?;
        self.stored.push(StoredNode {
            place,
            end,
            content,
        })?;
        Ok(())
    }
}

impl PartialEq for Nodes {
    ghost eq = { pointwise same_node };

    ghost laws = { partial_equiv_from_equiv same_nodes_equiv };

    fn eq(&self, other: &Self) -> bool {
        if self.len() != other.len() {
            return false;
        }
        for index in 0..self.len() {
            if self.node(index) != other.node(index) {
                return false;
            }
        }
        true
    }
}

impl Eq for Nodes {
    ghost laws = { same_nodes_equiv };
}

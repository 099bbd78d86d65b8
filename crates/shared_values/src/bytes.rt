ghost use Rattle.std.specs.Prelude.{◌≡◌, nat_eq, length, ◌==◌};
ghost use Rattle.std.specs.Arc.{arc_value};
ghost use Rattle.std.specs.Cmp.{partial_equiv_from_equiv};
ghost use Rattle.std.specs.Cmp.Lexicographic.{pointwise, nat_list_eq_equiv};

use std::marker::Model;
use std::sync::Arc;

/// Bytes that are shared, and not copied. A contract sees them as the list of the bytes: where they
/// lie, and how much room there is, says nothing.
#[derive(Debug, Drop)]
pub struct SharedBytes {
    bytes: Arc<Vec<u8>>,
}

impl Model for SharedBytes {
    ghost use Rattle.std.specs.Prelude.{List, ℕ};
    ghost use Rattle.std.specs.Arc.{arc_value};

    ghost Value = { List ℕ };

    ghost view = { λ s. (arc_value s.bytes).items };
}

impl SharedBytes {
    /// The bytes that a pointer leads to. It takes no memory.
    pub fn of(bytes: Arc<Vec<u8>>) -> Self
        ensures { result ≡ (arc_value bytes).items }
    {
        SharedBytes { bytes }
    }

    /// The pointer. It takes no memory.
    pub fn arc(&self) -> &Arc<Vec<u8>>
        ensures { (arc_value result.now).items ≡ self.now }
    {
        &self.bytes
    }

    /// The bytes. It takes no memory.
    pub fn as_slice(&self) -> &[u8]
        ensures { result.now ≡ self.now }
    {
        self.bytes.as_slice()
    }

    /// How many bytes there are. It takes no memory.
    pub fn len(&self) -> usize
        ensures { result ≡ length self.now }
    {
        self.bytes.len()
    }

    /// Whether there is no byte. It takes no memory.
    pub fn is_empty(&self) -> bool
        ensures { result ≡ (length self.now == 0) }
    {
        self.bytes.is_empty()
    }
}

impl PartialEq for SharedBytes {
    ghost eq = { pointwise nat_eq };

    ghost laws = { partial_equiv_from_equiv nat_list_eq_equiv };

    fn eq(&self, other: &Self) -> bool {
        self.as_slice() == other.as_slice()
    }
}

impl Eq for SharedBytes {
    ghost laws = { nat_list_eq_equiv };
}

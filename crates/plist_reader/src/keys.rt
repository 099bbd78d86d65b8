ghost use Rattle.std.specs.Prelude.{◌≡◌, [], ◌∷◌, ◌++◌, not, if◌then◌else◌, IfOk};

use indexmap::IndexSet;
use plain_lists::Text;
use std::alloc::{AllocFailed, Global};
use std::marker::Model;

/// The keys of a dictionary that is being read. A contract sees them as the list of their bytes, in
/// order.
#[derive(Drop)]
pub(crate) struct Keys {
    texts: IndexSet<Text>,
}

impl Model for Keys {
    ghost use Rattle.std.specs.Prelude.{List, ℕ};

    ghost Value = { List (List ℕ) };

    ghost view = { λ k. k.texts.keys };
}

impl Keys {
    ghost use Rattle.plist_reader.specs.Keys.{is_among};

    /// No keys. It takes no memory.
    pub(crate) fn new(alloc: Global) -> Self
        ensures { result ≡ [] }
    {
        Keys {
            texts: IndexSet::new(alloc),
        }
    }

    /// Adds a key at the end, unless it is there. The answer says whether it is new.
    pub(crate) fn insert(&mut self, key: Text) -> Result<bool, AllocFailed<Text>>
        ensures added { IfOk result (λ added. added ≡ not (is_among key self.old)) }
        ensures keys { IfOk result (λ added. self.new
            ≡ (if added then self.old ++ key ∷ [] else self.old)) }
    {
        self.texts.insert(key)
    }
}

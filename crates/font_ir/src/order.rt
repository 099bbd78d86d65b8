ghost use Rattle.std.specs.Prelude.{◌≡◌, ◌≤◌, ◌<◌, ◌++◌, [], ◌∷◌, ℕ, length, map, not, is_some};
ghost use Rattle.std.specs.Prelude.{slice_get, slice_index_or, IfOk, IfSome, OnErr, nat_eq, cond};
ghost use Rattle.std.specs.List.{list_any};
ghost use Rattle.std.specs.Cmp.Lexicographic.{pointwise};
ghost use Rattle.std.specs.Cmp.{partial_equiv_from_equiv};
ghost use Rattle.refusal_codes.specs.declared.limits.TheConstants.{GLYPHS, NAME_BYTES};
ghost use Rattle.font_ir.specs.Glyphs.{gid_of, orders_eq, orders_equiv, IsGlyphOrder};

use indexmap::IndexSet;
use refusal_codes::NoMemory;
use std::alloc::Global;
use std::marker::Model;

/// The glyphs of the font, in the order of their glyph numbers: at most 65,535, with different
/// names of at most 255 bytes.
///
/// A glyph has its place in the source's list of glyphs as its number; `None` is a `.notdef` that
/// the compiler made.
#[derive(Debug, Drop)]
pub struct GlyphOrder {
    numbers: Vec<Option<u32>>,
    names: IndexSet<Vec<u8>>,
}

impl Model for GlyphOrder {
    ghost use Rattle.std.specs.Prelude.{map, length, ◌≡◌, ◌≤◌};
    ghost use Rattle.font_ir.specs.Glyphs.{Glyphs, IsGlyphOrder};

    ghost Value = { Glyphs };

    ghost view = { λ order. record {
      numbers = order.numbers.items;
      names
          = map (λ name. name.items) order.names.keys;
    } };

    ghost invariant = { λ order. IsGlyphOrder
        (record {
          numbers = order.numbers.items;
          names
              = map (λ name. name.items) order.names.keys;
        }) };
}

impl GlyphOrder {
    /// The order without glyphs. It takes no memory.
    pub fn new(alloc: Global) -> Self
        ensures numbers { result.numbers ≡ [] }
        ensures names { result.names ≡ [] }
    {
        GlyphOrder {
            numbers: Vec::new(alloc),
            names: IndexSet::new(alloc),
        }
    }

    /// How many glyphs there are, at most 65,535.
    pub fn len(&self) -> usize
        ensures len { result ≡ length self.now.names }
        ensures valid { IsGlyphOrder self.now }
    {
        self.numbers.len()
    }

    /// The numbers, in order.
    pub fn numbers(&self) -> &[Option<u32>]
        ensures { result.now ≡ self.now.numbers }
    {
        self.numbers.as_slice()
    }

    /// The names, in order.
    pub fn names(&self) -> &[Vec<u8>]
        ensures { map (λ name. name.items) result.now ≡ self.now.names }
    {
        self.names.as_slice()
    }

    /// The glyph number of a name, found without a scan. It takes no memory.
    pub fn gid(&self, name: &[u8]) -> Option<u16>
        ensures { result ≡ gid_of self.now.names name.now }
    {
        match self.names.get_index_of(name) {
            Some(index) => Some(index as u16),
            None => None,
        }
    }

    /// Adds a glyph at the end, unless its name is there: then the answer is false and nothing
    /// changes. Nor does it where memory runs out. The name has at most 255 bytes.
    pub fn push(
        &mut self,
        alloc: Global,
        number: Option<u32>,
        name: &[u8],
    ) -> Result<bool, NoMemory>
        requires room { length self.old.names < GLYPHS }
        requires short { length name.now ≤ NAME_BYTES }
        ensures added { IfOk result (λ added. added
            ≡ not (is_some (gid_of self.old.names name.now))) }
        ensures ok { IfOk result (λ added. self.new
            ≡ (cond added (record {
              numbers = self.old.numbers ++ number
                  ∷ [];
              names = self.old.names ++ name.now ∷ [];
            }) self.old)) }
        ensures err { OnErr result (self.new ≡ self.old) }
    {
        self.numbers.reserve(1)?;
        let name = Vec::from_slice(alloc, name)?;
        let added = self.names.insert(name)?;
        if added {
            self.numbers.push(number)?;
        }
        Ok(added)
    }
}

/// Two orders are equal where they have the same glyphs in the same order.
impl PartialEq for GlyphOrder {
    ghost eq = { orders_eq };

    ghost laws = { partial_equiv_from_equiv orders_equiv };

    fn eq(&self, other: &Self) -> bool {
        self.numbers.as_slice() == other.numbers.as_slice()
            && self.names.as_slice() == other.names.as_slice()
    }
}

impl Eq for GlyphOrder {
    ghost laws = { orders_equiv };
}

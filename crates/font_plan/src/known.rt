//! Values with what is known of them.

ghost use Rattle.std.specs.Prelude.{◌≡◌};
ghost use Rattle.plist_reader.specs.Tree.{IsTree};
ghost use Rattle.font_ir.specs.FlatGlyphs.{IsFlatGlyph};
ghost use Rattle.font_ir.specs.Headers.{IsHeader};
ghost use Rattle.font_ir.specs.ReadGlyphs.{IsReadGlyph};
ghost use Rattle.metrics_tables.specs.Tables.{AreMeasures};
ghost use Rattle.font_plan.specs.Known.{IsIndex};

use font_ir::{FlatGlyph, GlyphIr, Header};
use glyphs_source::GlyphIndex;
use metrics_tables::Measures;
use plist_reader::Tree;
use shared_values::Shared;
use std::marker::Model;

/// What holds of each value that a job makes.
pub trait Fact {
    ghost holds: { Self → Type 0 };
}

impl Fact for Tree {
    ghost holds = { IsTree };
}

impl Fact for Header {
    ghost holds = { IsHeader };
}

impl Fact for GlyphIndex {
    ghost holds = { IsIndex };
}

impl Fact for GlyphIr {
    ghost holds = { IsReadGlyph };
}

impl Fact for Shared<FlatGlyph> {
    ghost holds = { IsFlatGlyph };
}

impl Fact for Measures {
    ghost holds = { AreMeasures };
}

/// A value that a job made. A contract sees it as the value, of which its fact holds.
#[derive(Debug, Drop)]
pub struct Known<T: Fact> {
    value: T,
}

impl<T: Fact> Model for Known<T> {
    ghost Value = { T };

    ghost view = { λ known. known.value };

    ghost invariant = { λ known. T.holds known.value };
}

impl<T: Fact> Known<T> {
    /// The value, of which the fact holds. It takes no memory.
    pub fn of(value: T) -> Self
        requires { T.holds value }
        ensures { result ≡ value }
    {
        Known { value }
    }

    /// The value. It takes no memory.
    pub fn get(&self) -> &T
        ensures value { result.now ≡ self.now }
        ensures holds { T.holds self.now }
    {
        &self.value
    }
}

impl<T: Fact + PartialEq> PartialEq for Known<T> {
    ghost eq = { T.eq };

    ghost laws = { T.laws };

    fn eq(&self, other: &Self) -> bool {
        *self.get() == *other.get()
    }
}

impl<T: Fact + Eq> Eq for Known<T> {
    ghost laws = { T.Eq.laws };
}

use crate::variation::Location;
use fixed_math::Fixed;
use plain_lists::{Sequence, Text as Name};

/// A point of a contour, in font units.
#[derive(Clone, Copy, Debug, PartialEq, Eq)]
pub struct DrawnPoint {
    pub x: Fixed,
    pub y: Fixed,
    /// Whether it is on the curve.
    pub on: bool,
}

/// A closed contour. Its first point is the start.
#[derive(Debug, PartialEq, Eq, Drop)]
pub struct Contour {
    pub points: Sequence<DrawnPoint>,
}

/// A shape of a layer.
#[derive(Debug, PartialEq, Eq, Drop)]
pub enum Shape {
    Path(Contour),
    /// Another glyph, scaled, turned counterclockwise by quarter turns (0 to 3), and moved.
    Component {
        base: Name,
        at: (Fixed, Fixed),
        scale: (Fixed, Fixed),
        quarters: u8,
    },
}

/// A named point of a layer, in font units.
#[derive(Debug, PartialEq, Eq, Drop)]
pub struct Anchor {
    pub name: Name,
    pub x: i16,
    pub y: i16,
}

/// A glyph's layer at one place of the design space. Its width is in font units.
#[derive(Debug, PartialEq, Eq, Drop)]
pub struct LayerIr {
    pub width: i32,
    pub shapes: Sequence<Shape>,
    pub anchors: Sequence<Anchor>,
}

/// A glyph as its source draws it.
#[derive(Debug, PartialEq, Eq, Drop)]
pub struct GlyphIr {
    /// The glyph's place in the source's list of glyphs.
    pub number: u32,
    /// The place of its dictionary in the source.
    pub place: u64,
    /// How many masters there are. Their places and layers come first.
    pub masters: u32,
    pub places: Sequence<Location>,
    /// A layer per place.
    pub layers: Sequence<LayerIr>,
}

/// A component that stays one: the glyph's name, and where it is moved to at each place, in font
/// units.
#[derive(Debug, PartialEq, Eq, Drop)]
pub struct Kept {
    pub base: Name,
    pub at: Sequence<(i16, i16)>,
}

/// A glyph with its contours drawn.
#[derive(Debug, PartialEq, Eq, Drop)]
pub struct FlatGlyph {
    /// The glyph's place in the source's list of glyphs; 4294967295 for a `.notdef` that the
    /// compiler made.
    pub number: u32,
    /// The place of its dictionary in the source.
    pub place: u64,
    pub places: Sequence<Location>,
    /// An advance width per place, in font units.
    pub widths: Sequence<i32>,
    /// The contours at each place.
    pub drawn: Sequence<Sequence<Contour>>,
    /// Its components, where it stays a composite; empty for a simple glyph.
    pub kept: Sequence<Kept>,
    /// The anchors that every master has, with a position per master.
    pub anchors: Sequence<(Name, Sequence<(i16, i16)>)>,
}

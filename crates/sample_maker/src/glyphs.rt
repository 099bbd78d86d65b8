ghost use Rattle.std.specs.Prelude.{◌≡◌, ◌<◌, ◌≤◌, ◌+◌, if◌then◌else◌};
ghost use Rattle.sample_maker.specs.Draws.{after};
ghost use Rattle.sample_maker.specs.Glyphs.{is_component, component_glyph, rectangle_glyph};
ghost use Rattle.sample_maker.specs.Glyphs.{widths, is_rectangle, IsSmallShape};
ghost use Rattle.sample_maker.specs.Draws.{next, drawn};

use crate::draws::Draws;

/// The shape of a glyph of a sample, at its two masters, in font units.
#[derive(Clone, Copy, Debug)]
pub enum SampleShape {
    /// The glyph with this number, and where it is moved to at each master.
    Component {
        base: u16,
        first: (u16, u16),
        second: (u16, u16),
    },
    /// A rectangle: its lower left corner, and how wide and high it is at each master.
    Rectangle {
        corner: (u16, u16),
        first: (u16, u16),
        second: (u16, u16),
    },
}

/// A glyph of a sample. Its widths at the two masters are in font units.
#[derive(Clone, Copy, Debug)]
pub struct SampleGlyph {
    pub number: u16,
    pub shape: SampleShape,
    pub widths: (u16, u16),
}

impl SampleGlyph {
    /// The glyph with this number, where this rectangle is the last one before it.
    pub fn draw(number: u16, last: u16, draws: &mut Draws) -> SampleGlyph
        ensures glyph { result ≡ if is_component number draws.old.state
            then component_glyph number last (next draws.old.state)
            else rectangle_glyph number (next draws.old.state) }
        ensures state { draws.new.state ≡ if is_component number draws.old.state
            then after 7 draws.old.state else after 9 draws.old.state }
        ensures small { IsSmallShape result.shape }
    {
        let kind = draws.below(4);
        if number != 0 && kind == 0 {
            component(number, last, draws)
        } else {
            rectangle(number, draws)
        }
    }

    /// Whether it has a contour of its own.
    pub fn is_rectangle(&self) -> bool
        ensures { result ≡ is_rectangle self.now.shape }
    {
        matches!(self.shape, SampleShape::Rectangle { .. })
    }
}

fn component(number: u16, base: u16, draws: &mut Draws) -> SampleGlyph
    ensures glyph { result ≡ component_glyph number base draws.old.state }
    ensures state { draws.new.state ≡ after 6 draws.old.state }
    ensures small { IsSmallShape result.shape }
{
    let first = position(draws, 200);
    let second = position(draws, 200);
    SampleGlyph {
        number,
        shape: SampleShape::Component {
            base,
            first,
            second,
        },
        widths: draw_widths(draws),
    }
}

fn rectangle(number: u16, draws: &mut Draws) -> SampleGlyph
    ensures glyph { result ≡ rectangle_glyph number draws.old.state }
    ensures state { draws.new.state ≡ after 8 draws.old.state }
    ensures small { IsSmallShape result.shape }
{
    let corner = position(draws, 400);
    let size = position(draws, 400);
    let first = (50 + size.0, 50 + size.1);
    let growth = position(draws, 40);
    let widths = draw_widths(draws);
    SampleGlyph {
        number,
        shape: SampleShape::Rectangle {
            corner,
            first,
            second: (first.0 + growth.0, first.1 + growth.1),
        },
        widths,
    }
}

/// Two numbers below a bound.
fn position(draws: &mut Draws, bound: u16) -> (u16, u16)
    requires { 0 < bound }
    ensures pair { result ≡ (drawn 0 bound draws.old.state, drawn 1 bound draws.old.state) }
    ensures state { draws.new.state ≡ after 2 draws.old.state }
    ensures first { result.0 < bound }
    ensures second { result.1 < bound }
{
    let first = draws.below(bound);
    let second = draws.below(bound);
    (first, second)
}

fn draw_widths(draws: &mut Draws) -> (u16, u16)
    ensures widths { result ≡ widths 0 draws.old.state }
    ensures state { draws.new.state ≡ after 2 draws.old.state }
{
    let first = 600 + draws.below(200);
    let second = first + draws.below(50);
    (first, second)
}

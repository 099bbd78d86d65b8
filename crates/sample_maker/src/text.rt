ghost use Rattle.std.specs.Prelude.{◌≡◌, ◌<◌, ◌≤◌, ◌+◌, ◌++◌, ◌∷◌, [], codes, length, IfOk, OnOk};
ghost use Rattle.std.specs.Prelude.{if◌then◌else◌};
ghost use Rattle.std.specs.Fmt.{decimal};
ghost use Rattle.std.specs.String.{string_bytes};
ghost use Rattle.refusal_codes.specs.declared.limits.TheConstants.{SOURCE_BYTES};
ghost use Rattle.sample_maker.specs.Glyphs.{IsSmallShape, IsSmallPair};
ghost use Rattle.sample_maker.specs.SampleText.{glyph_name, pair_text, node_text, rectangle_text};
ghost use Rattle.sample_maker.specs.SampleText.{component_text, first_shape, second_shape};
ghost use Rattle.sample_maker.specs.SampleText.{layer_text, export_text, unicode_text, glyph_text};
ghost use Rattle.sample_maker.specs.SampleText.{is_exported, digit, head_text, tail_text, font_lines};
ghost use Rattle.sample_maker.specs.SampleText.{masters_line, layers_text, opening_text};
ghost use Rattle.sample_maker.specs.SampleText.{glyph_lines, sample_text};
ghost use Rattle.sample_maker.specs.Glyphs.{glyphs_of};

use crate::draws::Draws;
use crate::glyphs::{SampleGlyph, SampleShape};
use refusal_codes::NoMemory;
use std::alloc::{AllocError, Global};

/// The text of the sample with this seed and so many glyphs, 1 to 60,000: a Glyphs source (Glyphs
/// file format, version 3) of two masters on the axis of weights. Which glyphs it has is fontc's
/// own: rectangles and components, drawn by a linear congruential generator, so that two calls
/// with the same numbers give the same text everywhere. No such text is too long for a source.
pub fn sample(alloc: Global, seed: u32, glyphs: u32) -> Result<Vec<u8>, NoMemory>
    requires some { 1 ≤ glyphs }
    requires few { glyphs ≤ 60000 }
    ensures text { IfOk result (λ text. text.items ≡ sample_text seed glyphs) }
    ensures short { IfOk result (λ text. length text.items ≤ SOURCE_BYTES) }
{
    let text = whole_text(alloc, seed, glyphs as u16)?;
    Ok(text.into_bytes())
}

#[tactic(auto, unfolding(crate::specs::SampleText::sample_text))]
fn whole_text(alloc: Global, seed: u32, glyphs: u16) -> Result<String, AllocError>
    requires { glyphs ≤ 60000 }
    ensures { IfOk result (λ text. string_bytes text ≡ sample_text seed glyphs) }
{
    let mut text = String::new(alloc);
    push_head(&mut text)?;
    push_glyphs(&mut text, seed, glyphs)?;
    push_tail(&mut text)?;
    Ok(text)
}

fn push_head(text: &mut String) -> Result<(), AllocError>
    ensures { OnOk result (string_bytes text.new ≡ string_bytes text.old ++ head_text) }
{
    push_font_lines(text)?;
    push_masters_line(text)?;
    text.push_str("glyphs = (\n")
}

#[tactic(auto, unfolding(crate::specs::SampleText::font_lines))]
fn push_font_lines(text: &mut String) -> Result<(), AllocError>
    ensures { OnOk result (string_bytes text.new ≡ string_bytes text.old ++ font_lines) }
{
    text.push_str(
        "{\n.formatVersion = 3;\naxes = ({name = Weight;tag = wght;});\nfamilyName = Sample;\n",
    )
}

#[tactic(auto, unfolding(crate::specs::SampleText::masters_line))]
fn push_masters_line(text: &mut String) -> Result<(), AllocError>
    ensures { OnOk result (string_bytes text.new ≡ string_bytes text.old ++ masters_line) }
{
    text.push_str("fontMaster = ({axesValues = (400);id = m1;},{axesValues = (700);id = m2;});\n")
}

#[tactic(auto, unfolding(crate::specs::SampleText::tail_text))]
fn push_tail(text: &mut String) -> Result<(), AllocError>
    ensures { OnOk result (string_bytes text.new ≡ string_bytes text.old ++ tail_text) }
{
    text.push_str(");\nunitsPerEm = 1000;\n}\n")
}

/// Adds the lines of all glyphs.
fn push_glyphs(text: &mut String, seed: u32, glyphs: u16) -> Result<(), AllocError>
    requires { glyphs ≤ 60000 }
    ensures { OnOk result (string_bytes text.new
        ≡ string_bytes text.old ++ glyph_lines (glyphs_of seed glyphs)) }
{
    let mut draws = Draws { state: seed };
    let mut last = 0;
    for number in 0..glyphs {
        let glyph = SampleGlyph::draw(number, last, &mut draws);
        push_glyph(text, &glyph)?;
        push_line_end(text, number + 1 == glyphs)?;
        if glyph.is_rectangle() {
            last = number;
        }
    }
    Ok(())
}

fn push_line_end(text: &mut String, is_last: bool) -> Result<(), AllocError>
    ensures { OnOk result (string_bytes text.new
        ≡ string_bytes text.old ++ (if is_last then codes "\n" else codes ",\n")) }
{
    text.push_str(if is_last { "\n" } else { ",\n" })
}

fn push_glyph(text: &mut String, glyph: &SampleGlyph) -> Result<(), AllocError>
    requires number { glyph.now.number < 60000 }
    requires small { IsSmallShape glyph.now.shape }
    ensures { OnOk result (string_bytes text.new ≡ string_bytes text.old ++ glyph_text glyph.now) }
{
    push_opening(text, glyph.number)?;
    text.push_str(";")?;
    push_export(text, glyph.number)?;
    push_layers(text, glyph)?;
    push_unicode(text, glyph.number)?;
    text.push_str("}")
}

fn push_opening(text: &mut String, number: u16) -> Result<(), AllocError>
    ensures { OnOk result (string_bytes text.new ≡ string_bytes text.old ++ opening_text number) }
{
    text.push_str("{glyphname = ")?;
    push_name(text, number)
}

#[tactic(auto, unfolding(crate::specs::SampleText::layers_text))]
fn push_layers(text: &mut String, glyph: &SampleGlyph) -> Result<(), AllocError>
    requires { IsSmallShape glyph.now.shape }
    ensures { OnOk result (string_bytes text.new ≡ string_bytes text.old ++ layers_text glyph.now) }
{
    text.push_str("layers = (")?;
    push_first_layer(text, glyph)?;
    text.push_str(",")?;
    push_second_layer(text, glyph)?;
    text.push_str(");")
}

/// Adds g and the number in five digits.
#[tactic(auto, unfolding(crate::specs::SampleText::glyph_name))]
fn push_name(text: &mut String, number: u16) -> Result<(), AllocError>
    ensures { OnOk result (string_bytes text.new ≡ string_bytes text.old ++ glyph_name number) }
{
    text.push_str("g")?;
    push_digit(text, number / 10_000)?;
    push_digit(text, number / 1_000)?;
    push_digit(text, number / 100)?;
    push_digit(text, number / 10)?;
    push_digit(text, number)
}

/// Adds the last digit of a number.
fn push_digit(text: &mut String, number: u16) -> Result<(), AllocError>
    ensures { OnOk result (string_bytes text.new ≡ string_bytes text.old ++ digit number ∷ []) }
{
    text.push((b'0' + (number % 10) as u8) as char)
}

#[tactic(auto, unfolding(crate::specs::SampleText::export_text))]
fn push_export(text: &mut String, number: u16) -> Result<(), AllocError>
    ensures { OnOk result (string_bytes text.new ≡ string_bytes text.old ++ export_text number) }
{
    if is_exported(number) {
        Ok(())
    } else {
        text.push_str("export = 0;")
    }
}

#[tactic(auto, unfolding(crate::specs::SampleText::unicode_text))]
fn push_unicode(text: &mut String, number: u16) -> Result<(), AllocError>
    requires { number < 60000 }
    ensures { OnOk result (string_bytes text.new ≡ string_bytes text.old ++ unicode_text number) }
{
    if is_exported(number) && number < 6400 {
        let code = 57344 + u32::from(number);
        write!(text, "unicode = {code};")
    } else {
        Ok(())
    }
}

fn is_exported(number: u16) -> bool
    ensures { result ≡ is_exported number }
{
    number % 8 != 7
}

fn push_first_layer(text: &mut String, glyph: &SampleGlyph) -> Result<(), AllocError>
    requires { IsSmallShape glyph.now.shape }
    ensures { OnOk result (string_bytes text.new ≡ string_bytes text.old
        ++ layer_text (codes "m1") (first_shape glyph.now.shape) glyph.now.widths.0) }
{
    text.push_str("{layerId = m1;shapes = (")?;
    push_first_shape(text, &glyph.shape)?;
    push_width(text, glyph.widths.0)
}

fn push_second_layer(text: &mut String, glyph: &SampleGlyph) -> Result<(), AllocError>
    requires { IsSmallShape glyph.now.shape }
    ensures { OnOk result (string_bytes text.new ≡ string_bytes text.old
        ++ layer_text (codes "m2") (second_shape glyph.now.shape) glyph.now.widths.1) }
{
    text.push_str("{layerId = m2;shapes = (")?;
    push_second_shape(text, &glyph.shape)?;
    push_width(text, glyph.widths.1)
}

/// Adds a layer's width and its end.
fn push_width(text: &mut String, width: u16) -> Result<(), AllocError>
    ensures { OnOk result (string_bytes text.new ≡ string_bytes text.old
        ++ codes ");width = " ++ decimal width ++ codes ";}") }
{
    write!(text, ");width = {width};}}")
}

fn push_first_shape(text: &mut String, shape: &SampleShape) -> Result<(), AllocError>
    requires { IsSmallShape shape.now }
    ensures { OnOk result (string_bytes text.new ≡ string_bytes text.old ++ first_shape shape.now) }
{
    match *shape {
        SampleShape::Component { base, first, .. } => push_component(text, base, first),
        SampleShape::Rectangle { corner, first, .. } => push_rectangle(text, corner, first),
    }
}

fn push_second_shape(text: &mut String, shape: &SampleShape) -> Result<(), AllocError>
    requires { IsSmallShape shape.now }
    ensures { OnOk result (string_bytes text.new
        ≡ string_bytes text.old ++ second_shape shape.now) }
{
    match *shape {
        SampleShape::Component { base, second, .. } => push_component(text, base, second),
        SampleShape::Rectangle { corner, second, .. } => push_rectangle(text, corner, second),
    }
}

fn push_component(text: &mut String, base: u16, at: (u16, u16)) -> Result<(), AllocError>
    ensures { OnOk result (string_bytes text.new ≡ string_bytes text.old ++ component_text base at) }
{
    text.push_str("{pos = (")?;
    push_pair(text, at.0, at.1)?;
    text.push_str(");ref = ")?;
    push_name(text, base)?;
    text.push_str(";}")
}

fn push_rectangle(text: &mut String, corner: (u16, u16), size: (u16, u16)) -> Result<(), AllocError>
    requires corner { IsSmallPair corner }
    requires size { IsSmallPair size }
    ensures { OnOk result (string_bytes text.new
        ≡ string_bytes text.old ++ rectangle_text corner size) }
{
    let (x, y) = corner;
    let right = x + size.0;
    let top = y + size.1;
    text.push_str("{nodes = (")?;
    push_node(text, x, y)?;
    text.push_str(",")?;
    push_node(text, right, y)?;
    text.push_str(",")?;
    push_node(text, right, top)?;
    text.push_str(",")?;
    push_node(text, x, top)?;
    text.push_str(");}")
}

fn push_node(text: &mut String, x: u16, y: u16) -> Result<(), AllocError>
    ensures { OnOk result (string_bytes text.new ≡ string_bytes text.old ++ node_text x y) }
{
    text.push_str("(")?;
    push_pair(text, x, y)?;
    text.push_str(",l)")
}

fn push_pair(text: &mut String, x: u16, y: u16) -> Result<(), AllocError>
    ensures { OnOk result (string_bytes text.new ≡ string_bytes text.old ++ pair_text x y) }
{
    write!(text, "{x},{y}")
}

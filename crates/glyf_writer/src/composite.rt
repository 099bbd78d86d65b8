ghost use Rattle.std.specs.Prelude.{◌≡◌, ◌<◌, ◌++◌, length, IfOk, OnOk};
ghost use Rattle.std.specs.List.{All};
ghost use Rattle.font_ir.specs.FlatGlyphs.{IsFlatGlyph};
ghost use Rattle.glyf_writer.specs.CompositeData.{component_bytes, components_bytes, components_at};
ghost use Rattle.glyf_writer.specs.CompositeData.{composite_data};

use crate::bytes::{pad, push_bounds};
use font_ir::{FlatGlyph, Kept, bounds_of};
use refusal_codes::NoMemory;
use std::alloc::Global;
use table_bytes::{push_int16, push_uint16};

/// The offset is in words (OpenType 1.9, "Composite Glyph Description").
const ARG_1_AND_2_ARE_WORDS: u16 = 0x0001;
/// The two arguments are an offset.
const ARGS_ARE_XY_VALUES: u16 = 0x0002;
/// Another component follows.
const MORE_COMPONENTS: u16 = 0x0020;

/// The data of a composite glyph in the table "glyf" (OpenType 1.9, "Composite Glyph
/// Description"), padded to four bytes.
///
/// `gids` are the glyph numbers of its components, in order. Offsets, in font units, and bounds
/// are those at the place `origin`, of the glyph's list of places; bounds of a glyph without
/// points are zeros.
///
/// # Errors
///
/// `NoMemory` alone, where memory ran out.
pub fn composite_bytes(
    alloc: Global,
    glyph: &FlatGlyph,
    origin: u32,
    gids: &[u16],
) -> Result<Vec<u8>, NoMemory>
    requires flat { IsFlatGlyph glyph.now }
    requires origin { origin < length glyph.now.places }
    requires kept { 0 < length glyph.now.kept }
    requires gids { length gids.now ≡ length glyph.now.kept }
    ensures { IfOk result (λ bytes. bytes.items ≡ composite_data origin glyph.now gids.now) }
{
    let contours = glyph.drawn.as_slice()[origin as usize].as_slice();
    let bounds = bounds_of(contours).unwrap_or([0; 4]);
    let mut bytes = Vec::with_capacity(alloc, 12 + 8 * gids.len())?;
    push_int16(&mut bytes, -1)?;
    push_bounds(&mut bytes, bounds)?;
    push_components(&mut bytes, glyph.kept.as_slice(), origin, gids)?;
    pad(&mut bytes)?;
    Ok(bytes)
}

/// Writes each component with its glyph number, as it stands at the place `origin`.
fn push_components(
    bytes: &mut Vec<u8>,
    kept: &[Kept],
    origin: u32,
    gids: &[u16],
) -> Result<(), NoMemory>
    requires gids { length gids.now ≡ length kept.now }
    requires offsets { All (λ kept. origin < length kept.at) kept.now }
    ensures { OnOk result (bytes.new.items
        ≡ bytes.old.items ++ components_bytes (components_at origin kept.now gids.now)) }
{
    for (number, component) in kept.iter().enumerate() {
        let offset = component.at.as_slice()[origin as usize];
        push_component(bytes, gids[number], offset, number + 1 < gids.len())?;
    }
    Ok(())
}

/// Writes one component; `more` says that another one follows.
fn push_component(
    bytes: &mut Vec<u8>,
    gid: u16,
    offset: (i16, i16),
    more: bool,
) -> Result<(), NoMemory>
    ensures { OnOk result (bytes.new.items ≡ bytes.old.items
        ++ component_bytes more (record { glyph = gid; x = offset.0; y = offset.1 })) }
{
    let flags = ARG_1_AND_2_ARE_WORDS | ARGS_ARE_XY_VALUES;
    push_uint16(bytes, if more { flags | MORE_COMPONENTS } else { flags })?;
    push_uint16(bytes, gid)?;
    push_int16(bytes, offset.0)?;
    push_int16(bytes, offset.1)?;
    Ok(())
}

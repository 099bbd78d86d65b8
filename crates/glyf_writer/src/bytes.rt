ghost use Rattle.std.specs.Prelude.{◌≡◌, ◌<◌, ◌≤◌, ◌++◌, pos, length, map, slice_index_or, OnOk};
ghost use Rattle.std.specs.List.{All, flat_map};
ghost use Rattle.refusal_codes.specs.declared.limits.TheConstants.{POINTS};
ghost use Rattle.font_ir.specs.FlatGlyphs.{point_count};
ghost use Rattle.table_bytes.specs.DataTypes.{uint16, int16, padded};
ghost use Rattle.glyf_writer.specs.Outlines.{end_points};
ghost use Rattle.glyf_writer.specs.GlyphData.{coordinate_bytes};

use crate::outline::Step;
use font_ir::Contour;
use refusal_codes::NoMemory;
use table_bytes::{padding, push_int16, push_uint16, push_zeros};

/// Writes the bounds xMin, yMin, xMax and yMax.
pub fn push_bounds(bytes: &mut Vec<u8>, bounds: [i16; 4]) -> Result<(), NoMemory>
    ensures { OnOk result (bytes.new.items
        ≡ bytes.old.items ++ int16 (slice_index_or bounds 0 (pos 0))
        ++ int16 (slice_index_or bounds 1 (pos 0))
        ++ int16 (slice_index_or bounds 2 (pos 0)) ++ int16 (slice_index_or bounds 3 (pos 0))) }
{
    push_int16(bytes, bounds[0])?;
    push_int16(bytes, bounds[1])?;
    push_int16(bytes, bounds[2])?;
    push_int16(bytes, bounds[3])?;
    Ok(())
}

/// Writes the number of each contour's last point.
pub fn push_end_points(bytes: &mut Vec<u8>, contours: &[Contour]) -> Result<(), NoMemory>
    requires few { point_count contours.now ≤ POINTS }
    requires none_empty { All (λ contour. 0 < length contour.points) contours.now }
    ensures { OnOk result (bytes.new.items
        ≡ bytes.old.items ++ flat_map uint16
        (end_points (map (λ contour. length contour.points) contours.now))) }
{
    let mut count: usize = 0;
    for contour in contours {
        count += contour.points.len();
        push_uint16(bytes, (count - 1) as u16)?;
    }
    Ok(())
}

/// Writes the difference of a coordinate.
fn push_coordinate(bytes: &mut Vec<u8>, difference: i16) -> Result<(), NoMemory>
    ensures { OnOk result (bytes.new.items ≡ bytes.old.items ++ coordinate_bytes difference) }
{
    let size = difference.unsigned_abs();
    if size == 0 {
        Ok(())
    } else if size > 255 {
        Ok(push_int16(bytes, difference)?)
    } else {
        bytes.push(size as u8)?;
        Ok(())
    }
}

/// Writes the differences of x.
pub fn push_x_coordinates(bytes: &mut Vec<u8>, steps: &[Step]) -> Result<(), NoMemory>
    ensures { OnOk result (bytes.new.items
        ≡ bytes.old.items ++ flat_map coordinate_bytes (map (λ step. step.dx) steps.now)) }
{
    for step in steps {
        push_coordinate(bytes, step.dx)?;
    }
    Ok(())
}

/// Writes the differences of y.
pub fn push_y_coordinates(bytes: &mut Vec<u8>, steps: &[Step]) -> Result<(), NoMemory>
    ensures { OnOk result (bytes.new.items
        ≡ bytes.old.items ++ flat_map coordinate_bytes (map (λ step. step.dy) steps.now)) }
{
    for step in steps {
        push_coordinate(bytes, step.dy)?;
    }
    Ok(())
}

/// Adds zeros up to a multiple of four bytes.
pub fn pad(bytes: &mut Vec<u8>) -> Result<(), NoMemory>
    ensures { OnOk result (bytes.new.items ≡ padded bytes.old.items) }
{
    let zeros = padding(bytes.len());
    push_zeros(bytes, zeros)?;
    Ok(())
}

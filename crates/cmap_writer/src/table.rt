ghost use Rattle.std.specs.Prelude.{◌≡◌, ◌+◌, ◌<◌, ◌≤◌, [], ◌∷◌, ◌++◌, length, IfOk, OnOk};
ghost use Rattle.std.specs.List.{All};
ghost use Rattle.refusal_codes.specs.declared.limits.TheConstants.{CHARACTER_MAP_BYTES};
ghost use Rattle.table_bytes.specs.DataTypes.{uint16, uint32};
ghost use Rattle.cmap_writer.specs.Cmap as spec;

use crate::errors::CmapError;
use crate::groups::push_format_12;
use crate::runs::{Run, longest_runs, short_codes};
use crate::segments::{Segment, format_4_length, push_format_4, segments_of};
use font_ir::GlyphOrder;
use refusal_codes::NoMemory;
use refusal_codes::limits::CHARACTER_MAP_BYTES;
use std::alloc::Global;
use table_bytes::{push_uint16, push_uint32};

/// The most bytes that a subtable of format 4 can say that it has.
const LONGEST_SUBTABLE: u64 = CHARACTER_MAP_BYTES;

/// The platform of the encodings: Windows.
const PLATFORM: u16 = 3;

/// The encoding of Unicode up to 65535.
const SHORT_ENCODING: u16 = 1;

/// The encoding of all of Unicode.
const WHOLE_ENCODING: u16 = 10;

/// The table "cmap" (OpenType 1.9) of codes with their glyph numbers.
///
/// The codes up to 65534 stand in a subtable of format 4, one segment for each longest run of codes
/// that follow each other and whose glyph numbers do too. Where a code is above 65535, all codes
/// stand in a subtable of format 12 as well. It costs a pass over the codes for each subtable.
///
/// # Errors
///
/// `TooLarge` with the length of the subtable of format 4, exactly where that is more than 65,535
/// bytes, unless memory ran out.
pub fn cmap(alloc: Global, order: &GlyphOrder, codes: &[(u32, u16)]) -> Result<Vec<u8>, CmapError>
    requires { spec.AreCodes codes.now }
    ensures { spec.BuildsCmap result codes.now }
{
    let _order = order;
    let segments = short_segments(alloc, codes)?;
    let length = format_4_length(segments.len());
    if length > LONGEST_SUBTABLE {
        return Err(CmapError::TooLarge(length));
    }
    Ok(table_of(alloc, segments.as_slice(), codes)?)
}

/// The segments of the codes up to 65534.
fn short_segments(alloc: Global, codes: &[(u32, u16)]) -> Result<Vec<Segment>, NoMemory>
    requires { spec.AreCodes codes.now }
    ensures { IfOk result (λ segments. segments.items ≡ spec.segments codes.now) }
{
    let runs = longest_runs(alloc, short_codes(codes))?;
    segments_of(alloc, runs.as_slice())
}

/// Whether a code is above 65535.
fn has_long_code(codes: &[(u32, u16)]) -> bool
    ensures { result ≡ spec.has_long_code codes.now }
{
    codes.iter().any(|code| code.0 > 65535)
}

/// The table of some codes, of which the segments are those up to 65534.
fn table_of(alloc: Global, segments: &[Segment], codes: &[(u32, u16)]) -> Result<Vec<u8>, NoMemory>
    requires codes { spec.AreCodes codes.now }
    requires segments { segments.now ≡ spec.segments codes.now }
    requires few { length segments.now ≤ 8189 }
    ensures { IfOk result (λ table. table.items ≡ spec.cmap_table codes.now) }
{
    if has_long_code(codes) {
        let groups = longest_runs(alloc, codes)?;
        whole_table(alloc, segments, groups.as_slice())
    } else {
        short_table(alloc, segments)
    }
}

/// Appends an encoding record.
fn push_record(table: &mut Vec<u8>, encoding: u16, offset: u32) -> Result<(), NoMemory>
    ensures { OnOk result (table.new.items
        ≡ table.old.items ++ (uint16 3 ++ uint16 encoding ++ uint32 offset)) }
{
    push_uint16(table, PLATFORM)?;
    push_uint16(table, encoding)?;
    push_uint32(table, offset)?;
    Ok(())
}

/// The table of the codes up to 65534.
#[tactic(auto, unfolding(crate::specs::Cmap::table_of))]
fn short_table(alloc: Global, segments: &[Segment]) -> Result<Vec<u8>, NoMemory>
    requires few { length segments.now ≤ 8189 }
    requires some { 0 < length segments.now }
    ensures { IfOk result (λ table. table.items
        ≡ spec.table_of (spec.short_encoding segments.now ∷ [])) }
{
    let mut table = Vec::with_capacity(alloc, 28 + 8 * segments.len())?;
    push_uint16(&mut table, 0)?;
    push_uint16(&mut table, 1)?;
    push_record(&mut table, SHORT_ENCODING, 12)?;
    push_format_4(&mut table, segments)?;
    Ok(table)
}

/// Appends the header and the encoding records of two subtables, of which the first has so many
/// bytes.
fn push_two_records(table: &mut Vec<u8>, length: u32) -> Result<(), NoMemory>
    requires { length ≤ CHARACTER_MAP_BYTES }
    ensures { OnOk result (table.new.items ≡ table.old.items ++ spec.two_records length) }
{
    push_uint16(table, 0)?;
    push_uint16(table, 2)?;
    push_record(table, SHORT_ENCODING, 20)?;
    push_record(table, WHOLE_ENCODING, 20 + length)
}

/// The table of the codes up to 65534, and of all codes.
fn whole_table(alloc: Global, segments: &[Segment], groups: &[Run]) -> Result<Vec<u8>, NoMemory>
    requires few { length segments.now ≤ 8189 }
    requires some { 0 < length segments.now }
    requires few_groups { length groups.now ≤ 1114112 }
    requires groups { All (λ run. run.first + run.more ≤ 1114111) groups.now }
    ensures { IfOk result (λ table. table.items ≡ spec.table_of
        (spec.short_encoding segments.now ∷ spec.whole_encoding groups.now ∷ [])) }
{
    let mut table = Vec::with_capacity(alloc, 52 + 8 * segments.len() + 12 * groups.len())?;
    push_two_records(&mut table, format_4_length(segments.len()) as u32)?;
    push_format_4(&mut table, segments)?;
    push_format_12(&mut table, groups)?;
    Ok(table)
}

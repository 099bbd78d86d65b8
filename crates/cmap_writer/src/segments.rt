ghost use Rattle.std.specs.Prelude.{◌≡◌, ◌+◌, ◌*◌, ◌^◌, ◌<◌, ◌≤◌, ◌++◌, length, map, IfOk, OnOk};
ghost use Rattle.std.specs.List.{All, flat_map};
ghost use Rattle.table_bytes.specs.DataTypes.{uint16};
ghost use Rattle.cmap_writer.specs.Subtables as spec;

use crate::runs::Run;
use refusal_codes::NoMemory;
use std::alloc::Global;
use table_bytes::push_uint16;

/// A segment of format 4 (OpenType 1.9, "cmap"): codes whose glyph numbers are these codes and
/// idDelta, modulo 65536.
#[derive(Clone, Copy, Debug, PartialEq, Eq)]
pub struct Segment {
    pub end_code: u16,
    pub start_code: u16,
    pub id_delta: u16,
    pub id_range_offset: u16,
}

/// The segment that ends each subtable: the code 65535 leads to the missing glyph.
const LAST: Segment = Segment {
    end_code: 0xFFFF,
    start_code: 0xFFFF,
    id_delta: 1,
    id_range_offset: 0,
};

/// The segment of a run.
fn segment_of(run: Run) -> Segment
    requires { run.first + run.more ≤ 65534 }
    ensures { result ≡ spec.segment_of run }
{
    let start_code = run.first as u16;
    Segment {
        end_code: (run.first + run.more) as u16,
        start_code,
        id_delta: run.glyph.wrapping_sub(start_code),
        id_range_offset: 0,
    }
}

/// The segments of some runs, and the one that ends a subtable.
pub fn segments_of(alloc: Global, runs: &[Run]) -> Result<Vec<Segment>, NoMemory>
    requires { All (λ run. run.first + run.more ≤ 65534) runs.now }
    ensures { IfOk result (λ segments. segments.items ≡ spec.segments_of runs.now) }
{
    let mut segments = Vec::with_capacity(alloc, runs.len().saturating_add(1))?;
    for run in runs {
        segments.push(segment_of(*run))?;
    }
    segments.push(LAST)?;
    Ok(segments)
}

/// How many bytes a subtable of format 4 takes for so many segments.
pub fn format_4_length(count: usize) -> u64
    requires { count ≤ 65536 }
    ensures { result ≡ spec.format_4_length count }
{
    16 + 8 * count as u64
}

/// The binary logarithm of a count of segments, rounded down.
fn entry_selector(count: u16) -> u16
    requires few { count ≤ 8189 }
    requires some { 0 < count }
    ensures value { result ≡ spec.entry_selector count }
    ensures power { 2 ^ result ≤ count }
{
    count.ilog2() as u16
}

/// Appends searchRange, entrySelector and rangeShift.
#[tactic(auto, unfolding(crate::specs::Subtables::search_fields))]
fn push_search_fields(table: &mut Vec<u8>, count: u16) -> Result<(), NoMemory>
    requires few { count ≤ 8189 }
    requires some { 0 < count }
    ensures { OnOk result (table.new.items ≡ table.old.items ++ spec.search_fields count) }
{
    let entry_selector = entry_selector(count);
    let search_range = 2 * 2u16.pow(u32::from(entry_selector));
    push_uint16(table, search_range)?;
    push_uint16(table, entry_selector)?;
    push_uint16(table, 2 * count - search_range)?;
    Ok(())
}

/// Appends the fields of format 4 before its arrays.
#[tactic(auto, unfolding(crate::specs::Subtables::format_4_head))]
fn push_head(table: &mut Vec<u8>, count: u16) -> Result<(), NoMemory>
    requires few { count ≤ 8189 }
    requires some { 0 < count }
    ensures { OnOk result (table.new.items ≡ table.old.items ++ spec.format_4_head count) }
{
    push_uint16(table, 4)?;
    push_uint16(table, 16 + 8 * count)?;
    push_uint16(table, 0)?;
    push_uint16(table, 2 * count)?;
    push_search_fields(table, count)
}

/// Appends the last code of each segment.
fn push_end_codes(table: &mut Vec<u8>, segments: &[Segment]) -> Result<(), NoMemory>
    ensures { OnOk result (table.new.items
        ≡ table.old.items ++ flat_map uint16 (map (λ segment. segment.end_code) segments.now)) }
{
    for segment in segments {
        push_uint16(table, segment.end_code)?;
    }
    Ok(())
}

/// Appends the first code of each segment.
fn push_start_codes(table: &mut Vec<u8>, segments: &[Segment]) -> Result<(), NoMemory>
    ensures { OnOk result (table.new.items
        ≡ table.old.items ++ flat_map uint16 (map (λ segment. segment.start_code) segments.now)) }
{
    for segment in segments {
        push_uint16(table, segment.start_code)?;
    }
    Ok(())
}

/// Appends what makes the glyph numbers of each segment's codes.
fn push_id_deltas(table: &mut Vec<u8>, segments: &[Segment]) -> Result<(), NoMemory>
    ensures { OnOk result (table.new.items
        ≡ table.old.items ++ flat_map uint16 (map (λ segment. segment.id_delta) segments.now)) }
{
    for segment in segments {
        push_uint16(table, segment.id_delta)?;
    }
    Ok(())
}

/// Appends each segment's idRangeOffset.
fn push_id_range_offsets(table: &mut Vec<u8>, segments: &[Segment]) -> Result<(), NoMemory>
    ensures { OnOk result (table.new.items
        ≡ table.old.items ++ flat_map uint16
        (map (λ segment. segment.id_range_offset) segments.now)) }
{
    for segment in segments {
        push_uint16(table, segment.id_range_offset)?;
    }
    Ok(())
}

/// Appends the arrays after the last codes.
#[tactic(auto, unfolding(crate::specs::Subtables::later_arrays))]
fn push_later_arrays(table: &mut Vec<u8>, segments: &[Segment]) -> Result<(), NoMemory>
    ensures { OnOk result (table.new.items ≡ table.old.items ++ spec.later_arrays segments.now) }
{
    push_start_codes(table, segments)?;
    push_id_deltas(table, segments)?;
    push_id_range_offsets(table, segments)
}

/// Appends a subtable of format 4 (OpenType 1.9, "cmap").
#[tactic(auto, unfolding(crate::specs::Subtables::format_4))]
pub fn push_format_4(table: &mut Vec<u8>, segments: &[Segment]) -> Result<(), NoMemory>
    requires few { length segments.now ≤ 8189 }
    requires some { 0 < length segments.now }
    ensures { OnOk result (table.new.items ≡ table.old.items ++ spec.format_4 segments.now) }
{
    push_head(table, segments.len() as u16)?;
    push_end_codes(table, segments)?;
    push_uint16(table, 0)?;
    push_later_arrays(table, segments)
}

ghost use Rattle.std.specs.Prelude.{◌≡◌, ◌<◌, ◌≤◌, ◌++◌, length, OnOk};
ghost use Rattle.gvar_writer.specs.Runs.{goes_on, run_bytes};
ghost use Rattle.gvar_writer.specs.PackedDeltas.{delta_flags, delta_bytes, packed_deltas};
ghost use Rattle.gvar_writer.specs.PackedPoints.{point_flags, point_bytes, count_bytes};
ghost use Rattle.gvar_writer.specs.PackedPoints.{packed_differences};

use refusal_codes::NoMemory;
use table_bytes::{push_int16, push_uint16};

/// The deltas of a run are zeros, and take no bytes.
const DELTAS_ARE_ZERO: u8 = 0x80;

/// The deltas of a run are words.
const DELTAS_ARE_WORDS: u8 = 0x40;

/// The most deltas of a run.
const LONGEST_DELTA_RUN: usize = 64;

/// The differences of a run are words.
const POINTS_ARE_WORDS: u8 = 0x80;

/// The count of the point numbers takes two bytes.
const COUNT_IS_WORD: u16 = 0x8000;

/// The most differences of a run.
const LONGEST_POINT_RUN: usize = 128;

/// The flags of the runs in which a delta can stand.
fn delta_flags(delta: i16) -> u8
    ensures value { result ≡ delta_flags delta }
    ensures small { result ≤ 128 }
{
    if delta == 0 {
        DELTAS_ARE_ZERO
    } else if -128 <= delta && delta <= 127 {
        0
    } else {
        DELTAS_ARE_WORDS
    }
}

/// Appends a delta of a run with these flags.
fn push_delta(bytes: &mut Vec<u8>, flags: u8, delta: i16) -> Result<(), NoMemory>
    ensures { OnOk result (bytes.new.items ≡ bytes.old.items ++ delta_bytes flags delta) }
{
    if flags == DELTAS_ARE_ZERO {
        Ok(())
    } else if flags == DELTAS_ARE_WORDS {
        Ok(push_int16(bytes, delta)?)
    } else {
        bytes.push((delta.cast_unsigned() % 256) as u8)?;
        Ok(())
    }
}

/// Whether a delta can stand in a run.
fn delta_goes_on(run: &[i16], delta: i16) -> bool
    requires { 0 < length run.now }
    ensures { result ≡ goes_on delta_flags 64 run.now delta }
{
    delta_flags(run[0]) == delta_flags(delta) && run.len() < LONGEST_DELTA_RUN
}

/// Appends a run of deltas.
#[tactic(auto, using(crate::proofs::RunSteps::run_whole))]
fn push_delta_run(bytes: &mut Vec<u8>, run: &[i16]) -> Result<(), NoMemory>
    requires some { 0 < length run.now }
    requires few { length run.now ≤ 64 }
    ensures { OnOk result (bytes.new.items
        ≡ bytes.old.items ++ run_bytes delta_flags delta_bytes run.now) }
{
    let flags = delta_flags(run[0]);
    bytes.push(flags + (run.len() - 1) as u8)?;
    for delta in run {
        push_delta(bytes, flags, *delta)?;
    }
    Ok(())
}

/// Appends packed deltas (OpenType 1.9, "Tuple variation store", "Packed deltas").
pub fn push_deltas(bytes: &mut Vec<u8>, deltas: &[i16]) -> Result<(), NoMemory>
    ensures { OnOk result (bytes.new.items ≡ bytes.old.items ++ packed_deltas deltas.now) }
{
    if deltas.is_empty() {
        return Ok(());
    }
    let mut start = 0;
    for at in 1..deltas.len() {
        if !delta_goes_on(&deltas[start..at], deltas[at]) {
            push_delta_run(bytes, &deltas[start..at])?;
            start = at;
        }
    }
    push_delta_run(bytes, &deltas[start..])
}

/// The flags of the runs in which a difference can stand.
fn point_flags(difference: u16) -> u8
    ensures value { result ≡ point_flags difference }
    ensures small { result ≤ 128 }
{
    if difference <= 255 {
        0
    } else {
        POINTS_ARE_WORDS
    }
}

/// Appends a difference of a run with these flags.
fn push_difference(bytes: &mut Vec<u8>, flags: u8, difference: u16) -> Result<(), NoMemory>
    ensures { OnOk result (bytes.new.items ≡ bytes.old.items ++ point_bytes flags difference) }
{
    if flags == POINTS_ARE_WORDS {
        Ok(push_uint16(bytes, difference)?)
    } else {
        bytes.push((difference % 256) as u8)?;
        Ok(())
    }
}

/// Whether a difference can stand in a run.
fn difference_goes_on(run: &[u16], difference: u16) -> bool
    requires { 0 < length run.now }
    ensures { result ≡ goes_on point_flags 128 run.now difference }
{
    point_flags(run[0]) == point_flags(difference) && run.len() < LONGEST_POINT_RUN
}

/// Appends a run of differences.
#[tactic(auto, using(crate::proofs::RunSteps::run_whole))]
fn push_point_run(bytes: &mut Vec<u8>, run: &[u16]) -> Result<(), NoMemory>
    requires some { 0 < length run.now }
    requires few { length run.now ≤ 128 }
    ensures { OnOk result (bytes.new.items
        ≡ bytes.old.items ++ run_bytes point_flags point_bytes run.now) }
{
    let flags = point_flags(run[0]);
    bytes.push(flags + (run.len() - 1) as u8)?;
    for difference in run {
        push_difference(bytes, flags, *difference)?;
    }
    Ok(())
}

/// Appends packed differences of point numbers.
fn push_differences(bytes: &mut Vec<u8>, differences: &[u16]) -> Result<(), NoMemory>
    ensures { OnOk result (bytes.new.items
        ≡ bytes.old.items ++ packed_differences differences.now) }
{
    if differences.is_empty() {
        return Ok(());
    }
    let mut start = 0;
    for at in 1..differences.len() {
        if !difference_goes_on(&differences[start..at], differences[at]) {
            push_point_run(bytes, &differences[start..at])?;
            start = at;
        }
    }
    push_point_run(bytes, &differences[start..])
}

/// Appends how many point numbers there are.
fn push_count(bytes: &mut Vec<u8>, count: u16) -> Result<(), NoMemory>
    requires { count < 32768 }
    ensures { OnOk result (bytes.new.items ≡ bytes.old.items ++ count_bytes count) }
{
    if count < 128 {
        bytes.push(count as u8)?;
        Ok(())
    } else {
        Ok(push_uint16(bytes, COUNT_IS_WORD + count)?)
    }
}

/// Appends packed point numbers (OpenType 1.9, "Tuple variation store", "Packed point numbers"),
/// which are told by the difference of each from the one before it.
pub fn push_points(bytes: &mut Vec<u8>, differences: &[u16]) -> Result<(), NoMemory>
    requires { length differences.now < 32768 }
    ensures { OnOk result (bytes.new.items ≡ bytes.old.items
        ++ (count_bytes (length differences.now) ++ packed_differences differences.now)) }
{
    push_count(bytes, differences.len() as u16)?;
    push_differences(bytes, differences)
}

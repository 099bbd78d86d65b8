ghost use Rattle.std.specs.Prelude.{◌≡◌, ◌<◌, ◌≤◌, ◌++◌, ◌≢◌, ℕ, length, map, take, replicate};
ghost use Rattle.std.specs.Prelude.{slice_index, IfOk, OnOk};
ghost use Rattle.glyf_writer.specs.GlyphData.{coordinate_flag, flag_of, flags_of, flag_bytes};
ghost use Rattle.glyf_writer.specs.GlyphData.{with_repeats};

use crate::outline::Step;
use refusal_codes::NoMemory;
use std::alloc::Global;

const ON_CURVE_POINT: u8 = 0x01;

const X_SHORT_VECTOR: u8 = 0x02;

const Y_SHORT_VECTOR: u8 = 0x04;

const REPEAT_FLAG: u8 = 0x08;

const X_IS_SAME_OR_POSITIVE: u8 = 0x10;

const Y_IS_SAME_OR_POSITIVE: u8 = 0x20;

const OVERLAP_SIMPLE: u8 = 0x40;

/// The longest run of flags that one repeat can say.
const LONGEST_REPEAT: usize = 256;

/// The bits of one coordinate of a flag.
fn coordinate_flag(short: u8, same: u8, difference: i16) -> u8
    ensures { result ≡ coordinate_flag short same difference }
{
    let size = difference.unsigned_abs();
    if size == 0 {
        same
    } else if size > 255 {
        0
    } else if difference < 0 {
        short
    } else {
        short | same
    }
}

/// A point's flag.
fn flag_of(step: Step) -> u8
    ensures { result ≡ flag_of step }
{
    let on_curve = if step.on { ON_CURVE_POINT } else { 0 };
    let x = coordinate_flag(X_SHORT_VECTOR, X_IS_SAME_OR_POSITIVE, step.dx);
    let y = coordinate_flag(Y_SHORT_VECTOR, Y_IS_SAME_OR_POSITIVE, step.dy);
    on_curve | x | y
}

/// The flags of some points.
fn plain_flags_of(alloc: Global, steps: &[Step]) -> Result<Vec<u8>, NoMemory>
    ensures { IfOk result (λ flags. flags.items ≡ map flag_of steps.now) }
{
    let mut flags = Vec::with_capacity(alloc, steps.len())?;
    for step in steps {
        flags.push(flag_of(*step))?;
    }
    Ok(flags)
}

/// The flags of a glyph's points. In a font with axes the first one says that contours may overlap.
pub fn flags_of(alloc: Global, steps: &[Step], variable: bool) -> Result<Vec<u8>, NoMemory>
    ensures { IfOk result (λ flags. flags.items ≡ flags_of variable steps.now) }
{
    let mut flags = plain_flags_of(alloc, steps)?;
    if variable && !flags.is_empty() {
        flags[0] |= OVERLAP_SIMPLE;
    }
    Ok(flags)
}

/// How often the first flag stands at the front, at most 256 times.
fn front_run(flags: &[u8]) -> usize
    requires { 0 < length flags.now }
    ensures some { 0 < result }
    ensures few { result ≤ 256 }
    ensures within { result ≤ length flags.now }
    ensures equal { take result flags.now ≡ replicate result (slice_index flags.now 0) }
    ensures longest { result < 256 → result < length flags.now
        → slice_index flags.now result ≢ slice_index flags.now 0 }
{
    let first = flags[0];
    let mut count = 1;
    while count < LONGEST_REPEAT && count < flags.len() && flags[count] == first {
        count += 1;
    }
    count
}

/// Writes a flag that stands so often.
fn push_run(bytes: &mut Vec<u8>, flag: u8, count: usize) -> Result<(), NoMemory>
    requires some { 0 < count }
    requires few { count ≤ 256 }
    ensures { OnOk result (bytes.new.items ≡ bytes.old.items ++ flag_bytes (flag, count)) }
{
    if count == 1 {
        bytes.push(flag)?;
    } else {
        bytes.push(flag | REPEAT_FLAG)?;
        bytes.push((count - 1) as u8)?;
    }
    Ok(())
}

/// Writes flags, each run of equal ones as a repeat.
pub fn push_flags(bytes: &mut Vec<u8>, flags: &[u8]) -> Result<(), NoMemory>
    ensures { OnOk result (bytes.new.items ≡ bytes.old.items ++ with_repeats flags.now) }
{
    let mut at = 0;
    while at < flags.len() {
        let rest = &flags[at..];
        let count = front_run(rest);
        push_run(bytes, rest[0], count)?;
        at += count;
    }
    Ok(())
}

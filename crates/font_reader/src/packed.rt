ghost use Rattle.std.specs.Prelude.{◌≡◌, ◌+◌, ◌*◌, ◌^◌, ◌<◌, ◌≤◌, IfOk, length};
ghost use Rattle.font_reader.specs.Fields.{IsWithin};
ghost use Rattle.font_reader.specs.Packed.{chosen, delta_control, delta_of_width, deltas_from};
ghost use Rattle.font_reader.specs.Packed.{deltas_of, kept, named_points, next_control};
ghost use Rattle.font_reader.specs.Packed.{next_delta, next_named, none_named, or_else, pair_of};
ghost use Rattle.font_reader.specs.Packed.{point_step, width_of, with_named};

use crate::faults::FontFault;
use crate::fields::{Table, read_byte, read_i8, read_i16, read_u16};
use crate::versions::bad_format;

/// The point that is asked for, the first and the last point of its contour, and how many points
/// its glyph has with the phantom points.
#[derive(Clone, Copy)]
pub struct Target {
    pub index: usize,
    pub first: usize,
    pub last: usize,
    pub points: usize,
}

/// A point that a tuple names: the how manieth it is of them, and which point of the glyph.
#[derive(Clone, Copy)]
pub struct NamedPoint {
    pub ordinal: usize,
    pub point: usize,
}

/// The named points of a contour that matter to a point: itself, the first and the last of all, and
/// the nearest before it and after it.
#[derive(Clone, Copy)]
pub struct Nearest {
    pub here: Option<NamedPoint>,
    pub first: Option<NamedPoint>,
    pub last: Option<NamedPoint>,
    pub before: Option<NamedPoint>,
    pub after: Option<NamedPoint>,
}

/// The named points between which a point's delta is; where it is named itself, twice that.
#[derive(Clone, Copy)]
pub struct Pair {
    pub before: NamedPoint,
    pub after: NamedPoint,
}

/// Packed numbers of points, so far.
#[derive(Clone, Copy)]
pub struct PointRun {
    pub at: usize,
    pub left: usize,
    pub words: bool,
    pub number: usize,
    pub near: Nearest,
}

/// Packed deltas, so far: the width of each in the run, and those of two named points.
#[derive(Clone, Copy)]
pub struct DeltaRun {
    pub at: usize,
    pub left: usize,
    pub width: usize,
    pub before: i16,
    pub after: i16,
}

/// The deltas of two named points.
#[derive(Clone, Copy)]
pub struct Deltas {
    pub before_x: i16,
    pub after_x: i16,
    pub before_y: i16,
    pub after_y: i16,
}

/// The first named point, with one more.
fn kept(first: Option<NamedPoint>, named: NamedPoint) -> Option<NamedPoint>
    ensures { result ≡ kept first named }
{
    match first {
        None => Some(named),
        Some(other) => {
            if other.point == named.point {
                Some(named)
            } else {
                Some(other)
            }
        }
    }
}

/// The named points that matter, with one more.
#[tactic(auto, unfolding(crate::specs::Packed::with_named))]
fn with_named(target: Target, near: Nearest, named: NamedPoint) -> Nearest
    ensures { result ≡ with_named target near named }
{
    if named.point < target.first || target.last < named.point {
        near
    } else if named.point < target.index {
        Nearest {
            here: near.here,
            first: kept(near.first, named),
            last: Some(named),
            before: Some(named),
            after: near.after,
        }
    } else if target.index < named.point {
        Nearest {
            here: near.here,
            first: kept(near.first, named),
            last: Some(named),
            before: near.before,
            after: kept(near.after, named),
        }
    } else {
        Nearest {
            here: Some(named),
            first: kept(near.first, named),
            last: Some(named),
            before: near.before,
            after: near.after,
        }
    }
}

/// A named point, or else another one.
fn or_else(named: Option<NamedPoint>, other: Option<NamedPoint>) -> Option<NamedPoint>
    ensures { result ≡ or_else named other }
{
    match named {
        Some(named) => Some(named),
        None => other,
    }
}

/// Two named points, if both are there.
fn pair_of(before: Option<NamedPoint>, after: Option<NamedPoint>) -> Option<Pair>
    ensures { result ≡ pair_of before after }
{
    match before {
        Some(before) => match after {
            Some(after) => Some(Pair { before, after }),
            None => None,
        },
        None => None,
    }
}

/// The named points between which a point's delta is.
#[tactic(auto, unfolding(crate::specs::Packed::chosen))]
pub fn chosen(near: Nearest) -> Option<Pair>
    ensures { result ≡ chosen near }
{
    let before = or_else(near.here, or_else(near.before, near.last));
    let after = or_else(near.here, or_else(near.after, near.first));
    pair_of(before, after)
}

/// The run of the next number.
#[tactic(auto, unfolding(crate::specs::Packed::next_control))]
fn next_control(bytes: &[u8], gvar: Table, run: PointRun) -> Result<PointRun, FontFault>
    requires within { IsWithin bytes.now gvar }
    requires near { run.at < 2 ^ 50 }
    ensures value { result ≡ next_control bytes.now gvar run }
    ensures near { IfOk result (λ next. next.at ≤ run.at + 1) }
    ensures same { IfOk result (λ next. next.number ≡ run.number) }
{
    if run.left > 0 {
        Ok(run)
    } else {
        let control = read_byte(bytes, gvar, run.at)?;
        Ok(PointRun {
            at: run.at + 1,
            left: usize::from(control % 128) + 1,
            words: control >= 128,
            number: run.number,
            near: run.near,
        })
    }
}

/// By how much the next number is more.
#[tactic(auto, unfolding(crate::specs::Packed::point_step))]
fn point_step(bytes: &[u8], gvar: Table, run: PointRun) -> Result<u16, FontFault>
    requires within { IsWithin bytes.now gvar }
    requires near { run.at < 2 ^ 51 }
    ensures { result ≡ point_step bytes.now gvar run }
{
    if run.words {
        read_u16(bytes, gvar, run.at)
    } else {
        let step = read_byte(bytes, gvar, run.at)?;
        Ok(u16::from(step))
    }
}

/// How many bytes a number of a run has.
fn width_of(words: bool) -> usize
    ensures value { result ≡ width_of words }
    ensures small { result ≤ 2 }
{
    if words { 2 } else { 1 }
}

/// The next number of a point.
#[tactic(auto, unfolding(crate::specs::Packed::next_named))]
fn next_named(
    bytes: &[u8],
    gvar: Table,
    target: Target,
    i: usize,
    before: PointRun,
) -> Result<PointRun, FontFault>
    requires within { IsWithin bytes.now gvar }
    requires few { i < 65536 }
    requires near { before.at < 2 ^ 45 }
    requires number { before.number < 2 ^ 40 }
    requires points { target.points < 2 ^ 40 }
    ensures value { result ≡ next_named bytes.now gvar target i before }
    ensures near { IfOk result (λ next. next.at ≤ before.at + 3) }
    ensures number { IfOk result (λ next. next.number < 2 ^ 40) }
{
    let run = next_control(bytes, gvar, before)?;
    let step = point_step(bytes, gvar, run)?;
    let number = run.number + usize::from(step);
    if number < target.points {
        let named = NamedPoint {
            ordinal: i,
            point: number,
        };
        Ok(PointRun {
            at: run.at + width_of(run.words),
            left: run.left.saturating_sub(1),
            words: run.words,
            number,
            near: with_named(target, run.near, named),
        })
    } else {
        Err(bad_format(gvar, run.at))
    }
}

/// No named points.
fn none_named() -> Nearest
    ensures { result ≡ none_named }
{
    Nearest {
        here: None,
        first: None,
        last: None,
        before: None,
        after: None,
    }
}

/// So many numbers of points, from a place on.
#[tactic(auto, using(crate::proofs::Turns::fold), unfolding(crate::specs::Packed::named_points))]
pub fn named_points(
    bytes: &[u8],
    gvar: Table,
    target: Target,
    at: usize,
    count: usize,
) -> Result<PointRun, FontFault>
    requires within { IsWithin bytes.now gvar }
    requires near { at ≤ 2 ^ 40 }
    requires few { count ≤ 65536 }
    requires points { target.points < 2 ^ 40 }
    ensures value { result ≡ named_points bytes.now gvar target at count }
    ensures near { IfOk result (λ run. run.at ≤ at + 3 * count) }
{
    let mut run = PointRun {
        at,
        left: 0,
        words: false,
        number: 0,
        near: none_named(),
    };
    for i in 0..count {
        run = next_named(bytes, gvar, target, i, run)?;
    }
    Ok(run)
}

/// The run of the next delta, which can't be both of zeros and of words.
#[tactic(auto, unfolding(crate::specs::Packed::delta_control))]
fn delta_control(bytes: &[u8], gvar: Table, run: DeltaRun) -> Result<DeltaRun, FontFault>
    requires within { IsWithin bytes.now gvar }
    requires near { run.at < 2 ^ 50 }
    requires width { run.width ≤ 2 }
    ensures value { result ≡ delta_control bytes.now gvar run }
    ensures near { IfOk result (λ next. next.at ≤ run.at + 1) }
    ensures width { IfOk result (λ next. next.width ≤ 2) }
{
    if run.left > 0 {
        Ok(run)
    } else {
        let control = read_byte(bytes, gvar, run.at)?;
        if control >= 192 {
            return Err(bad_format(gvar, run.at));
        }
        Ok(DeltaRun {
            at: run.at + 1,
            left: usize::from(control % 64) + 1,
            width: if control >= 128 {
                0
            } else if control >= 64 {
                2
            } else {
                1
            },
            before: run.before,
            after: run.after,
        })
    }
}

/// A delta of so many bytes.
#[tactic(auto, unfolding(crate::specs::Packed::delta_of_width))]
fn delta_of_width(bytes: &[u8], gvar: Table, width: usize, at: usize) -> Result<i16, FontFault>
    requires within { IsWithin bytes.now gvar }
    requires near { at < 2 ^ 51 }
    ensures { result ≡ delta_of_width bytes.now gvar width at }
{
    if width == 0 {
        Ok(0)
    } else if width == 1 {
        let delta = read_i8(bytes, gvar, at)?;
        Ok(i16::from(delta))
    } else {
        read_i16(bytes, gvar, at)
    }
}

/// The next delta.
#[tactic(auto, unfolding(crate::specs::Packed::next_delta))]
fn next_delta(
    bytes: &[u8],
    gvar: Table,
    pair: Pair,
    i: usize,
    before: DeltaRun,
) -> Result<DeltaRun, FontFault>
    requires within { IsWithin bytes.now gvar }
    requires near { before.at < 2 ^ 49 }
    requires width { before.width ≤ 2 }
    ensures value { result ≡ next_delta bytes.now gvar pair i before }
    ensures near { IfOk result (λ next. next.at ≤ before.at + 3) }
    ensures width { IfOk result (λ next. next.width ≤ 2) }
{
    let run = delta_control(bytes, gvar, before)?;
    let delta = delta_of_width(bytes, gvar, run.width, run.at)?;
    Ok(DeltaRun {
        at: run.at + run.width,
        left: run.left.saturating_sub(1),
        width: run.width,
        before: if i == pair.before.ordinal {
            delta
        } else {
            run.before
        },
        after: if i == pair.after.ordinal {
            delta
        } else {
            run.after
        },
    })
}

/// So many deltas, from a place on.
#[tactic(auto, using(crate::proofs::Turns::fold), unfolding(crate::specs::Packed::deltas_from))]
fn deltas_from(
    bytes: &[u8],
    gvar: Table,
    pair: Pair,
    at: usize,
    count: usize,
) -> Result<DeltaRun, FontFault>
    requires within { IsWithin bytes.now gvar }
    requires near { at ≤ 2 ^ 46 }
    requires few { count < 2 ^ 40 }
    ensures value { result ≡ deltas_from bytes.now gvar pair at count }
    ensures near { IfOk result (λ run. run.at ≤ at + 3 * count) }
{
    let mut run = DeltaRun {
        at,
        left: 0,
        width: 0,
        before: 0,
        after: 0,
    };
    for i in 0..count {
        run = next_delta(bytes, gvar, pair, i, run)?;
    }
    Ok(run)
}

/// The deltas of two named points, first in x and then in y.
#[tactic(auto, unfolding(crate::specs::Packed::deltas_of))]
pub fn deltas_of(
    bytes: &[u8],
    gvar: Table,
    pair: Pair,
    at: usize,
    count: usize,
) -> Result<Deltas, FontFault>
    requires within { IsWithin bytes.now gvar }
    requires near { at ≤ 2 ^ 42 }
    requires few { count < 2 ^ 40 }
    ensures { result ≡ deltas_of bytes.now gvar pair at count }
{
    let xs = deltas_from(bytes, gvar, pair, at, count)?;
    let ys = deltas_from(bytes, gvar, pair, xs.at, count)?;
    Ok(Deltas {
        before_x: xs.before,
        after_x: xs.after,
        before_y: ys.before,
        after_y: ys.after,
    })
}

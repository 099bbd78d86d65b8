ghost use Rattle.std.specs.Prelude.{◌≡◌, ◌+◌, ◌-◌, ◌*◌, ◌^◌, ◌<◌, ◌≤◌, ◌-ℤ◌, ◌+ℤ◌, ◌≤ℤ◌, pos};
ghost use Rattle.std.specs.Prelude.{IfOk, length};
ghost use Rattle.font_reader.specs.Fields.{IsWithin};
ghost use Rattle.font_reader.specs.Fold.{folded};
ghost use Rattle.font_reader.specs.Search.{first_found};
ghost use Rattle.font_reader.specs.Outlines.{FillsBoth, FillsOne, contour_of, contour_start};
ghost use Rattle.font_reader.specs.Outlines.{contour_with, coordinates, difference, flags_from};
ghost use Rattle.font_reader.specs.Outlines.{flags_place, has_bit, in_x, next_flag, next_point};
ghost use Rattle.font_reader.specs.Outlines.{outline_of, read_flag, short_difference, size_of};
ghost use Rattle.font_reader.specs.Outlines.{sizes_of, stroke_from, with_size, xs_of, ys_of};

use crate::faults::FontFault;
use crate::fields::{Table, read_byte, read_i16, read_u16};
use crate::versions::bad_format;

/// The bits of a flag for an axis: the difference is one byte, and that byte's sign, or without it
/// that there is no difference.
#[derive(Clone, Copy)]
pub struct Axis {
    pub short: u8,
    pub same: u8,
}

/// A flag, how many more points have it, and where the flag after it is.
#[derive(Clone, Copy)]
pub struct FlagRun {
    pub at: usize,
    pub left: u8,
    pub flag: u8,
}

/// The flags so far, and how many bytes the points' differences in x have.
#[derive(Clone, Copy)]
pub struct Sizes {
    pub run: FlagRun,
    pub bytes: usize,
}

/// The flags so far, where the next difference is, and a coordinate of the last point.
#[derive(Clone, Copy)]
pub struct Stroke {
    pub run: FlagRun,
    pub at: usize,
    pub value: i32,
}

/// The first point of a contour, and its last one.
#[derive(Clone, Copy)]
pub struct Contour {
    pub first: usize,
    pub last: usize,
}

/// Whether a flag has a bit.
fn has_bit(flag: u8, bit: u8) -> bool
    requires { 0 < bit }
    ensures { result ≡ has_bit flag bit }
{
    flag / bit % 2 == 1
}

/// A flag that is read, with its repeats.
#[tactic(auto, unfolding(crate::specs::Outlines::read_flag))]
fn read_flag(bytes: &[u8], glyf: Table, at: usize) -> Result<FlagRun, FontFault>
    requires within { IsWithin bytes.now glyf }
    requires near { at < 2 ^ 40 }
    ensures value { result ≡ read_flag bytes.now glyf at }
    ensures near { IfOk result (λ run. run.at ≤ at + 2) }
{
    let flag = read_byte(bytes, glyf, at)?;
    if flag > 127 {
        Err(bad_format(glyf, at))
    } else if has_bit(flag, 8) {
        let left = read_byte(bytes, glyf, at + 1)?;
        Ok(FlagRun {
            at: at + 2,
            left,
            flag,
        })
    } else {
        Ok(FlagRun {
            at: at + 1,
            left: 0,
            flag,
        })
    }
}

/// The flag of the next point.
#[tactic(auto, unfolding(crate::specs::Outlines::next_flag))]
fn next_flag(bytes: &[u8], glyf: Table, run: FlagRun) -> Result<FlagRun, FontFault>
    requires within { IsWithin bytes.now glyf }
    requires near { run.at < 2 ^ 40 }
    ensures value { result ≡ next_flag bytes.now glyf run }
    ensures near { IfOk result (λ next. next.at ≤ run.at + 2) }
{
    if run.left > 0 {
        Ok(FlagRun {
            at: run.at,
            left: run.left - 1,
            flag: run.flag,
        })
    } else {
        read_flag(bytes, glyf, run.at)
    }
}

/// How many bytes a difference has.
#[tactic(auto, unfolding(crate::specs::Outlines::size_of))]
fn size_of(axis: Axis, flag: u8) -> usize
    requires short { 0 < axis.short }
    requires same { 0 < axis.same }
    ensures value { result ≡ size_of axis flag }
    ensures small { result ≤ 2 }
{
    if has_bit(flag, axis.short) {
        1
    } else if has_bit(flag, axis.same) {
        0
    } else {
        2
    }
}

/// A difference of one byte.
#[tactic(auto, unfolding(crate::specs::Outlines::short_difference))]
fn short_difference(
    bytes: &[u8],
    glyf: Table,
    axis: Axis,
    flag: u8,
    at: usize,
) -> Result<i16, FontFault>
    requires within { IsWithin bytes.now glyf }
    requires near { at < 2 ^ 41 }
    requires same { 0 < axis.same }
    ensures { result ≡ short_difference bytes.now glyf axis flag at }
{
    let size = read_byte(bytes, glyf, at)?;
    if has_bit(flag, axis.same) {
        Ok(i16::from(size))
    } else {
        Ok(0 - i16::from(size))
    }
}

/// A difference.
#[tactic(auto, unfolding(crate::specs::Outlines::difference))]
fn difference(bytes: &[u8], glyf: Table, axis: Axis, flag: u8, at: usize) -> Result<i16, FontFault>
    requires within { IsWithin bytes.now glyf }
    requires near { at < 2 ^ 41 }
    requires short { 0 < axis.short }
    requires same { 0 < axis.same }
    ensures { result ≡ difference bytes.now glyf axis flag at }
{
    if has_bit(flag, axis.short) {
        short_difference(bytes, glyf, axis, flag, at)
    } else if has_bit(flag, axis.same) {
        Ok(0)
    } else {
        read_i16(bytes, glyf, at)
    }
}

/// The axis of x.
fn in_x() -> Axis
    ensures { result ≡ in_x }
{
    Axis { short: 2, same: 16 }
}

/// The flags and the bytes in x with those of one more point.
#[tactic(auto, unfolding(crate::specs::Outlines::with_size))]
fn with_size(bytes: &[u8], glyf: Table, i: usize, sizes: Sizes) -> Result<Sizes, FontFault>
    requires within { IsWithin bytes.now glyf }
    requires few { i < 65536 }
    requires near { sizes.run.at ≤ 2 ^ 36 + 2 * i }
    requires small { sizes.bytes ≤ 2 * i }
    ensures value { result ≡ with_size bytes.now glyf i sizes }
    ensures near { IfOk result (λ next. next.run.at ≤ 2 ^ 36 + 2 * (i + 1)) }
    ensures small { IfOk result (λ next. next.bytes ≤ 2 * (i + 1)) }
{
    let run = next_flag(bytes, glyf, sizes.run)?;
    Ok(Sizes {
        run,
        bytes: sizes.bytes + size_of(in_x(), run.flag),
    })
}

/// The flags before the first point.
fn flags_from(flags: usize) -> FlagRun
    ensures { result ≡ flags_from flags }
{
    FlagRun {
        at: flags,
        left: 0,
        flag: 0,
    }
}

/// The flags of so many points, and the bytes of their differences in x.
#[tactic(auto, using(crate::proofs::Turns::fold), unfolding(crate::specs::Outlines::sizes_of))]
fn sizes_of(bytes: &[u8], glyf: Table, flags: usize, points: usize) -> Result<Sizes, FontFault>
    requires within { IsWithin bytes.now glyf }
    requires near { flags ≤ 2 ^ 36 }
    requires few { points ≤ 65536 }
    ensures value { result ≡ sizes_of bytes.now glyf flags points }
    ensures near { IfOk result (λ sizes. sizes.run.at + sizes.bytes ≤ 2 ^ 37) }
{
    let mut sizes = Sizes {
        run: flags_from(flags),
        bytes: 0,
    };
    for i in 0..points {
        sizes = with_size(bytes, glyf, i, sizes)?;
    }
    Ok(sizes)
}

/// A coordinate with a difference.
fn moved(value: i32, step: i16, i: usize) -> i32
    requires few { i < 65536 }
    requires low { (pos 0 -ℤ pos (32768 * i)) ≤ℤ value }
    requires high { value ≤ℤ pos (32767 * i) }
    ensures value { result ≡ value +ℤ step }
    ensures low { (pos 0 -ℤ pos (32768 * (i + 1))) ≤ℤ result }
    ensures high { result ≤ℤ pos (32767 * (i + 1)) }
{
    value + i32::from(step)
}

/// The next point's coordinate.
#[tactic(auto, unfolding(crate::specs::Outlines::next_point))]
fn next_point(
    bytes: &[u8],
    glyf: Table,
    axis: Axis,
    i: usize,
    stroke: Stroke,
) -> Result<Stroke, FontFault>
    requires within { IsWithin bytes.now glyf }
    requires short { 0 < axis.short }
    requires same { 0 < axis.same }
    requires few { i < 65536 }
    requires near { stroke.run.at ≤ 2 ^ 36 + 2 * i }
    requires next { stroke.at ≤ 2 ^ 37 + 2 * i }
    requires low { (pos 0 -ℤ pos (32768 * i)) ≤ℤ stroke.value }
    requires high { stroke.value ≤ℤ pos (32767 * i) }
    ensures value { result ≡ next_point bytes.now glyf axis stroke }
    ensures near { IfOk result (λ next. next.run.at ≤ 2 ^ 36 + 2 * (i + 1)) }
    ensures next { IfOk result (λ next. next.at ≤ 2 ^ 37 + 2 * (i + 1)) }
    ensures low { IfOk result (λ next. (pos 0 -ℤ pos (32768 * (i + 1))) ≤ℤ next.value) }
    ensures high { IfOk result (λ next. next.value ≤ℤ pos (32767 * (i + 1))) }
{
    let run = next_flag(bytes, glyf, stroke.run)?;
    let step = difference(bytes, glyf, axis, run.flag, stroke.at)?;
    Ok(Stroke {
        run,
        at: stroke.at + size_of(axis, run.flag),
        value: moved(stroke.value, step, i),
    })
}

/// Puts the coordinates of so many points into the first places of a room.
#[tactic(auto, using(crate::proofs::Fills::fill))]
fn fill(
    bytes: &[u8],
    glyf: Table,
    axis: Axis,
    from: Stroke,
    points: usize,
    out: &mut [i32],
) -> Result<(), FontFault>
    requires within { IsWithin bytes.now glyf }
    requires short { 0 < axis.short }
    requires same { 0 < axis.same }
    requires few { points ≤ 65536 }
    requires room { points ≤ length out.old }
    requires near { from.run.at ≤ 2 ^ 36 }
    requires next { from.at ≤ 2 ^ 37 }
    requires zero { from.value ≡ pos 0 }
    ensures { FillsOne result points out.new (coordinates bytes.now glyf axis points from) }
{
    let mut stroke = from;
    for i in 0..points {
        stroke = next_point(bytes, glyf, axis, i, stroke)?;
        out[i] = stroke.value;
    }
    Ok(())
}

/// Where the flags of a simple glyph begin.
#[tactic(auto, unfolding(crate::specs::Outlines::flags_place))]
fn flags_place(bytes: &[u8], glyf: Table, at: usize, contours: usize) -> Result<usize, FontFault>
    requires within { IsWithin bytes.now glyf }
    requires near { at < 2 ^ 32 }
    requires few { contours < 65536 }
    ensures value { result ≡ flags_place bytes.now glyf at contours }
    ensures near { IfOk result (λ flags. flags ≤ 2 ^ 36) }
{
    let instructions = read_u16(bytes, glyf, at + 10 + 2 * contours)?;
    Ok(at + 12 + 2 * contours + usize::from(instructions))
}

/// Puts the points' x into a room.
#[tactic(auto, unfolding(crate::specs::Outlines::xs_of))]
fn fill_xs(
    bytes: &[u8],
    glyf: Table,
    flags: usize,
    sizes: Sizes,
    points: usize,
    xs: &mut [i32],
) -> Result<(), FontFault>
    requires within { IsWithin bytes.now glyf }
    requires few { points ≤ 65536 }
    requires room { points ≤ length xs.old }
    requires flags { flags ≤ 2 ^ 36 }
    requires near { sizes.run.at + sizes.bytes ≤ 2 ^ 37 }
    ensures { FillsOne result points xs.new (xs_of bytes.now glyf flags sizes points) }
{
    let from = Stroke {
        run: flags_from(flags),
        at: sizes.run.at,
        value: 0,
    };
    fill(bytes, glyf, in_x(), from, points, xs)
}

/// Puts the points' y into a room.
#[tactic(auto, unfolding(crate::specs::Outlines::ys_of))]
fn fill_ys(
    bytes: &[u8],
    glyf: Table,
    flags: usize,
    sizes: Sizes,
    points: usize,
    ys: &mut [i32],
) -> Result<(), FontFault>
    requires within { IsWithin bytes.now glyf }
    requires few { points ≤ 65536 }
    requires room { points ≤ length ys.old }
    requires flags { flags ≤ 2 ^ 36 }
    requires near { sizes.run.at + sizes.bytes ≤ 2 ^ 37 }
    ensures { FillsOne result points ys.new (ys_of bytes.now glyf flags sizes points) }
{
    let from = Stroke {
        run: flags_from(flags),
        at: sizes.run.at + sizes.bytes,
        value: 0,
    };
    fill(bytes, glyf, Axis { short: 4, same: 32 }, from, points, ys)
}

/// Puts the points of a simple glyph into a room.
#[tactic(auto, unfolding(crate::specs::Outlines::outline_of))]
pub fn fill_outline(
    bytes: &[u8],
    glyf: Table,
    at: usize,
    contours: usize,
    points: usize,
    xs: &mut [i32],
    ys: &mut [i32],
) -> Result<(), FontFault>
    requires within { IsWithin bytes.now glyf }
    requires near { at < 2 ^ 32 }
    requires contours { contours < 65536 }
    requires few { points ≤ 65536 }
    requires xs { points ≤ length xs.old }
    requires ys { points ≤ length ys.old }
    ensures { FillsBoth result points xs.new ys.new
        (outline_of bytes.now glyf at contours points) }
{
    let flags = flags_place(bytes, glyf, at, contours)?;
    let sizes = sizes_of(bytes, glyf, flags, points)?;
    fill_xs(bytes, glyf, flags, sizes, points, xs)?;
    fill_ys(bytes, glyf, flags, sizes, points, ys)
}

/// The first point of a contour.
fn contour_start(bytes: &[u8], glyf: Table, at: usize, i: usize) -> Result<usize, FontFault>
    requires within { IsWithin bytes.now glyf }
    requires near { at < 2 ^ 32 }
    requires few { i < 65536 }
    ensures { result ≡ contour_start bytes.now glyf at i }
{
    if i == 0 {
        Ok(0)
    } else {
        let end = read_u16(bytes, glyf, at + 10 + 2 * (i - 1))?;
        Ok(usize::from(end) + 1)
    }
}

/// A contour, if it ends at a point or after it.
#[tactic(auto, unfolding(crate::specs::Outlines::contour_with))]
fn contour_with(
    bytes: &[u8],
    glyf: Table,
    at: usize,
    index: usize,
    i: usize,
) -> Result<Option<Contour>, FontFault>
    requires within { IsWithin bytes.now glyf }
    requires near { at < 2 ^ 32 }
    requires few { i < 65536 }
    ensures { result ≡ contour_with bytes.now glyf at index i }
{
    let last = usize::from(read_u16(bytes, glyf, at + 10 + 2 * i)?);
    if last < index {
        Ok(None)
    } else {
        let first = contour_start(bytes, glyf, at, i)?;
        Ok(Some(Contour { first, last }))
    }
}

/// The first contour that ends at a point or after it.
#[tactic(auto, using(crate::proofs::Turns::found))]
fn first_contour(
    bytes: &[u8],
    glyf: Table,
    at: usize,
    contours: usize,
    index: usize,
) -> Result<Option<Contour>, FontFault>
    requires within { IsWithin bytes.now glyf }
    requires near { at < 2 ^ 32 }
    requires few { contours < 65536 }
    ensures { result ≡ first_found (contour_with bytes.now glyf at index) 0 contours }
{
    for i in 0..contours {
        if let Some(contour) = contour_with(bytes, glyf, at, index, i)? {
            return Ok(Some(contour));
        }
    }
    Ok(None)
}

/// The contour of a point.
#[tactic(auto, unfolding(crate::specs::Outlines::contour_of))]
pub fn contour_of(
    bytes: &[u8],
    glyf: Table,
    at: usize,
    contours: usize,
    index: usize,
) -> Result<Contour, FontFault>
    requires within { IsWithin bytes.now glyf }
    requires near { at < 2 ^ 32 }
    requires few { contours < 65536 }
    ensures { result ≡ contour_of bytes.now glyf at contours index }
{
    match first_contour(bytes, glyf, at, contours, index)? {
        Some(contour) => Ok(contour),
        None => Ok(Contour {
            first: index,
            last: index,
        }),
    }
}

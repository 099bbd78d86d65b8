ghost use Rattle.std.specs.Prelude.{◌≡◌, ◌+◌, ◌<◌, ◌≤◌, ◌++◌, length, map, replicate, true, IfOk};
ghost use Rattle.std.specs.Prelude.{OnOk};
ghost use Rattle.std.specs.List.{sum_by};
ghost use Rattle.delta_infer.specs.Moved.{moved_points};
ghost use Rattle.delta_infer.specs.Omitted.{contour_marks, omitted};
ghost use Rattle.delta_infer.specs.Laws.{AreMarks};
ghost use Rattle.delta_infer.specs.Parts.{run_fits, run_after};

use crate::inferred::{are_between, are_still};
use crate::moved::{MovedPoint, moved_points};
use refusal_codes::NoMemory;
use std::alloc::Global;

/// Which points can be left out: for each point of the contours, in order, whether its delta need
/// not be named.
///
/// The coordinates and the deltas are in font units, and there is one delta per point, in order. In
/// each contour the points are tried in order. A point is left out where, it and those that were
/// left out before it being unnamed and all others of the contour named, the delta that a font's
/// reader infers for every unnamed point of the contour is exactly its own (OpenType 1.9, "gvar",
/// "Inferred deltas for un-referenced point numbers", in 16.16). Which points are left out is
/// fontc's own.
///
/// It takes time for at most the square of the number of points of each contour, and for their
/// number alone where none moves.
///
/// # Errors
///
/// `NoMemory` alone, where memory ran out.
pub fn omit(
    alloc: Global,
    contours: &[Vec<(i32, i32)>],
    deltas: &[(i16, i16)],
) -> Result<Vec<bool>, NoMemory>
    requires { length deltas.now ≡ sum_by (λ contour. length contour.items) contours.now }
    ensures marks { IfOk result (λ marks. marks.items
        ≡ omitted (map (λ contour. contour.items) contours.now) deltas.now) }
    ensures laws { IfOk result (λ marks. AreMarks (map (λ contour. contour.items) contours.now)
        deltas.now marks.items) }
{
    let mut marks = Vec::with_capacity(alloc, deltas.len())?;
    let mut from = 0;
    for contour in contours {
        let end = from + contour.len();
        push_marks(alloc, &mut marks, contour.as_slice(), &deltas[from..end])?;
        from = end;
    }
    Ok(marks)
}

/// Adds the marks of a contour.
fn push_marks(
    alloc: Global,
    marks: &mut Vec<bool>,
    contour: &[(i32, i32)],
    deltas: &[(i16, i16)],
) -> Result<(), NoMemory>
    requires { length deltas.now ≡ length contour.now }
    ensures { OnOk result (marks.new.items
        ≡ marks.old.items ++ contour_marks (moved_points contour.now deltas.now)) }
{
    let points = moved_points(alloc, contour, deltas)?;
    if are_still(points.as_slice()) {
        push_all_left_out(marks, points.as_slice())
    } else {
        push_moving_marks(marks, points.as_slice())
    }
}

/// Adds the marks of points that are all left out.
#[tactic(auto, using(crate::proofs::Stills::filled))]
fn push_all_left_out(marks: &mut Vec<bool>, points: &[MovedPoint]) -> Result<(), NoMemory>
    ensures { OnOk result (marks.new.items
        ≡ marks.old.items ++ replicate (length points.now) true) }
{
    let len = marks.len() + points.len();
    marks.resize(len, true)?;
    Ok(())
}

/// The points that were left out last, and so far.
#[derive(Clone, Copy)]
pub struct Run {
    /// The first named point, once there is one.
    pub first: usize,
    /// Where the run begins: the point before it is named, or it is 0 and none is yet.
    pub start: usize,
}

impl Run {
    /// Whether the points from the run's start to `at` can be left out together, all after them
    /// being named. The last point of a contour has after it those before the first named one.
    fn fits(self, points: &[MovedPoint], at: usize) -> bool
        requires within { at < length points.now }
        requires begun { self.start ≤ at }
        requires named { self.first ≤ at }
        ensures { result ≡ run_fits points.now self.first self.start at }
    {
        let run = &points[self.start..at + 1];
        let last = points.len() - 1;
        if at < last {
            let before = if self.start == 0 {
                points[last]
            } else {
                points[self.start - 1]
            };
            are_between(before, points[at + 1], run)
        } else if self.start == 0 {
            are_still(run)
        } else {
            let before = points[self.start - 1];
            let after = points[self.first];
            are_between(before, after, run) && are_between(before, after, &points[..self.first])
        }
    }

    /// The run after the point `at`.
    fn after(self, at: usize, left_out: bool) -> Run
        requires { at < usize.MAX }
        ensures { result ≡ run_after self at left_out }
    {
        if left_out {
            self
        } else if self.start == 0 {
            Run {
                first: at,
                start: at + 1,
            }
        } else {
            Run {
                first: self.first,
                start: at + 1,
            }
        }
    }
}

/// Adds the marks of a contour that moves.
fn push_moving_marks(marks: &mut Vec<bool>, points: &[MovedPoint]) -> Result<(), NoMemory>
    ensures { OnOk result (marks.new.items ≡ marks.old.items ++ contour_marks points.now) }
{
    let mut run = Run { first: 0, start: 0 };
    for at in 0..points.len() {
        let left_out = run.fits(points, at);
        marks.push(left_out)?;
        run = run.after(at, left_out);
    }
    Ok(())
}

ghost use Rattle.std.specs.Prelude.{◌≡◌, ◌-◌, ◌^◌, min};
ghost use Rattle.font_ir.specs.FlatGlyphs.{point_count};
ghost use Rattle.component_flatten.specs.Flattening.{is_small};

use font_ir::Contour;
use refusal_codes::limits::COORDINATE;
use refusal_codes::{NoMemory, Rule};
use std::alloc::{AllocError, AllocFailed};

/// The greatest size of a coordinate in 16.16.
const SIZE_LIMIT: u32 = COORDINATE * 65536;

/// Why a glyph could not be drawn.
#[derive(Debug, Drop)]
pub enum LimitError {
    /// A rule on what is drawn fails.
    Broken(Rule),
    /// Memory ran out.
    NoMemory,
}

impl From<NoMemory> for LimitError {
    ghost use Rattle.component_flatten.specs.declared.limits.LimitError.TheVariants as limit_errors;

    ghost from_gives = { λ _ e. e ≡ limit_errors.NoMemory };

    fn from(_e: NoMemory) -> LimitError {
        LimitError::NoMemory
    }
}

impl From<AllocError> for LimitError {
    ghost use Rattle.component_flatten.specs.declared.limits.LimitError.TheVariants as limit_errors;

    ghost from_gives = { λ _ e. e ≡ limit_errors.NoMemory };

    fn from(_e: AllocError) -> LimitError {
        LimitError::NoMemory
    }
}

impl<T: Drop> From<AllocFailed<T>> for LimitError {
    ghost use Rattle.component_flatten.specs.declared.limits.LimitError.TheVariants as limit_errors;

    ghost from_gives = { λ _ e. e ≡ limit_errors.NoMemory };

    fn from(_e: AllocFailed<T>) -> LimitError {
        LimitError::NoMemory
    }
}

/// How many points the contours have, or the greatest number where they have more.
pub fn count_points(contours: &[Contour]) -> usize
    ensures { result ≡ min (point_count contours.now) (2 ^ 64 - 1) }
{
    let mut count: usize = 0;
    for contour in contours {
        count = count.saturating_add(contour.points.len());
    }
    count
}

/// Whether a coordinate in 16.16 is small.
pub fn is_small_number(raw: i64) -> bool
    ensures { result ≡ is_small (record { 0 = raw }) }
{
    raw.unsigned_abs() <= u64::from(SIZE_LIMIT)
}

use fixed_math::F2Dot14;
use std::alloc::{AllocError, AllocFailed};
use thiserror::Error;

/// Why an axis has no map from user to design coordinates.
#[derive(Debug, Drop, Error)]
pub enum MapError {
    /// The first normalised user coordinate at which the pairs don't rise.
    #[error("the pairs of the axis don't rise at {0:?}")]
    NotRising(F2Dot14),
    /// Memory ran out.
    #[error("memory ran out")]
    NoMemory,
}

impl From<AllocError> for MapError {
    ghost use Rattle.std.specs.Prelude.{◌≡◌};
    ghost use Rattle.axis_space.specs.declared.errors.MapError.TheVariants as map_errors;

    ghost from_gives = { λ _ e. e ≡ map_errors.NoMemory };

    fn from(_e: AllocError) -> MapError {
        MapError::NoMemory
    }
}

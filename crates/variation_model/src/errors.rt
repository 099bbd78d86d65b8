use refusal_codes::NoMemory;
use std::alloc::{AllocError, AllocFailed};
use thiserror::Error;

/// Why deltas could not be formed.
#[derive(Debug, Drop, Error)]
pub enum DeltaError {
    /// The first delta, in the model's order, that is outside an `i16`: its number there, counted
    /// from 0, and its value.
    #[error("delta {at} would be {value}")]
    TooLarge { at: u32, value: i64 },
    /// Memory ran out.
    #[error("memory ran out")]
    NoMemory,
}

impl From<NoMemory> for DeltaError {
    ghost use Rattle.std.specs.Prelude.{◌≡◌};
    ghost use Rattle.variation_model.specs.declared.errors.DeltaError.TheVariants as delta_errors;

    ghost from_gives = { λ _ e. e ≡ delta_errors.NoMemory };

    fn from(_e: NoMemory) -> DeltaError {
        DeltaError::NoMemory
    }
}

impl From<AllocError> for DeltaError {
    ghost use Rattle.std.specs.Prelude.{◌≡◌};
    ghost use Rattle.variation_model.specs.declared.errors.DeltaError.TheVariants as delta_errors;

    ghost from_gives = { λ _ e. e ≡ delta_errors.NoMemory };

    fn from(_e: AllocError) -> DeltaError {
        DeltaError::NoMemory
    }
}

impl<T: Drop> From<AllocFailed<T>> for DeltaError {
    ghost use Rattle.std.specs.Prelude.{◌≡◌};
    ghost use Rattle.variation_model.specs.declared.errors.DeltaError.TheVariants as delta_errors;

    ghost from_gives = { λ _ e. e ≡ delta_errors.NoMemory };

    fn from(_e: AllocFailed<T>) -> DeltaError {
        DeltaError::NoMemory
    }
}

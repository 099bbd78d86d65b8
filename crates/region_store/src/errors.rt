use refusal_codes::NoMemory;
use std::alloc::{AllocError, AllocFailed};
use thiserror::Error;

/// Why a row could not be added to a store.
#[derive(Debug, Drop, Error)]
pub enum StoreError {
    /// This many rows stand there already, and the row is not among them.
    #[error("a store of {0} rows is full")]
    Full(u32),
    /// Memory ran out.
    #[error("memory ran out")]
    NoMemory,
}

impl From<NoMemory> for StoreError {
    ghost use Rattle.std.specs.Prelude.{◌≡◌};
    ghost use Rattle.region_store.specs.declared.errors.StoreError.TheVariants as store_errors;

    ghost from_gives = { λ _ e. e ≡ store_errors.NoMemory };

    fn from(_e: NoMemory) -> StoreError {
        StoreError::NoMemory
    }
}

impl From<AllocError> for StoreError {
    ghost use Rattle.std.specs.Prelude.{◌≡◌};
    ghost use Rattle.region_store.specs.declared.errors.StoreError.TheVariants as store_errors;

    ghost from_gives = { λ _ e. e ≡ store_errors.NoMemory };

    fn from(_e: AllocError) -> StoreError {
        StoreError::NoMemory
    }
}

impl<T: Drop> From<AllocFailed<T>> for StoreError {
    ghost use Rattle.std.specs.Prelude.{◌≡◌};
    ghost use Rattle.region_store.specs.declared.errors.StoreError.TheVariants as store_errors;

    ghost from_gives = { λ _ e. e ≡ store_errors.NoMemory };

    fn from(_e: AllocFailed<T>) -> StoreError {
        StoreError::NoMemory
    }
}

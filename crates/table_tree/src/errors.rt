use refusal_codes::NoMemory;
use std::alloc::{AllocError, AllocFailed};
use thiserror::Error;

/// Why a tree could not be laid out.
#[derive(Debug, Drop, Error)]
pub enum LayoutError {
    /// The first offset, by its place in the bytes, that is greater than its width holds.
    #[error("an offset of {0} is too large")]
    Offset(u64),
    /// Memory ran out.
    #[error("memory ran out")]
    NoMemory,
}

impl From<NoMemory> for LayoutError {
    ghost use Rattle.std.specs.Prelude.{◌≡◌};
    ghost use Rattle.table_tree.specs.declared.errors.LayoutError.TheVariants as layout_errors;

    ghost from_gives = { λ _ e. e ≡ layout_errors.NoMemory };

    fn from(_e: NoMemory) -> LayoutError {
        LayoutError::NoMemory
    }
}

impl From<AllocError> for LayoutError {
    ghost use Rattle.std.specs.Prelude.{◌≡◌};
    ghost use Rattle.table_tree.specs.declared.errors.LayoutError.TheVariants as layout_errors;

    ghost from_gives = { λ _ e. e ≡ layout_errors.NoMemory };

    fn from(_e: AllocError) -> LayoutError {
        LayoutError::NoMemory
    }
}

impl<T: Drop> From<AllocFailed<T>> for LayoutError {
    ghost use Rattle.std.specs.Prelude.{◌≡◌};
    ghost use Rattle.table_tree.specs.declared.errors.LayoutError.TheVariants as layout_errors;

    ghost from_gives = { λ _ e. e ≡ layout_errors.NoMemory };

    fn from(_e: AllocFailed<T>) -> LayoutError {
        LayoutError::NoMemory
    }
}

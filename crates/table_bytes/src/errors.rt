use refusal_codes::NoMemory;
use std::alloc::{AllocError, AllocFailed};
use thiserror::Error;

/// Why a table or a font could not be built.
#[derive(Debug, Drop, Error)]
pub enum TableError {
    /// It would have this many bytes, more than 4,294,967,295.
    #[error("a table of {0} bytes is too large")]
    TooLarge(u64),
    /// Memory ran out.
    #[error("memory ran out")]
    NoMemory,
}

impl From<NoMemory> for TableError {
    ghost use Rattle.std.specs.Prelude.{◌≡◌};
    ghost use Rattle.table_bytes.specs.declared.errors.TableError.TheVariants as table_errors;

    ghost from_gives = { λ _ e. e ≡ table_errors.NoMemory };

    fn from(_e: NoMemory) -> TableError {
        TableError::NoMemory
    }
}

impl From<AllocError> for TableError {
    ghost use Rattle.std.specs.Prelude.{◌≡◌};
    ghost use Rattle.table_bytes.specs.declared.errors.TableError.TheVariants as table_errors;

    ghost from_gives = { λ _ e. e ≡ table_errors.NoMemory };

    fn from(_e: AllocError) -> TableError {
        TableError::NoMemory
    }
}

impl<T: Drop> From<AllocFailed<T>> for TableError {
    ghost use Rattle.std.specs.Prelude.{◌≡◌};
    ghost use Rattle.table_bytes.specs.declared.errors.TableError.TheVariants as table_errors;

    ghost from_gives = { λ _ e. e ≡ table_errors.NoMemory };

    fn from(_e: AllocFailed<T>) -> TableError {
        TableError::NoMemory
    }
}

ghost use Rattle.std.specs.Prelude.{◌≡◌};
ghost use Rattle.refusal_codes.specs.declared.errors.ReadError.TheVariants as read_errors;
ghost use Rattle.refusal_codes.specs.declared.errors.CompileError.TheVariants as compile_errors;

use crate::refusal::Refusal;
use std::alloc::{AllocError, AllocFailed};

/// Memory ran out.
#[derive(Clone, Copy, Debug, PartialEq, Eq)]
pub struct NoMemory;

impl From<AllocError> for NoMemory {
    fn from(_e: AllocError) -> NoMemory {
        NoMemory
    }
}

impl<T: Drop> From<AllocFailed<T>> for NoMemory {
    fn from(_e: AllocFailed<T>) -> NoMemory {
        NoMemory
    }
}

/// Why a part of a source could not be read.
#[derive(Debug, Drop)]
pub enum ReadError {
    /// A rule fails.
    Refused(Refusal),
    /// Memory ran out.
    NoMemory,
}

impl From<NoMemory> for ReadError {
    ghost from_gives = { λ _ e. e ≡ read_errors.NoMemory };

    fn from(_e: NoMemory) -> ReadError {
        ReadError::NoMemory
    }
}

impl From<AllocError> for ReadError {
    ghost from_gives = { λ _ e. e ≡ read_errors.NoMemory };

    fn from(_e: AllocError) -> ReadError {
        ReadError::NoMemory
    }
}

impl<T: Drop> From<AllocFailed<T>> for ReadError {
    ghost from_gives = { λ _ e. e ≡ read_errors.NoMemory };

    fn from(_e: AllocFailed<T>) -> ReadError {
        ReadError::NoMemory
    }
}

/// Why a source could not be compiled.
#[derive(Debug, Drop)]
pub enum CompileError {
    /// A rule fails.
    Refused(Refusal),
    /// Memory ran out.
    NoMemory,
}

impl From<NoMemory> for CompileError {
    ghost from_gives = { λ _ e. e ≡ compile_errors.NoMemory };

    fn from(_e: NoMemory) -> CompileError {
        CompileError::NoMemory
    }
}

impl From<AllocError> for CompileError {
    ghost from_gives = { λ _ e. e ≡ compile_errors.NoMemory };

    fn from(_e: AllocError) -> CompileError {
        CompileError::NoMemory
    }
}

impl<T: Drop> From<AllocFailed<T>> for CompileError {
    ghost from_gives = { λ _ e. e ≡ compile_errors.NoMemory };

    fn from(_e: AllocFailed<T>) -> CompileError {
        CompileError::NoMemory
    }
}

/// A refusal stays the same one, and so does want of memory.
impl From<ReadError> for CompileError {
    ghost use Rattle.refusal_codes.specs.Gives.{compile_error_of};

    ghost from_gives = { λ e made. made ≡ compile_error_of e };

    fn from(e: ReadError) -> CompileError {
        match e {
            ReadError::Refused(refusal) => CompileError::Refused(refusal),
            ReadError::NoMemory => CompileError::NoMemory,
        }
    }
}

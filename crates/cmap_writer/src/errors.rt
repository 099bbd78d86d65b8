use refusal_codes::NoMemory;
use thiserror::Error;

/// Why a table "cmap" could not be built.
#[derive(Debug, Drop, Error)]
pub enum CmapError {
    /// Its subtable of format 4 would have this many bytes, more than 65,535.
    #[error("a subtable of {0} bytes is too large")]
    TooLarge(u64),
    /// Memory ran out.
    #[error("memory ran out")]
    NoMemory,
}

impl From<NoMemory> for CmapError {
    ghost use Rattle.std.specs.Prelude.{◌≡◌};
    ghost use Rattle.cmap_writer.specs.declared.errors.CmapError.TheVariants as cmap_errors;

    ghost from_gives = { λ _ e. e ≡ cmap_errors.NoMemory };

    fn from(_e: NoMemory) -> CmapError {
        CmapError::NoMemory
    }
}

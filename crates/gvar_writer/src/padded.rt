ghost use Rattle.std.specs.Prelude.{◌≡◌, OnOk};
ghost use Rattle.table_bytes.specs.DataTypes.{padded};

use refusal_codes::NoMemory;
use table_bytes::{padding, push_zeros};

/// Adds zeros up to a multiple of four bytes.
pub fn pad(bytes: &mut Vec<u8>) -> Result<(), NoMemory>
    ensures { OnOk result (bytes.new.items ≡ padded bytes.old.items) }
{
    let zeros = padding(bytes.len());
    push_zeros(bytes, zeros)?;
    Ok(())
}

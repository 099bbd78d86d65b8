ghost use Rattle.std.specs.Prelude.{◌≡◌, ◌++◌, OnOk};
ghost use Rattle.std.specs.List.{flat_map};
ghost use Rattle.table_bytes.specs.DataTypes.{uint16};

use std::alloc::AllocError;
use table_bytes::push_uint16;

/// Appends numbers of 16 bits, the high byte first.
pub fn push_words(table: &mut Vec<u8>, words: &[u16]) -> Result<(), AllocError>
    ensures { OnOk result (table.new.items ≡ table.old.items ++ flat_map uint16 words.now) }
{
    for word in words {
        push_uint16(table, *word)?;
    }
    Ok(())
}

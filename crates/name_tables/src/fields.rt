ghost use Rattle.std.specs.Prelude.{◌≡◌, ◌++◌, OnOk};
ghost use Rattle.name_tables.specs.Fvar.{fixed};

use fixed_math::Fixed;
use std::alloc::AllocError;
use table_bytes::push_uint32;

/// Appends a number in 16.16 (OpenType 1.9, "Data types").
pub fn push_fixed(table: &mut Vec<u8>, number: Fixed) -> Result<(), AllocError>
    ensures { OnOk result (table.new.items ≡ table.old.items ++ fixed number.0) }
{
    push_uint32(table, number.0.cast_unsigned())
}

ghost use Rattle.std.specs.Prelude.{◌≡◌, ◌+◌, ◌<◌, ◌++◌, replicate, OnOk};
ghost use Rattle.std.specs.Vec.{vec_len};
ghost use Rattle.table_bytes.specs.DataTypes.{uint16, uint32, int16, padding};

use byteorder::{BigEndian, ByteOrder};
use std::alloc::AllocError;

/// Appends a uint16 (OpenType 1.9, "Data types").
pub fn push_uint16(bytes: &mut Vec<u8>, number: u16) -> Result<(), AllocError>
    ensures bytes { OnOk result (bytes.new.items ≡ bytes.old.items ++ uint16 number) }
    ensures len { OnOk result (vec_len bytes.new ≡ vec_len bytes.old + 2) }
{
    let mut field = [0; 2];
    BigEndian::write_u16(&mut field, number);
    bytes.extend_from_slice(&field)
}

/// Appends an int16 (OpenType 1.9, "Data types").
pub fn push_int16(bytes: &mut Vec<u8>, number: i16) -> Result<(), AllocError>
    ensures bytes { OnOk result (bytes.new.items ≡ bytes.old.items ++ int16 number) }
    ensures len { OnOk result (vec_len bytes.new ≡ vec_len bytes.old + 2) }
{
    let mut field = [0; 2];
    BigEndian::write_i16(&mut field, number);
    bytes.extend_from_slice(&field)
}

/// Appends a uint32 (OpenType 1.9, "Data types").
pub fn push_uint32(bytes: &mut Vec<u8>, number: u32) -> Result<(), AllocError>
    ensures bytes { OnOk result (bytes.new.items ≡ bytes.old.items ++ uint32 number) }
    ensures len { OnOk result (vec_len bytes.new ≡ vec_len bytes.old + 4) }
{
    let mut field = [0; 4];
    BigEndian::write_u32(&mut field, number);
    bytes.extend_from_slice(&field)
}

/// How many bytes are missing to a multiple of four.
pub fn padding(len: usize) -> usize
    ensures value { result ≡ padding len }
    ensures small { result < 4 }
{
    (4 - len % 4) % 4
}

/// Appends up to three zeros.
#[tactic(auto, using(crate::proofs::FieldLemmas::take_zeros))]
pub fn push_zeros(bytes: &mut Vec<u8>, count: usize) -> Result<(), AllocError>
    requires { count < 4 }
    ensures bytes { OnOk result (bytes.new.items ≡ bytes.old.items ++ replicate count 0) }
    ensures len { OnOk result (vec_len bytes.new ≡ vec_len bytes.old + count) }
{
    bytes.extend_from_slice(&[0; 4][..count])
}

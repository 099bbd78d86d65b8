ghost use Rattle.std.specs.Prelude.{◌≡◌, ◌<◌, length};
ghost use Rattle.font_assembly.specs.Checksum as sums;

use byteorder::{BigEndian, ByteOrder};

/// The number that fewer than four bytes hold, with zeros after them.
fn last_word(bytes: &[u8]) -> u32
    requires { length bytes.now < 4 }
    ensures { result ≡ sums.total bytes.now }
{
    let mut word = [0; 4];
    word[..bytes.len()].copy_from_slice(bytes);
    BigEndian::read_u32(&word)
}

/// The sum of the 32-bit numbers of padded bytes, which wraps.
pub fn checksum(bytes: &[u8]) -> u32
    ensures { result ≡ sums.checksum bytes.now }
{
    let mut sum = 0u32;
    let mut rest = bytes;
    while rest.len() >= 4 {
        sum = sum.wrapping_add(BigEndian::read_u32(rest));
        rest = &rest[4..];
    }
    sum.wrapping_add(last_word(rest))
}

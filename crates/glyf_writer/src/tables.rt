ghost use Rattle.std.specs.Prelude.{◌≡◌, ◌≤◌, ◌*◌, ◌+◌, ℕ, List, length, map, min, IfOk};
ghost use Rattle.std.specs.List.{concat};
ghost use Rattle.refusal_codes.specs.declared.limits.TheConstants.{TABLE_BYTES};
ghost use Rattle.table_bytes.specs.Tables.{Builds, over_limit};
ghost use Rattle.glyf_writer.specs.Tables.{glyf_bytes, loca_bytes, too_large};

use refusal_codes::NoMemory;
use refusal_codes::limits::TABLE_BYTES;
use std::alloc::Global;
use std::sync::Arc;
use table_bytes::{TableError, push_uint32};

/// The table "glyf" (OpenType 1.9) of each glyph's data, in the order of the glyph numbers.
///
/// # Errors
///
/// `TooLarge` with its length, or `u64::MAX` where it is longer, exactly where that is more than
/// 4,294,967,295 bytes. `NoMemory` comes only where it isn't.
pub fn glyf_table(alloc: Global, parts: &[Arc<Vec<u8>>]) -> Result<Vec<u8>, TableError>
    ensures { Builds {Y = List ℕ} (λ glyf. glyf.items) result
        (over_limit (length (glyf_bytes (map (λ part. part.value.items) parts.now))))
        (glyf_bytes (map (λ part. part.value.items) parts.now)) }
{
    let length = total_length(parts);
    if length > TABLE_BYTES {
        return Err(TableError::TooLarge(length));
    }
    Ok(joined(alloc, parts)?)
}

/// The table "loca" (OpenType 1.9), which says where each glyph's data begin in "glyf": with long
/// offsets. It measures "glyf", and doesn't build it.
///
/// # Errors
///
/// `TooLarge` with the length of "glyf", or `u64::MAX` where it is longer, exactly where that is
/// more than 4,294,967,295 bytes, so that no offset of 32 bits tells its end; or else with that of
/// "loca" exactly where that is. `NoMemory` comes only where neither is.
pub fn loca_table(alloc: Global, parts: &[Arc<Vec<u8>>]) -> Result<Vec<u8>, TableError>
    ensures { Builds {Y = List ℕ} (λ loca. loca.items) result
        (too_large (map (λ part. part.value.items) parts.now))
        (loca_bytes (map (λ part. part.value.items) parts.now)) }
{
    let glyf_length = total_length(parts);
    if glyf_length > TABLE_BYTES {
        return Err(TableError::TooLarge(glyf_length));
    }
    let loca_length = (parts.len() as u64).saturating_add(1).saturating_mul(4);
    if loca_length > TABLE_BYTES {
        return Err(TableError::TooLarge(loca_length));
    }
    Ok(loca_of(alloc, parts)?)
}

/// How many bytes all parts have, at most the greatest number of 64 bits.
fn total_length(parts: &[Arc<Vec<u8>>]) -> u64
    ensures { result ≡ min (length (concat (map (λ part. part.value.items) parts.now)))
        18446744073709551615 }
{
    let mut total: u64 = 0;
    for part in parts {
        total = total.saturating_add(part.len() as u64);
    }
    total
}

/// The parts, one after another.
fn joined(alloc: Global, parts: &[Arc<Vec<u8>>]) -> Result<Vec<u8>, NoMemory>
    requires { length (concat (map (λ part. part.value.items) parts.now)) ≤ TABLE_BYTES }
    ensures { IfOk result (λ glyf. glyf.items
        ≡ glyf_bytes (map (λ part. part.value.items) parts.now)) }
{
    let mut glyf = Vec::with_capacity(alloc, total_length(parts) as usize)?;
    for part in parts {
        glyf.extend_from_slice(part.as_slice())?;
    }
    Ok(glyf)
}

/// Where each part begins among the parts, and last where the last one ends.
fn loca_of(alloc: Global, parts: &[Arc<Vec<u8>>]) -> Result<Vec<u8>, NoMemory>
    requires glyf { length (concat (map (λ part. part.value.items) parts.now)) ≤ TABLE_BYTES }
    requires loca { 4 * (length parts.now + 1) ≤ TABLE_BYTES }
    ensures { IfOk result (λ loca. loca.items
        ≡ loca_bytes (map (λ part. part.value.items) parts.now)) }
{
    let mut loca = Vec::with_capacity(alloc, 4 * (parts.len() + 1))?;
    let mut offset: u32 = 0;
    for part in parts {
        push_uint32(&mut loca, offset)?;
        offset += part.len() as u32;
    }
    push_uint32(&mut loca, offset)?;
    Ok(loca)
}

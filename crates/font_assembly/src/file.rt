ghost use Rattle.std.specs.Prelude.{◌≡◌, ◌+◌, ◌-◌, ◌*◌, ◌^◌, ◌<◌, ◌≤◌, ◌++◌, ℕ, List, length, min};
ghost use Rattle.std.specs.Prelude.{OnOk, IsTrue};
ghost use Rattle.std.specs.Vec.{vec_len};
ghost use Rattle.std.specs.Arc.{arc_value};
ghost use Rattle.refusal_codes.specs.declared.limits.TheConstants.{TABLES};
ghost use Rattle.table_bytes.specs.DataTypes.{padded};
ghost use Rattle.table_bytes.specs.Tables.{Builds, over_limit};
ghost use Rattle.font_assembly.specs.Checksum as sums;
ghost use Rattle.font_assembly.specs.File as files;
ghost use Rattle.font_assembly.specs.Assembled.{table_of, tables_of};

use crate::checksums::checksum;
use byteorder::{BigEndian, ByteOrder};
use font_ir::Tag;
use std::alloc::{AllocError, Global};
use std::sync::Arc;
use table_bytes::{TableError, padding, push_uint16, push_uint32, push_zeros};

/// A table: its tag and its bytes.
type Table = (Tag, Arc<Vec<u8>>);

const HEAD: Tag = Tag(*b"head");

/// What the checksum of a whole font is (OpenType 1.9, "head", checksumAdjustment).
const WHOLE: u32 = 0xB1B0_AFBA;

/// Where checksumAdjustment stands in 'head', and where it ends.
const ADJUSTMENT: usize = 8;

const AFTER_ADJUSTMENT: usize = 12;

/// How many bytes a table takes in the file.
fn room_of(table: &Table) -> u64
    ensures { result ≡ files.room_of (table_of table.now) }
{
    let len = table.1.len();
    len as u64 + padding(len) as u64
}

/// How many bytes the file has, or `u64::MAX` where it has more.
fn file_len(tables: &[Table]) -> u64
    requires { length tables.now ≤ TABLES }
    ensures { result ≡ min (files.file_len (tables_of tables.now)) 18446744073709551615 }
{
    let mut len = 12 + 16 * tables.len() as u64;
    for table in tables {
        len = len.saturating_add(room_of(table));
    }
    len
}

/// Where 'head' begins in the file.
fn head_offset(tables: &[Table]) -> usize
    requires count { length tables.now ≤ TABLES }
    requires fits { files.file_len (tables_of tables.now) < 2 ^ 32 }
    ensures { result ≡ files.head_offset (tables_of tables.now)
        (files.first_offset (tables_of tables.now)) }
{
    let mut offset = 12 + 16 * tables.len() as u64;
    for table in tables {
        if table.0 == HEAD {
            break;
        }
        offset += room_of(table);
    }
    offset as usize
}

/// Where checksumAdjustment stands in the file.
#[tactic(auto, using(crate::proofs::FileLemmas::head_offset_fits))]
fn adjustment_offset(tables: &[Table]) -> usize
    requires count { length tables.now ≤ TABLES }
    requires head { files.HasHead (tables_of tables.now) }
    requires fits { files.file_len (tables_of tables.now) < 2 ^ 32 }
    ensures value { result ≡ files.head_offset (tables_of tables.now)
        (files.first_offset (tables_of tables.now)) + 8 }
    ensures room { result + 46 ≤ files.file_len (tables_of tables.now) }
{
    head_offset(tables) + ADJUSTMENT
}

/// The binary logarithm of a count of tables, rounded down.
fn entry_selector(count: u16) -> u16
    requires few { count ≤ TABLES }
    requires some { 0 < count }
    ensures value { result ≡ files.entry_selector count }
    ensures power { 2 ^ result ≤ count }
{
    count.ilog2() as u16
}

/// Appends the directory's head for a count of tables.
#[tactic(auto, unfolding(crate::specs::File::directory_head))]
fn push_directory_head(font: &mut Vec<u8>, count: u16) -> Result<(), AllocError>
    requires few { count ≤ TABLES }
    requires some { 0 < count }
    ensures bytes { OnOk result (font.new.items ≡ font.old.items ++ files.directory_head count) }
    ensures len { OnOk result (vec_len font.new ≡ vec_len font.old + 12) }
{
    let entry_selector = entry_selector(count);
    let search_range = 16 * 2u16.pow(u32::from(entry_selector));
    push_uint32(font, 0x0001_0000)?;
    push_uint16(font, count)?;
    push_uint16(font, search_range)?;
    push_uint16(font, entry_selector)?;
    push_uint16(font, 16 * count - search_range)?;
    Ok(())
}

/// The checksum of a table, with 0 as the checksumAdjustment of 'head'.
fn table_checksum(table: &Table) -> u32
    requires { IsTrue (files.fits_head (table_of table.now)) }
    ensures { result ≡ sums.checksum (files.unadjusted (table_of table.now)) }
{
    let bytes = table.1.as_slice();
    if table.0 == HEAD {
        let front = checksum(&bytes[..ADJUSTMENT]);
        front.wrapping_add(checksum(&bytes[AFTER_ADJUSTMENT..]))
    } else {
        checksum(bytes)
    }
}

/// Appends a table's record in the directory.
#[tactic(auto, unfolding(crate::specs::File::directory_entry))]
fn push_entry(font: &mut Vec<u8>, table: &Table, offset: u32) -> Result<(), AllocError>
    requires head { IsTrue (files.fits_head (table_of table.now)) }
    requires fits { files.room_of (table_of table.now) < 2 ^ 32 }
    ensures bytes { OnOk result (font.new.items
        ≡ font.old.items ++ files.directory_entry (table_of table.now) offset) }
    ensures len { OnOk result (vec_len font.new ≡ vec_len font.old + 16) }
{
    font.extend_from_slice(&table.0.0)?;
    push_uint32(font, table_checksum(table))?;
    push_uint32(font, offset)?;
    push_uint32(font, table.1.len() as u32)?;
    Ok(())
}

/// Appends the records of all tables.
fn push_entries(font: &mut Vec<u8>, tables: &[Table]) -> Result<(), AllocError>
    requires count { length tables.now ≤ TABLES }
    requires head { files.HasHead (tables_of tables.now) }
    requires fits { files.file_len (tables_of tables.now) < 2 ^ 32 }
    ensures bytes { OnOk result (font.new.items
        ≡ font.old.items ++ files.directory_entries (tables_of tables.now)
        (files.first_offset (tables_of tables.now))) }
    ensures len { OnOk result (vec_len font.new ≡ vec_len font.old + 16 * length tables.now) }
{
    let mut offset = 12 + 16 * tables.len() as u64;
    for table in tables {
        push_entry(font, table, offset as u32)?;
        offset += room_of(table);
    }
    Ok(())
}

/// Appends a table's bytes, with 0 as the checksumAdjustment of 'head'.
fn push_unadjusted(font: &mut Vec<u8>, table: &Table) -> Result<(), AllocError>
    requires { IsTrue (files.fits_head (table_of table.now)) }
    ensures bytes { OnOk result (font.new.items
        ≡ font.old.items ++ files.unadjusted (table_of table.now)) }
    ensures len { OnOk result (vec_len font.new
        ≡ vec_len font.old + length (arc_value table.now.1).items) }
{
    let bytes = table.1.as_slice();
    if table.0 != HEAD {
        return font.extend_from_slice(bytes);
    }
    font.extend_from_slice(&bytes[..ADJUSTMENT])?;
    font.extend_from_slice(&[0; 4])?;
    font.extend_from_slice(&bytes[AFTER_ADJUSTMENT..])
}

/// Appends such bytes of a table, and zeros up to a multiple of four.
#[tactic(auto, using(crate::proofs::FileLemmas::length_unadjusted))]
fn push_body(font: &mut Vec<u8>, table: &Table) -> Result<(), AllocError>
    requires { IsTrue (files.fits_head (table_of table.now)) }
    ensures bytes { OnOk result (font.new.items
        ≡ font.old.items ++ padded (files.unadjusted (table_of table.now))) }
    ensures len { OnOk result (vec_len font.new
        ≡ vec_len font.old + files.room_of (table_of table.now)) }
{
    push_unadjusted(font, table)?;
    push_zeros(font, padding(table.1.len()))?;
    Ok(())
}

/// Appends the tables.
fn push_bodies(font: &mut Vec<u8>, tables: &[Table]) -> Result<(), AllocError>
    requires { files.HasHead (tables_of tables.now) }
    ensures bytes { OnOk result (font.new.items
        ≡ font.old.items ++ files.bodies (tables_of tables.now)) }
    ensures len { OnOk result (vec_len font.new
        ≡ vec_len font.old + files.room_of_all (tables_of tables.now)) }
{
    for table in tables {
        push_body(font, table)?;
    }
    Ok(())
}

/// Appends the whole file, with 0 as its checksumAdjustment.
#[tactic(auto, unfolding(crate::specs::File::unadjusted_file))]
fn push_file(font: &mut Vec<u8>, tables: &[Table]) -> Result<(), AllocError>
    requires count { length tables.now ≤ TABLES }
    requires head { files.HasHead (tables_of tables.now) }
    requires fits { files.file_len (tables_of tables.now) < 2 ^ 32 }
    ensures bytes { OnOk result (font.new.items
        ≡ font.old.items ++ files.unadjusted_file (tables_of tables.now)) }
    ensures len { OnOk result (vec_len font.new
        ≡ vec_len font.old + files.file_len (tables_of tables.now)) }
{
    push_directory_head(font, tables.len() as u16)?;
    push_entries(font, tables)?;
    push_bodies(font, tables)?;
    Ok(())
}

/// Writes the adjustment of a file's checksum at an offset.
fn adjust(font: &mut Vec<u8>, offset: usize)
    requires { offset + 4 ≤ vec_len font.old }
    ensures { font.new.items ≡ files.with_word font.old.items offset
        (files.adjustment font.old.items) }
{
    let adjustment = WHOLE.wrapping_sub(checksum(font));
    BigEndian::write_u32(&mut font[offset..offset + 4], adjustment);
}

/// The font file of tables (OpenType 1.9, "Organization of an OpenType Font"): the directory, and
/// the tables in the order given, each padded with zeros to a multiple of four bytes. Whatever the
/// checksumAdjustment of the 'head' that is handed in, the file has the one of OpenType 1.9,
/// "head", over the whole file. What its directory says of each table, its checksum and its length
/// are laws of `directory_leads_to_tables`.
///
/// # Errors
///
/// `TooLarge` with the file's length, or `u64::MAX` where it is longer, exactly where it has more
/// than 4,294,967,295 bytes. `NoMemory` comes only where it hasn't.
#[tactic(auto, unfolding(crate::specs::File::file))]
pub fn assemble(alloc: Global, tables: &[(Tag, Arc<Vec<u8>>)]) -> Result<Vec<u8>, TableError>
    requires count { length tables.now ≤ TABLES }
    requires tags { files.TagsRise (tables_of tables.now) }
    requires head { files.HasHead (tables_of tables.now) }
    ensures { Builds {Y = List ℕ} (λ font. font.items) result
        (over_limit (files.file_len (tables_of tables.now))) (files.file (tables_of tables.now)) }
{
    let len = file_len(tables);
    if len > u64::from(u32::MAX) {
        return Err(TableError::TooLarge(len));
    }
    let mut font = Vec::with_capacity(alloc, len as usize)?;
    push_file(&mut font, tables)?;
    adjust(&mut font, adjustment_offset(tables));
    Ok(font)
}

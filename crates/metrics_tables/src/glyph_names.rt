ghost use Rattle.std.specs.Prelude.{◌≡◌, ◌≤◌, ◌/◌, pos, neg_ℤ, ◌++◌, length, map, IfOk, OnOk};
ghost use Rattle.std.specs.List.{All, flat_map};
ghost use Rattle.font_ir.specs.Headers.{IsHeader};
ghost use Rattle.metrics_tables.specs.Post as spec;

use crate::fields::push_words;
use font_ir::{GlyphOrder, Header};
use refusal_codes::NoMemory;
use std::alloc::{AllocError, Global};
use table_bytes::{push_int16, push_uint16, push_uint32};

/// The number of the first name that is stored, behind the standard ones.
const FIRST_NAME: u32 = 258;

/// The most glyphs whose names are told.
const MOST_NAMES: usize = 65279;

/// Version 2.0, which tells the glyphs' names, in 16.16.
const VERSION_2: u32 = 0x0002_0000;

/// Version 3.0, which doesn't, in 16.16.
const VERSION_3: u32 = 0x0003_0000;

/// Where the middle of the line under letters is, in font units: a tenth of the em below.
fn underline_position(upem: u16) -> i16
    ensures { result ≡ neg_ℤ (pos (upem / 10)) }
{
    -((upem / 10) as i16)
}

/// How thick the line under letters is, in font units.
fn underline_thickness(upem: u16) -> i16
    ensures { result ≡ pos (upem / 20) }
{
    (upem / 20) as i16
}

/// Appends where the line under letters is, and how thick.
#[tactic(auto, unfolding(crate::specs::Post::underline_fields))]
fn push_underline(table: &mut Vec<u8>, upem: u16) -> Result<(), AllocError>
    ensures { OnOk result (table.new.items ≡ table.old.items ++ spec.underline_fields upem) }
{
    push_int16(table, underline_position(upem))?;
    push_int16(table, underline_thickness(upem))
}

/// Appends the pitch, and the memory that the font takes.
#[tactic(auto, unfolding(crate::specs::Post::memory_fields))]
fn push_memory(table: &mut Vec<u8>) -> Result<(), AllocError>
    ensures { OnOk result (table.new.items ≡ table.old.items ++ spec.memory_fields) }
{
    push_words(table, &[0, 0, 0, 0, 0, 0, 0, 0, 0, 0])
}

/// Appends the fields that every version has.
#[tactic(auto, unfolding(crate::specs::Post::post_head))]
fn push_head(table: &mut Vec<u8>, version: u32, upem: u16) -> Result<(), AllocError>
    ensures { OnOk result (table.new.items ≡ table.old.items ++ spec.post_head version upem) }
{
    push_uint32(table, version)?;
    push_uint32(table, 0)?;
    push_underline(table, upem)?;
    push_memory(table)
}

/// Whether a name is that of the glyph for missing characters.
fn is_notdef(name: &[u8]) -> bool
    ensures { result ≡ spec.is_notdef name.now }
{
    name == b".notdef".as_slice()
}

/// Appends the number of each name.
fn push_indexes(table: &mut Vec<u8>, names: &[Vec<u8>]) -> Result<(), AllocError>
    requires { length names.now ≤ 65279 }
    ensures { OnOk result (table.new.items ≡ table.old.items
        ++ spec.name_indexes 258 (map (λ name. name.items) names.now)) }
{
    let mut next = FIRST_NAME;
    for name in names {
        if is_notdef(name.as_slice()) {
            push_uint16(table, 0)?;
        } else {
            push_uint16(table, (next % 65536) as u16)?;
            next += 1;
        }
    }
    Ok(())
}

/// Appends a name that is stored.
fn push_name(table: &mut Vec<u8>, name: &[u8]) -> Result<(), AllocError>
    requires { length name.now ≤ 255 }
    ensures { OnOk result (table.new.items ≡ table.old.items ++ spec.stored_name name.now) }
{
    if is_notdef(name) {
        return Ok(());
    }
    table.push(name.len() as u8)?;
    table.extend_from_slice(name)
}

/// Appends the names that are stored.
fn push_names(table: &mut Vec<u8>, names: &[Vec<u8>]) -> Result<(), AllocError>
    requires { All (λ name. length name.items ≤ 255) names.now }
    ensures { OnOk result (table.new.items ≡ table.old.items
        ++ flat_map spec.stored_name (map (λ name. name.items) names.now)) }
{
    for name in names {
        push_name(table, name.as_slice())?;
    }
    Ok(())
}

/// Appends what version 2.0 tells of the glyphs' names.
#[tactic(auto, unfolding(crate::specs::Post::names_part))]
fn push_names_part(table: &mut Vec<u8>, names: &[Vec<u8>]) -> Result<(), AllocError>
    requires few { length names.now ≤ 65279 }
    requires short { All (λ name. length name.items ≤ 255) names.now }
    ensures { OnOk result (table.new.items ≡ table.old.items
        ++ spec.names_part (map (λ name. name.items) names.now)) }
{
    push_uint16(table, names.len() as u16)?;
    push_indexes(table, names)?;
    push_names(table, names)
}

/// The table `post` (OpenType 1.9, "post"), with the glyphs' names where there are at most 65,279
/// glyphs.
///
/// # Errors
///
/// `NoMemory` where memory runs out.
pub fn post(alloc: Global, header: &Header, order: &GlyphOrder) -> Result<Vec<u8>, NoMemory>
    requires { IsHeader header.now }
    ensures { IfOk result (λ table. table.items ≡ spec.post_table header.now order.now) }
{
    let mut table = Vec::new(alloc);
    if order.len() <= MOST_NAMES {
        push_head(&mut table, VERSION_2, header.upem)?;
        push_names_part(&mut table, order.names())?;
    } else {
        push_head(&mut table, VERSION_3, header.upem)?;
    }
    Ok(table)
}

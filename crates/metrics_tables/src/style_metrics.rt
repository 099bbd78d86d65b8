ghost use Rattle.std.specs.Prelude.{◌≡◌, ◌≤◌, ◌++◌, pos, ◌≤ℤ◌, length, IfOk, OnOk};
ghost use Rattle.font_ir.specs.Headers.{IsHeader};
ghost use Rattle.metrics_tables.specs.Os2 as spec;
ghost use Rattle.metrics_tables.specs.Tables.{AreMeasures};

use crate::fields::push_words;
use crate::measures::Measures;
use font_ir::{Header, Master};
use refusal_codes::NoMemory;
use std::alloc::{AllocError, Global};
use table_bytes::push_uint16;

/// The mean of the advance widths that are not zero, rounded down; 0 where there are none.
#[tactic(auto, using(std::proofs::lemmas::Nat::div_below))]
fn mean_advance(advances: &[u16]) -> u16
    requires { length advances.now ≤ 65535 }
    ensures { result ≡ spec.mean_advance advances.now }
{
    let mut total: u64 = 0;
    let mut count: u64 = 0;
    for advance in advances {
        if *advance > 0 {
            total += u64::from(*advance);
            count += 1;
        }
    }
    if count == 0 {
        return 0;
    }
    (total / count) as u16
}

/// The least code, at most 65535; 0 where there is none.
fn first_code(codes: &[(u32, u16)]) -> u16
    ensures { result ≡ spec.first_code codes.now }
{
    if codes.is_empty() {
        return 0;
    }
    let mut so_far = 65535;
    for code in codes {
        so_far = so_far.min(code.0);
    }
    so_far as u16
}

/// The greatest code, at most 65535; 0 where there is none.
fn last_code(codes: &[(u32, u16)]) -> u16
    ensures { result ≡ spec.last_code codes.now }
{
    let mut so_far = 0;
    for code in codes {
        so_far = so_far.max(code.0);
    }
    so_far.min(65535) as u16
}

/// A number, or 0 where it is below.
fn above_zero(number: i32) -> u16
    requires { number ≤ℤ pos 65535 }
    ensures { result ≡ spec.above_zero number }
{
    if number < 0 { 0 } else { number as u16 }
}

/// So many hundredths of the em, rounded down.
fn hundredths(part: u32, upem: u16) -> u16
    requires part { part ≤ 100 }
    requires units { upem ≤ 16384 }
    ensures { result ≡ spec.hundredths part upem }
{
    (part * u32::from(upem) / 100) as u16
}

/// Appends the version, the weight and the width.
#[tactic(auto, unfolding(crate::specs::Os2::weight_fields))]
fn push_weight(table: &mut Vec<u8>, mean: u16) -> Result<(), AllocError>
    ensures { OnOk result (table.new.items ≡ table.old.items ++ spec.weight_fields mean) }
{
    push_words(table, &[4, mean, 400, 5, 0])
}

/// Appends where letters below and above the line stand, and the line through letters.
#[tactic(auto, unfolding(crate::specs::Os2::script_fields))]
fn push_scripts(table: &mut Vec<u8>, upem: u16) -> Result<(), AllocError>
    requires { upem ≤ 16384 }
    ensures { OnOk result (table.new.items ≡ table.old.items ++ spec.script_fields upem) }
{
    let size = hundredths(65, upem);
    let below = hundredths(14, upem);
    let above = hundredths(48, upem);
    let strikeout = hundredths(26, upem);
    push_words(table, &[size, size, 0, below, size, size, 0, above])?;
    push_words(table, &[upem / 20, strikeout])
}

/// Appends the class, the ranges of Unicode, the vendor and the style.
#[tactic(auto, unfolding(crate::specs::Os2::class_fields))]
fn push_class(table: &mut Vec<u8>) -> Result<(), AllocError>
    ensures { OnOk result (table.new.items ≡ table.old.items ++ spec.class_fields) }
{
    push_words(table, &[0, 0, 0, 0, 0, 0])?;
    push_words(table, &[0, 0, 0, 0, 0, 0, 0, 0])?;
    table.extend_from_slice(b"NONE")?;
    push_uint16(table, 0x00C0)
}

/// Appends how far letters reach above and below the line.
#[tactic(auto, unfolding(crate::specs::Os2::line_fields))]
fn push_lines(table: &mut Vec<u8>, master: &Master) -> Result<(), AllocError>
    ensures { OnOk result (table.new.items ≡ table.old.items ++ spec.line_fields master.now) }
{
    let ascender = master.ascender;
    let descender = master.descender;
    let win_ascent = above_zero(i32::from(ascender));
    let win_descent = above_zero(-i32::from(descender));
    push_words(
        table,
        &[ascender.cast_unsigned(), descender.cast_unsigned(), 0],
    )?;
    push_words(table, &[win_ascent, win_descent])
}

/// Appends the code pages.
#[tactic(auto, unfolding(crate::specs::Os2::code_page_fields))]
fn push_code_pages(table: &mut Vec<u8>) -> Result<(), AllocError>
    ensures { OnOk result (table.new.items ≡ table.old.items ++ spec.code_page_fields) }
{
    push_words(table, &[0, 0, 0, 0])
}

/// Appends how high letters are, and the codes of special characters.
#[tactic(auto, unfolding(crate::specs::Os2::letter_fields))]
fn push_letters(table: &mut Vec<u8>, master: &Master) -> Result<(), AllocError>
    ensures { OnOk result (table.new.items ≡ table.old.items ++ spec.letter_fields master.now) }
{
    push_words(
        table,
        &[master.xheight.cast_unsigned(), master.cap.cast_unsigned()],
    )?;
    push_words(table, &[0, 32, 0])
}

/// Appends what a master says.
#[tactic(auto, unfolding(crate::specs::Os2::master_fields))]
fn push_master(table: &mut Vec<u8>, master: &Master) -> Result<(), AllocError>
    ensures { OnOk result (table.new.items ≡ table.old.items ++ spec.master_fields master.now) }
{
    push_lines(table, master)?;
    push_code_pages(table)?;
    push_letters(table, master)
}

/// Appends what the default master says.
fn push_origin(table: &mut Vec<u8>, header: &Header) -> Result<(), AllocError>
    requires { IsHeader header.now }
    ensures { OnOk result (table.new.items ≡ table.old.items ++ spec.origin_fields header.now) }
{
    push_master(table, &header.masters.as_slice()[header.origin as usize])
}

/// Appends the first and the last of the characters.
#[tactic(auto, unfolding(crate::specs::Os2::code_fields))]
fn push_codes(table: &mut Vec<u8>, codes: &[(u32, u16)]) -> Result<(), AllocError>
    ensures { OnOk result (table.new.items ≡ table.old.items ++ spec.code_fields codes.now) }
{
    push_words(table, &[first_code(codes), last_code(codes)])
}

/// The table `OS/2` (OpenType 1.9, "OS/2"), with the default master's metrics, the mean of the
/// advance widths that are not zero, and the first and the last of the characters. Of these each
/// has its code and the number of its glyph.
///
/// # Errors
///
/// `NoMemory` where memory runs out.
#[tactic(auto, unfolding(crate::specs::Os2::os2_table))]
pub fn os2(
    alloc: Global,
    header: &Header,
    measures: &Measures,
    codes: &[(u32, u16)],
) -> Result<Vec<u8>, NoMemory>
    requires header { IsHeader header.now }
    requires measures { AreMeasures measures.now }
    ensures { IfOk result (λ table. table.items
        ≡ spec.os2_table header.now measures.now codes.now) }
{
    let mut table = Vec::with_capacity(alloc, 96)?;
    push_weight(&mut table, mean_advance(measures.advances.as_slice()))?;
    push_scripts(&mut table, header.upem)?;
    push_class(&mut table)?;
    push_codes(&mut table, codes)?;
    push_origin(&mut table, header)?;
    Ok(table)
}

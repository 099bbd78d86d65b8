ghost use Rattle.std.specs.Prelude.{◌≡◌, true, ◌+◌, ◌-◌, ◌*◌, ◌<◌, ◌≤◌, ◌^◌, length, IfSome};
ghost use Rattle.std.specs.Prelude.{position, is_none};
ghost use Rattle.font_reader.specs.Fields.{IsWithin, fault};
ghost use Rattle.font_reader.specs.Search.{first_some};
ghost use Rattle.font_reader.specs.Directory.{ReadsAs, cut_table, entry_place, entry_table};
ghost use Rattle.font_reader.specs.Directory.{entry_tag, font_fault, is_sfnt, is_within};
ghost use Rattle.font_reader.specs.Directory.{missing_table, needed, table_count, table_fault};
ghost use Rattle.font_reader.specs.Directory.{table_in_entry, table_of, whole_entries};

use crate::faults::{FaultKind, FontFault};
use crate::fields::{Table, u16_at, u32_at};

/// The tags of tables, as the numbers that their four characters are in a file.
pub const HEAD: u32 = 0x6865_6164;

pub const MAXP: u32 = 0x6d61_7870;

pub const HHEA: u32 = 0x6868_6561;

pub const HMTX: u32 = 0x686d_7478;

pub const LOCA: u32 = 0x6c6f_6361;

pub const GLYF: u32 = 0x676c_7966;

pub const FVAR: u32 = 0x6676_6172;

pub const CMAP: u32 = 0x636d_6170;

pub const POST: u32 = 0x706f_7374;

pub const HVAR: u32 = 0x4856_4152;

pub const MVAR: u32 = 0x4d56_4152;

pub const OS2: u32 = 0x4f53_2f32;

pub const GVAR: u32 = 0x6776_6172;

/// A font that is read: the bytes of its file.
///
/// Its directory and all of its tables lie within the file, and it has `head`, `maxp`, `hhea`,
/// `hmtx`, `loca` and `glyf`. All else is looked at when it is asked for.
#[derive(Clone, Copy)]
pub struct FontView<'a> {
    pub(crate) bytes: &'a [u8],
}

impl FontView<'_> {
    /// The font of a file with these bytes (OpenType 1.9, "OpenType Font File", "Table
    /// Directory"). It takes no memory: the font borrows the bytes.
    ///
    /// # Errors
    ///
    /// The first of these faults:
    /// - `NotSfnt` at 0, where there are fewer than 12 bytes, or the version isn't 0x00010000;
    /// - `OutOfTable` at the first entry of the directory that isn't within the file;
    /// - `OutOfTable` at the first entry whose table isn't within the file;
    /// - `NoTable` at the number of the first table that is missing, of `head`, `maxp`, `hhea`,
    ///   `hmtx`, `loca` and `glyf`, counted from 0.
    pub fn of(bytes: &[u8]) -> Result<FontView<'_>, FontFault>
        ensures { ReadsAs bytes.now result }
    {
        match font_fault(bytes) {
            Some(fault) => Err(fault),
            None => Ok(FontView { bytes }),
        }
    }
}

/// The first fault of a file, if it has one.
#[tactic(auto, unfolding(crate::specs::Directory::font_fault))]
fn font_fault(bytes: &[u8]) -> Option<FontFault>
    ensures { result ≡ font_fault bytes.now }
{
    if is_sfnt(bytes) {
        let whole = whole_entries(bytes);
        if whole < table_count(bytes) {
            Some(FontFault {
                place: entry_place(whole) as u64,
                kind: FaultKind::OutOfTable,
            })
        } else {
            table_fault(bytes, whole)
        }
    } else {
        Some(FontFault {
            place: 0,
            kind: FaultKind::NotSfnt,
        })
    }
}

/// Whether a file begins as a font with TrueType outlines does.
#[tactic(auto, unfolding(crate::specs::Directory::is_sfnt))]
fn is_sfnt(bytes: &[u8]) -> bool
    ensures value { result ≡ is_sfnt bytes.now }
    ensures long { result ≡ true → 12 ≤ length bytes.now }
{
    bytes.len() >= 12 && u32_at(bytes, 0) == 65536
}

/// How many tables the directory says that there are.
fn table_count(bytes: &[u8]) -> usize
    requires { 12 ≤ length bytes.now }
    ensures { result ≡ table_count bytes.now }
{
    usize::from(u16_at(bytes, 4))
}

/// How many entries of the directory lie within the file.
#[tactic(auto, unfolding(crate::specs::Directory::whole_entries))]
fn whole_entries(bytes: &[u8]) -> usize
    ensures value { result ≡ whole_entries bytes.now }
    ensures within { 16 * result ≤ length bytes.now - 12 }
{
    if bytes.len() >= 12 {
        table_count(bytes).min((bytes.len() - 12) / 16)
    } else {
        0
    }
}

/// Where an entry of the directory stands.
fn entry_place(i: usize) -> usize
    requires { i < 2 ^ 59 }
    ensures { result ≡ entry_place i }
{
    12 + 16 * i
}

/// The tag in an entry.
#[tactic(auto, unfolding(crate::specs::Directory::entry_tag))]
fn entry_tag(bytes: &[u8], i: usize) -> u32
    requires { entry_place i + 16 ≤ length bytes.now }
    ensures { result ≡ entry_tag bytes.now i }
{
    u32_at(bytes, entry_place(i))
}

/// Where the table of an entry lies.
#[tactic(auto, unfolding(crate::specs::Directory::entry_table))]
fn entry_table(bytes: &[u8], i: usize) -> Table
    requires { entry_place i + 16 ≤ length bytes.now }
    ensures { result ≡ entry_table bytes.now i }
{
    let place = entry_place(i);
    Table {
        offset: u32_at(bytes, place + 8),
        length: u32_at(bytes, place + 12),
    }
}

/// Whether a table lies within the file.
fn is_within(bytes: &[u8], table: Table) -> bool
    ensures { result ≡ is_within bytes.now table }
{
    table.offset as usize + table.length as usize <= bytes.len()
}

/// The fault of an entry, where its table isn't within the file.
#[tactic(auto, unfolding(crate::specs::Directory::cut_table))]
fn cut_table(bytes: &[u8], i: usize) -> Option<FontFault>
    requires { entry_place i + 16 ≤ length bytes.now }
    ensures { result ≡ cut_table bytes.now i }
{
    if is_within(bytes, entry_table(bytes, i)) {
        None
    } else {
        Some(FontFault {
            place: entry_place(i) as u64,
            kind: FaultKind::OutOfTable,
        })
    }
}

/// The fault of the first table that isn't within the file.
#[tactic(auto, using(crate::proofs::Turns::some))]
fn first_cut_table(bytes: &[u8], count: usize) -> Option<FontFault>
    requires { 16 * count ≤ length bytes.now - 12 }
    ensures { result ≡ first_some (cut_table bytes.now) 0 count }
{
    for i in 0..count {
        if let Some(cut) = cut_table(bytes, i) {
            return Some(cut);
        }
    }
    None
}

/// The table of an entry, if it has this tag and lies within the file.
#[tactic(auto, unfolding(crate::specs::Directory::table_in_entry))]
fn table_in_entry(bytes: &[u8], tag: u32, i: usize) -> Option<Table>
    requires { entry_place i + 16 ≤ length bytes.now }
    ensures value { result ≡ table_in_entry bytes.now tag i }
    ensures within { IfSome result (IsWithin bytes.now) }
{
    let table = entry_table(bytes, i);
    if entry_tag(bytes, i) == tag && is_within(bytes, table) {
        Some(table)
    } else {
        None
    }
}

/// The table of a tag: that of the first entry which has the tag and whose table lies within the
/// file.
#[tactic(auto, using(crate::proofs::Turns::some), unfolding(crate::specs::Directory::table_of))]
pub fn table_of(bytes: &[u8], tag: u32) -> Option<Table>
    ensures value { result ≡ table_of bytes.now tag }
    ensures within { IfSome result (IsWithin bytes.now) }
{
    let count = whole_entries(bytes);
    for i in 0..count {
        if let Some(table) = table_in_entry(bytes, tag, i) {
            return Some(table);
        }
    }
    None
}

/// The first fault of so many tables themselves.
fn table_fault(bytes: &[u8], count: usize) -> Option<FontFault>
    requires { 16 * count ≤ length bytes.now - 12 }
    ensures { result ≡ table_fault bytes.now count }
{
    match first_cut_table(bytes, count) {
        Some(cut) => Some(cut),
        None => missing_table(bytes),
    }
}

/// The first of some tags that no table has.
fn first_missing(bytes: &[u8], tags: &[u32]) -> Option<usize>
    ensures { result ≡ position (λ tag. is_none (table_of bytes.now tag)) tags.now }
{
    tags.iter().position(|tag| table_of(bytes, *tag).is_none())
}

/// The first table that is missing, of those that each font has.
fn missing_table(bytes: &[u8]) -> Option<FontFault>
    ensures { result ≡ missing_table bytes.now }
{
    let number = first_missing(bytes, &[HEAD, MAXP, HHEA, HMTX, LOCA, GLYF])?;
    Some(FontFault {
        place: number as u64,
        kind: FaultKind::NoTable,
    })
}

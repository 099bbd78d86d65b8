ghost use Rattle.std.specs.Prelude.{◌≡◌, ◌+◌, ◌*◌, ◌^◌, ◌<◌, ◌≤◌, IfOk, length};
ghost use Rattle.font_reader.specs.Fields.{IsWithin};
ghost use Rattle.font_reader.specs.Fold.{folded};
ghost use Rattle.font_reader.specs.Names.{after_name, name_after, name_in, name_of, name_place};
ghost use Rattle.font_reader.specs.Names.{name_span, numbered, IsNamed, LiesIn};

use crate::directory::{FontView, POST};
use crate::faults::{FaultKind, FontFault};
use crate::fields::{Table, read_byte, read_u16};
use crate::versions::{bad_format, expect_u32, glyph_among, required};

/// Some bytes of the file, from a place up to another.
#[derive(Clone, Copy)]
pub struct Span {
    pub start: usize,
    pub end: usize,
}

impl FontView<'_> {
    /// The name of a glyph (OpenType 1.9, "post", version 2.0): `.notdef` for the number 0, and for
    /// a number from 258 on the one of the names that stand in the table, as its bytes there. It
    /// takes no memory.
    ///
    /// # Errors
    ///
    /// `NoPoint` at a glyph that isn't there; `NoTable` at 6, where there is no such table;
    /// `BadFormat` at another version, and at a number from 1 to 257, which stands for a name that
    /// isn't in the table; `OutOfTable` at the first field that isn't within the table.
    pub fn name_of(&self, gid: u16) -> Result<&[u8], FontFault>
        ensures { IsNamed result (name_of self.now.bytes.now gid) }
    {
        match name_place(self.bytes, gid)? {
            Some(span) => Ok(&self.bytes[span.start..span.end]),
            None => Ok(b".notdef"),
        }
    }
}

/// Where the name of a glyph is; none is that of the number 0.
#[tactic(auto, unfolding(crate::specs::Names::name_place))]
fn name_place(bytes: &[u8], gid: u16) -> Result<Option<Span>, FontFault>
    ensures value { result ≡ name_place bytes.now gid }
    ensures within { IfOk result (LiesIn bytes.now) }
{
    glyph_among(bytes, gid)?;
    let post = required(bytes, POST, 6)?;
    name_in(bytes, post, gid)
}

/// The same, in a font with this table.
#[tactic(auto, unfolding(crate::specs::Names::name_in))]
fn name_in(bytes: &[u8], post: Table, gid: u16) -> Result<Option<Span>, FontFault>
    requires { IsWithin bytes.now post }
    ensures value { result ≡ name_in bytes.now post gid }
    ensures within { IfOk result (LiesIn bytes.now) }
{
    expect_u32(bytes, post, 0, 131072)?;
    let count = read_u16(bytes, post, 32)?;
    if count <= gid {
        Err(FontFault {
            place: u64::from(gid),
            kind: FaultKind::NoPoint,
        })
    } else {
        let at = 34 + 2 * usize::from(gid);
        let number = read_u16(bytes, post, at)?;
        numbered(bytes, post, 34 + 2 * usize::from(count), at, number)
    }
}

/// Where the name of a number is.
fn numbered(
    bytes: &[u8],
    post: Table,
    first: usize,
    at: usize,
    number: u16,
) -> Result<Option<Span>, FontFault>
    requires within { IsWithin bytes.now post }
    requires near { at < 2 ^ 20 }
    requires first { first < 2 ^ 20 }
    ensures value { result ≡ numbered bytes.now post first at number }
    ensures within { IfOk result (LiesIn bytes.now) }
{
    if number == 0 {
        Ok(None)
    } else if number < 258 {
        Err(bad_format(post, at))
    } else {
        let span = name_after(bytes, post, first, usize::from(number) - 258)?;
        Ok(Some(span))
    }
}

/// Where the name after so many others is.
#[tactic(auto, unfolding(crate::specs::Names::name_after))]
fn name_after(bytes: &[u8], post: Table, first: usize, others: usize) -> Result<Span, FontFault>
    requires within { IsWithin bytes.now post }
    requires few { others < 65536 }
    requires first { first < 2 ^ 20 }
    ensures value { result ≡ name_after bytes.now post first others }
    ensures within { IfOk result (λ span. (span.start ≤ span.end) × (span.end ≤ length bytes.now)) }
{
    let at = after_names(bytes, post, first, others)?;
    name_span(bytes, post, at)
}

/// The place after so many names.
#[tactic(auto, using(crate::proofs::Turns::fold))]
fn after_names(bytes: &[u8], post: Table, first: usize, others: usize) -> Result<usize, FontFault>
    requires within { IsWithin bytes.now post }
    requires few { others < 65536 }
    requires first { first < 2 ^ 20 }
    ensures value { result ≡ folded (after_name bytes.now post) 0 others first }
    ensures near { IfOk result (λ at. at < 2 ^ 26) }
{
    let mut at = first;
    for i in 0..others {
        at = after_name(bytes, post, i, at)?;
    }
    Ok(at)
}

/// The place after a name, the one with this number of those that stand in the table.
#[tactic(auto, unfolding(crate::specs::Names::after_name))]
fn after_name(bytes: &[u8], post: Table, i: usize, at: usize) -> Result<usize, FontFault>
    requires within { IsWithin bytes.now post }
    requires few { i < 65536 }
    requires near { at < 2 ^ 20 + 256 * i }
    ensures value { result ≡ after_name bytes.now post i at }
    ensures near { IfOk result (λ next. next < 2 ^ 20 + 256 * (i + 1)) }
{
    let length = read_byte(bytes, post, at)?;
    Ok(at + 1 + usize::from(length))
}

/// Where the bytes of a name are.
#[tactic(auto, unfolding(crate::specs::Names::name_span))]
fn name_span(bytes: &[u8], post: Table, at: usize) -> Result<Span, FontFault>
    requires within { IsWithin bytes.now post }
    requires near { at < 2 ^ 40 }
    ensures value { result ≡ name_span bytes.now post at }
    ensures within { IfOk result (λ span. (span.start ≤ span.end) × (span.end ≤ length bytes.now)) }
{
    let length = usize::from(read_byte(bytes, post, at)?);
    let start = post.offset as usize + at + 1;
    if at + 1 + length <= post.length as usize {
        Ok(Span {
            start,
            end: start + length,
        })
    } else {
        Err(FontFault {
            place: start as u64,
            kind: FaultKind::OutOfTable,
        })
    }
}

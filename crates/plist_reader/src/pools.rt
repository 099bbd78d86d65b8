ghost use Rattle.std.specs.Prelude.{◌≡◌, ◌++◌, ◌≤◌, length, slice_range, IfOk, OnOk, OnErr};
ghost use Rattle.plist_reader.specs.Stored.{value_of, IsIn, Extends, seen};
ghost use Rattle.plist_reader.specs.Tree.{text_of, spells};

use crate::tree::{TreeValue, ValueRef};
use std::alloc::{AllocError, Global};
use std::str;

/// A part of a list: where it starts, and where it ends.
#[derive(Clone, Copy, Debug)]
pub(crate) struct Span {
    start: u32,
    end: u32,
}

/// What a value is, by the part of a pool that holds it.
#[derive(Clone, Copy, Debug)]
pub(crate) enum Content {
    Text(Span),
    Bytes(Span),
    Items(Span),
    Pairs(Span),
}

/// What values hold: each pool has the parts of many values, one behind the other.
#[derive(Debug, Drop)]
pub(crate) struct Pools {
    /// The bytes of texts and of byte strings.
    bytes: Vec<u8>,
    /// The values of lists.
    items: Vec<u32>,
    /// The keys and values of dictionaries.
    pairs: Vec<(u32, u32)>,
}

/// Adds items to a pool, and tells where they are.
fn append<T: Copy>(pool: &mut Vec<T>, items: &[T]) -> Result<Span, AllocError>
    ensures ok { OnOk result (pool.new.items ≡ pool.old.items ++ items.now) }
    ensures span { IfOk result (λ span. (span.start ≡ length pool.old.items)
        × (span.end ≡ length pool.new.items)) }
    ensures err { OnErr result (pool.new.items ≡ pool.old.items) }
{
    let start = pool.len();
    let Some(end) = start.checked_add(items.len()) else {
        return Err(AllocError);
    };
    let Ok(end) = u32::try_from(end) else {
        return Err(AllocError);
    };
    pool.extend_from_slice(items)?;
    Ok(Span {
        start: start as u32,
        end,
    })
}

/// The items of a part of a pool.
fn part<T>(pool: &[T], span: Span) -> &[T]
    requires order { span.start ≤ span.end }
    requires inside { span.end ≤ length pool.now }
    ensures { result.now ≡ slice_range pool.now span.start span.end }
{
    &pool[span.start as usize..span.end as usize]
}

impl Pools {
    /// Pools without anything. It takes no memory.
    pub(crate) fn new(alloc: Global) -> Self {
        Pools {
            bytes: Vec::new(alloc),
            items: Vec::new(alloc),
            pairs: Vec::new(alloc),
        }
    }

    /// Puts what a value holds into its pool.
    pub(crate) fn store(&mut self, value: &TreeValue) -> Result<Content, AllocError>
        ensures value { IfOk result (λ content. value_of self.new content ≡ value.now) }
        ensures inside { IfOk result (IsIn self.new) }
        ensures kept { Extends self.old self.new }
    {
        match value {
            TreeValue::Text(text) => Ok(Content::Text(append(
                &mut self.bytes,
                text.as_str().as_bytes(),
            )?)),
            TreeValue::Bytes(bytes) => Ok(Content::Bytes(append(
                &mut self.bytes,
                bytes.as_slice(),
            )?)),
            TreeValue::Items(items) => Ok(Content::Items(append(
                &mut self.items,
                items.as_slice(),
            )?)),
            TreeValue::Pairs(pairs) => Ok(Content::Pairs(append(
                &mut self.pairs,
                pairs.as_slice(),
            )?)),
        }
    }

    /// A value that is held here.
    pub(crate) fn value(&self, content: Content) -> ValueRef<'_>
        requires { IsIn self.now content }
        ensures { seen result ≡ value_of self.now content }
    {
        match content {
            Content::Text(span) => match str::from_utf8(part(self.bytes.as_slice(), span)) {
                Ok(text) => ValueRef::Text(text),
                Err(_) => ValueRef::Text(""),
            },
            Content::Bytes(span) => ValueRef::Bytes(part(self.bytes.as_slice(), span)),
            Content::Items(span) => ValueRef::Items(part(self.items.as_slice(), span)),
            Content::Pairs(span) => ValueRef::Pairs(part(self.pairs.as_slice(), span)),
        }
    }

    /// Whether a value that is held here is a text with these bytes.
    pub(crate) fn is_text(&self, content: Content, bytes: &[u8]) -> bool
        requires { IsIn self.now content }
        ensures { result ≡ spells bytes.now (text_of (value_of self.now content)) }
    {
        match content {
            Content::Text(span) => part(self.bytes.as_slice(), span) == bytes,
            _ => false,
        }
    }
}

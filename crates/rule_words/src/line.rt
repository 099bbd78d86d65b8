//! A statement while it is read: what its words so far say.

ghost use Rattle.std.specs.Prelude.{◌≡◌};
ghost use Rattle.rule_words.specs.declared.line.Stop.TheVariants as stops;

use feature_grammar::{
    Context, Definition, FeatureItem, Flag, GlyphSet, Item, Marked, Member, Name, Statement, Value,
};
use plain_lists::Sequence;
use refusal_codes::NoMemory;
use std::alloc::AllocFailed;

/// Why a word is not taken.
#[derive(Clone, Copy)]
pub enum Stop {
    /// The grammar can't go on with it.
    Refused,
    /// Memory ran out.
    NoMemory,
}

/// Where a statement stands.
#[derive(Clone, Copy)]
pub struct Level {
    /// In a feature, maybe in a lookup in it.
    pub in_feature: bool,
    /// In the feature `aalt`.
    pub in_aalt: bool,
    /// Behind a `script` of the feature.
    pub scripted: bool,
    /// In a named lookup.
    pub in_lookup: bool,
}

/// The word with which a statement of one or two tags begins.
#[derive(Clone, Copy)]
pub enum TagWord {
    LanguageSystem,
    Script,
    Language,
    Feature,
    /// `feature` in `aalt`.
    Alternates,
}

/// The words with which a rule begins.
#[derive(Clone, Copy)]
pub enum Verb {
    Sub,
    Pos,
    EnumPos,
    IgnoreSub,
    IgnorePos,
}

/// The last item of a rule, as long as the words behind it may say more of it.
#[derive(Drop)]
pub enum Open {
    Nothing,
    Item(Item),
    Mark(Marked),
}

/// A rule while its items are read.
#[derive(Drop)]
pub struct Items {
    pub place: usize,
    pub verb: Verb,
    /// The contexts of an `ignore` rule before this one.
    pub contexts: Sequence<Context>,
    pub before: Sequence<Item>,
    pub marked: Sequence<Marked>,
    pub after: Sequence<Item>,
    pub last: Open,
}

/// What a `sub` rule replaces.
#[derive(Drop)]
pub enum Replaced {
    One(Item),
    /// Two or more.
    Many(Sequence<Item>),
    Context(Context),
}

/// A statement that lacks its `;` alone.
#[derive(Drop)]
pub enum Entry {
    Definition(Definition),
    Statement(Statement),
    Item(FeatureItem),
}

/// The words of a statement so far.
#[derive(Drop)]
pub enum Line {
    Start,
    /// A word that asks for a tag.
    Tag {
        word: TagWord,
        place: usize,
    },
    /// `languagesystem` and its script.
    SystemScript {
        place: usize,
        script: Name,
    },
    LanguageTag {
        place: usize,
        tag: Name,
    },
    FeatureTag {
        place: usize,
        tag: Name,
    },
    ClassName(Name),
    ClassEquals(Name),
    LookupWord {
        place: usize,
    },
    LookupName {
        place: usize,
        name: Name,
    },
    /// The `}` of a block.
    Closing,
    /// That and the block's name.
    Closed,
    FeatureNames {
        place: usize,
    },
    /// So many of its braces are open.
    InNames {
        place: usize,
        depth: u64,
    },
    Flags {
        place: usize,
        flags: Sequence<Flag>,
    },
    /// A flag word that asks for a set: `MarkAttachmentType`, or else `UseMarkFilteringSet`.
    FlagSet {
        place: usize,
        flags: Sequence<Flag>,
        at: usize,
        attachment: bool,
    },
    Ignore {
        place: usize,
    },
    Enum {
        place: usize,
    },
    Items(Items),
    /// A marked item and `lookup`.
    Call(Items),
    By {
        place: usize,
        replaced: Replaced,
    },
    ByGlyphs {
        place: usize,
        replaced: Replaced,
        glyphs: Sequence<Name>,
    },
    From {
        place: usize,
        item: Item,
    },
    /// An item of a pair with its value.
    First {
        place: usize,
        enumerated: bool,
        item: Item,
        value: Value,
    },
    /// That and the other item.
    Second {
        place: usize,
        enumerated: bool,
        first: Item,
        value: Value,
        second: Item,
    },
    Ready(Entry),
}

/// What is read between brackets.
#[derive(Drop)]
pub enum Inner {
    Nothing,
    Set {
        place: usize,
        members: Sequence<Member>,
    },
    Value {
        place: usize,
        numbers: Sequence<i16>,
    },
}

impl From<NoMemory> for Stop {
    ghost from_gives = { λ _ e. e ≡ stops.NoMemory };

    fn from(_e: NoMemory) -> Stop {
        Stop::NoMemory
    }
}

impl<T: Drop> From<AllocFailed<T>> for Stop {
    ghost from_gives = { λ _ e. e ≡ stops.NoMemory };

    fn from(_e: AllocFailed<T>) -> Stop {
        Stop::NoMemory
    }
}

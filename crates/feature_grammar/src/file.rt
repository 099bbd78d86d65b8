//! What a feature file says: a variant for each alternative of its grammar.

use plain_lists::Sequence;

/// A name or a tag. Its place, as that of each part, is the byte of the text at which its first
/// token starts.
#[derive(Debug, PartialEq, Eq, Drop)]
pub struct Name {
    /// Its letters, without `@` or `\`.
    pub text: Sequence<u8>,
    pub place: usize,
}

/// What stands in a written glyph set.
#[derive(Debug, PartialEq, Eq, Drop)]
pub enum Member {
    Glyph(Name),
    Class(Name),
}

/// A set of glyphs.
#[derive(Debug, PartialEq, Eq, Drop)]
pub enum GlyphSet {
    /// Members between brackets.
    Members {
        place: usize,
        members: Sequence<Member>,
    },
    /// A class that has a name.
    Class(Name),
}

/// A glyph or a set of glyphs.
#[derive(Debug, PartialEq, Eq, Drop)]
pub enum Item {
    Glyph(Name),
    Set(GlyphSet),
}

/// The numbers of a value, in font units.
#[derive(Clone, Copy, Debug, PartialEq, Eq)]
pub enum Numbers {
    /// The advance alone.
    Advance(i16),
    /// The shift to the right and upwards, the advance, and the vertical advance.
    Record(i16, i16, i16, i16),
}

/// A value: how a glyph is positioned.
#[derive(Clone, Copy, Debug, PartialEq, Eq)]
pub struct Value {
    pub place: usize,
    pub numbers: Numbers,
}

/// A marked item of a context, with the lookups that are called there, and its value.
#[derive(Debug, PartialEq, Eq, Drop)]
pub struct Marked {
    pub item: Item,
    pub calls: Sequence<Name>,
    pub value: Option<Value>,
}

/// A context: marked items, and those before and after them. One is marked, at least.
#[derive(Debug, PartialEq, Eq, Drop)]
pub struct Context {
    pub before: Sequence<Item>,
    pub marked: Sequence<Marked>,
    pub after: Sequence<Item>,
}

/// What a flag word says.
#[derive(Debug, PartialEq, Eq, Drop)]
pub enum FlagWord {
    IgnoreBaseGlyphs,
    IgnoreLigatures,
    IgnoreMarks,
    MarkAttachmentType(GlyphSet),
    UseMarkFilteringSet(GlyphSet),
}

/// A word of a flag, with its place.
#[derive(Debug, PartialEq, Eq, Drop)]
pub struct Flag {
    pub place: usize,
    pub word: FlagWord,
}

/// A lookup's flag: an even number from 0 to 14, or words.
#[derive(Debug, PartialEq, Eq, Drop)]
pub enum Flags {
    Number { place: usize, number: i16 },
    Words(Sequence<Flag>),
}

/// A class and its set.
#[derive(Debug, PartialEq, Eq, Drop)]
pub struct ClassDefinition {
    pub name: Name,
    pub set: GlyphSet,
}

/// What a rule does to what it matches.
#[derive(Debug, PartialEq, Eq, Drop)]
pub enum Rule {
    /// `sub` of a sequence by glyphs.
    Substitute {
        items: Sequence<Item>,
        by: Sequence<Name>,
    },
    /// `sub` of a set by a set.
    SubstituteSet {
        set: GlyphSet,
        by: GlyphSet,
    },
    /// `sub` of an item from a set of alternates.
    Alternate {
        item: Item,
        from: GlyphSet,
    },
    /// `sub` of a context, with calls alone.
    ContextSub(Context),
    /// `sub` of a context by glyphs.
    ContextByGlyphs {
        context: Context,
        by: Sequence<Name>,
    },
    /// `sub` of a context, whose one marked item is a set, by a set.
    ContextBySet {
        context: Context,
        by: GlyphSet,
    },
    /// `ignore sub`.
    IgnoreSub(Sequence<Context>),
    /// `pos` of one item.
    SinglePos {
        item: Item,
        value: Value,
    },
    /// `pos` of two items, a value after the first, and maybe one after the second.
    PairPos {
        enumerated: bool,
        first: Item,
        value: Value,
        second: Item,
        other: Option<Value>,
    },
    /// `pos` of two items and then a value.
    PairPosAfter {
        enumerated: bool,
        first: Item,
        second: Item,
        value: Value,
    },
    /// `pos` of a context.
    ContextPos(Context),
    /// `ignore pos`.
    IgnorePos(Sequence<Context>),
}

/// A statement that can stand in a feature and in a lookup.
#[derive(Debug, PartialEq, Eq, Drop)]
pub enum Statement {
    Class(ClassDefinition),
    Flag { place: usize, flags: Flags },
    Subtable { place: usize },
    Rule { place: usize, rule: Rule },
}

/// A named lookup.
#[derive(Debug, PartialEq, Eq, Drop)]
pub struct Lookup {
    pub place: usize,
    pub name: Name,
    pub statements: Sequence<Statement>,
}

/// What a language starts with: the rules of its script's default language, or none.
#[derive(Clone, Copy, Debug, PartialEq, Eq)]
pub enum Inherits {
    /// Neither word.
    Unsaid,
    /// `include_dflt`.
    Default { place: usize },
    /// `exclude_dflt`.
    Nothing { place: usize },
}

/// What can stand in a feature.
#[derive(Debug, PartialEq, Eq, Drop)]
pub enum FeatureItem {
    Statement(Statement),
    Lookup(Lookup),
    /// A lookup that has been made before.
    Reference {
        place: usize,
        name: Name,
    },
    Script {
        place: usize,
        tag: Name,
    },
    Language {
        place: usize,
        tag: Name,
        inherits: Inherits,
    },
    /// A feature whose alternates `aalt` takes.
    Feature {
        place: usize,
        tag: Name,
    },
    /// `featureNames`, of which nothing is kept.
    FeatureNames {
        place: usize,
    },
}

/// A feature block.
#[derive(Debug, PartialEq, Eq, Drop)]
pub struct Feature {
    pub place: usize,
    pub tag: Name,
    pub items: Sequence<FeatureItem>,
}

/// What can stand in a feature file.
#[derive(Debug, PartialEq, Eq, Drop)]
pub enum Definition {
    LanguageSystem {
        place: usize,
        script: Name,
        language: Name,
    },
    Class(ClassDefinition),
    Lookup(Lookup),
    Feature(Feature),
}

/// A feature file.
#[derive(Debug, PartialEq, Eq, Drop)]
pub struct FeatureFile {
    pub definitions: Sequence<Definition>,
}

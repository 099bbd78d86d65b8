ghost use Rattle.std.specs.Prelude.{◌≡◌};
ghost use Rattle.refusal_codes.specs.Rules.{rule_number, rule_code, rule_name};

/// The written rules that a source can fail, in the order in which they win at one place.
///
/// P rules are of the property list, S rules of the header and the glyph index, G rules of glyphs,
/// F rules of feature code, and B rules of what is built. All of them are fontc's own.
#[derive(Clone, Copy, Debug, PartialEq, Eq)]
pub enum Rule {
    /// The text isn't UTF-8. The place is the first byte of the first bad sequence.
    NotUtf8,
    /// The grammar can't go on with this byte.
    UnexpectedByte,
    /// The text ends too early. The place is its length.
    UnexpectedEnd,
    /// An escape isn't one of the grammar's. The place is its backslash.
    BadEscape,
    /// A dictionary has a key twice. The place is the second key.
    DuplicateKey,
    /// A bracket opens the sixty-fifth level.
    TooDeep,
    /// Behind the value stands anything but white space.
    TrailingText,
    /// A value isn't of the kind asked.
    WrongShape,
    /// A required key is missing. The place is the dictionary.
    MissingKey,
    /// `.formatVersion` isn't 3.
    WrongVersion,
    /// A whole number is asked and the fraction isn't zero.
    NotWhole,
    /// A number or a length is outside its range.
    OutOfRange,
    /// More than 8 axes. The place is the list.
    TooManyAxes,
    /// More than 32 masters. The place is the list.
    TooManyMasters,
    /// The list of masters is empty.
    NoMaster,
    /// The coordinates of a master or an instance aren't one per axis. The place is the dictionary.
    AxisCount,
    /// A master has an earlier master's location. The place is the later master.
    SameLocation,
    /// The pairs of user and design coordinates don't rise. The place is the axis.
    AxisMapNotRising,
    /// A glyph name stands twice. The place is the second glyph.
    DuplicateGlyph,
    /// The variable font's origin names no master.
    OriginUnknown,
    /// A tag isn't 1 to 4 bytes from 0x21 to 0x7E, or an axis has an earlier axis's tag.
    BadTag,
    /// The source is longer than 67,108,864 bytes. The place is that number.
    TooLarge,
    /// A master's id stands twice. The place is the second master.
    DuplicateMaster,
    /// A glyph that is needed lacks a master's layer. The place is the glyph.
    MissingLayer,
    /// A node is cubic.
    CubicNode,
    /// A path isn't closed.
    OpenContour,
    /// A layer's outline can't be interpolated with the first master's. The place is the layer.
    Incompatible,
    /// A component names no glyph.
    UnknownComponent,
    /// A glyph's components lead back to it. The place is the glyph.
    ComponentCycle,
    /// A component is slanted, turned by no multiple of 90 degrees, or a piece of a smart one.
    UnsupportedTransform,
    /// A coordinate is beyond 16383 in size. The place is the coordinate, or the glyph once it is
    /// flattened.
    CoordinateTooLarge,
    /// A delta is outside -32768 to 32767. The place is the glyph, or the kerning.
    DeltaTooLarge,
    /// More than 8,000 drawn points. The place is the glyph.
    TooManyPoints,
    /// More than 256 components in a layer. The place is the layer.
    TooManyComponents,
    /// A character code stands a second time among the exported glyphs. The place is the glyph in
    /// which it does.
    DuplicateUnicode,
    /// An intermediate layer's coordinates aren't one per axis within the axis. The place is the
    /// list.
    LayerPlace,
    /// An intermediate layer has the location of a master or of an earlier layer. The place is the
    /// later layer.
    SameLayerPlace,
    /// More than 64 masters and intermediate layers. The place is the glyph.
    TooManyLayers,
    /// The name of a glyph's alternate is a glyph's name, or longer than 255 bytes. The place is
    /// the glyph.
    AlternateName,
    /// A glyph has more than 64 bracket layer rules. The place is the glyph.
    TooManyRules,
    /// The feature grammar can't go on. The place is the token in the feature text, as of every F
    /// rule.
    Syntax,
    /// A statement or a token of the feature language that fontc doesn't compile.
    Unsupported,
    /// A glyph name that isn't in the font.
    UnknownGlyph,
    /// A class, lookup or feature that isn't defined before its use.
    UnknownName,
    /// Two rules of a lookup disagree, or a name is defined twice. The place is the later one.
    ConflictingRule,
    /// Classes don't match in size, or a rule expands to too many.
    ClassSizes,
    /// A named lookup gets a second kind or a second flag.
    MixedLookup,
    /// A contextual rule calls a lookup that it may not.
    BadContextCall,
    /// More than 65,535 glyphs. The place is their number.
    TooManyGlyphs,
    /// The format 4 character map is longer than 65,535 bytes. The place is its length.
    CmapTooLarge,
    /// An offset of a layout table exceeds its width, or a table or store has too many lookups or
    /// rows.
    LayoutTooLarge,
    /// A pair subtable of one row is longer than 65,535 bytes. The place is its length.
    RowTooLarge,
    /// A table or the font is longer than 4,294,967,295 bytes. The place is its length.
    TableTooLarge,
    /// HVAR has more than 1,024 regions. The place is their number.
    TooManyRegions,
    /// The bracket layers divide the design space into more than 65,536 cells. The place is their
    /// number.
    TooManyCells,
}

impl Rule {
    /// The rule's place among the rules. Of two that fail at one place, the rule with the lower
    /// number wins.
    pub fn number(self) -> u8
        ensures { result ≡ rule_number self }
    {
        self.row().0
    }

    /// The rule's letter and number, as `G2`.
    pub fn code(self) -> &'static str
        ensures { result.now ≡ rule_code self }
    {
        self.row().1
    }

    /// The rule's name, as `CubicNode`.
    pub fn name(self) -> &'static str
        ensures { result.now ≡ rule_name self }
    {
        self.row().2
    }

    /// The rule's number, code and name.
    fn row(self) -> (u8, &'static str, &'static str)
        ensures number { result.0 ≡ rule_number self }
        ensures code { result.1.now ≡ rule_code self }
        ensures name { result.2.now ≡ rule_name self }
    {
        match self {
            Rule::NotUtf8 => (0, "P1", "NotUtf8"),
            Rule::UnexpectedByte => (1, "P2", "UnexpectedByte"),
            Rule::UnexpectedEnd => (2, "P3", "UnexpectedEnd"),
            Rule::BadEscape => (3, "P4", "BadEscape"),
            Rule::DuplicateKey => (4, "P5", "DuplicateKey"),
            Rule::TooDeep => (5, "P6", "TooDeep"),
            Rule::TrailingText => (6, "P7", "TrailingText"),
            Rule::WrongShape => (7, "S1", "WrongShape"),
            Rule::MissingKey => (8, "S2", "MissingKey"),
            Rule::WrongVersion => (9, "S3", "WrongVersion"),
            Rule::NotWhole => (10, "S4", "NotWhole"),
            Rule::OutOfRange => (11, "S5", "OutOfRange"),
            Rule::TooManyAxes => (12, "S6", "TooManyAxes"),
            Rule::TooManyMasters => (13, "S7", "TooManyMasters"),
            Rule::NoMaster => (14, "S8", "NoMaster"),
            Rule::AxisCount => (15, "S9", "AxisCount"),
            Rule::SameLocation => (16, "S10", "SameLocation"),
            Rule::AxisMapNotRising => (17, "S11", "AxisMapNotRising"),
            Rule::DuplicateGlyph => (18, "S12", "DuplicateGlyph"),
            Rule::OriginUnknown => (19, "S13", "OriginUnknown"),
            Rule::BadTag => (20, "S14", "BadTag"),
            Rule::TooLarge => (21, "S15", "TooLarge"),
            Rule::DuplicateMaster => (22, "S16", "DuplicateMaster"),
            Rule::MissingLayer => (23, "G1", "MissingLayer"),
            Rule::CubicNode => (24, "G2", "CubicNode"),
            Rule::OpenContour => (25, "G3", "OpenContour"),
            Rule::Incompatible => (26, "G4", "Incompatible"),
            Rule::UnknownComponent => (27, "G5", "UnknownComponent"),
            Rule::ComponentCycle => (28, "G6", "ComponentCycle"),
            Rule::UnsupportedTransform => (29, "G7", "UnsupportedTransform"),
            Rule::CoordinateTooLarge => (30, "G8", "CoordinateTooLarge"),
            Rule::DeltaTooLarge => (31, "G9", "DeltaTooLarge"),
            Rule::TooManyPoints => (32, "G10", "TooManyPoints"),
            Rule::TooManyComponents => (33, "G11", "TooManyComponents"),
            Rule::DuplicateUnicode => (34, "G12", "DuplicateUnicode"),
            Rule::LayerPlace => (35, "G13", "LayerPlace"),
            Rule::SameLayerPlace => (36, "G14", "SameLayerPlace"),
            Rule::TooManyLayers => (37, "G15", "TooManyLayers"),
            Rule::AlternateName => (38, "G16", "AlternateName"),
            Rule::TooManyRules => (39, "G17", "TooManyRules"),
            Rule::Syntax => (40, "F1", "Syntax"),
            Rule::Unsupported => (41, "F2", "Unsupported"),
            Rule::UnknownGlyph => (42, "F3", "UnknownGlyph"),
            Rule::UnknownName => (43, "F4", "UnknownName"),
            Rule::ConflictingRule => (44, "F5", "ConflictingRule"),
            Rule::ClassSizes => (45, "F6", "ClassSizes"),
            Rule::MixedLookup => (46, "F7", "MixedLookup"),
            Rule::BadContextCall => (47, "F8", "BadContextCall"),
            Rule::TooManyGlyphs => (48, "B1", "TooManyGlyphs"),
            Rule::CmapTooLarge => (49, "B2", "CmapTooLarge"),
            Rule::LayoutTooLarge => (50, "B3", "LayoutTooLarge"),
            Rule::RowTooLarge => (51, "B4", "RowTooLarge"),
            Rule::TableTooLarge => (52, "B5", "TableTooLarge"),
            Rule::TooManyRegions => (53, "B6", "TooManyRegions"),
            Rule::TooManyCells => (54, "B7", "TooManyCells"),
        }
    }
}

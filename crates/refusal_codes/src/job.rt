//! The kinds of jobs that a compilation is made of. All of them are fontc's own.

/// A kind of job: the stratum that its jobs are of, and the number of the kind. Refusals are
/// ordered by these first.
#[derive(Clone, Copy, Debug, PartialEq, Eq)]
pub struct Job {
    pub stratum: u8,
    pub kind: u8,
}

/// Reads the source's property list.
pub const TREE: Job = Job {
    stratum: 0,
    kind: 0,
};

/// Reads what the source says of the whole font.
pub const HEADER: Job = Job {
    stratum: 0,
    kind: 1,
};

/// Reads the names and codes of the source's glyphs.
pub const INDEX: Job = Job {
    stratum: 0,
    kind: 2,
};

/// Reads one glyph's layers.
pub const RAW: Job = Job {
    stratum: 1,
    kind: 3,
};

/// Draws one glyph's contours.
pub const FLAT: Job = Job {
    stratum: 1,
    kind: 4,
};

/// Writes the outline of one simple glyph.
pub const SIMPLE: Job = Job {
    stratum: 1,
    kind: 5,
};

/// Writes one composite glyph.
pub const COMPOSITE: Job = Job {
    stratum: 3,
    kind: 6,
};

/// Writes one glyph's variation data.
pub const VARIATIONS: Job = Job {
    stratum: 1,
    kind: 7,
};

/// Reads the feature code.
pub const FEATURE_PARSE: Job = Job {
    stratum: 1,
    kind: 8,
};

/// Numbers the font's glyphs.
pub const ORDER: Job = Job {
    stratum: 2,
    kind: 9,
};

/// Measures the font's glyphs.
pub const ADVANCES: Job = Job {
    stratum: 3,
    kind: 10,
};

/// Makes the kerning lookups.
pub const KERN: Job = Job {
    stratum: 3,
    kind: 11,
};

/// Makes the lookups of marks and cursive glyphs.
pub const MARKS: Job = Job {
    stratum: 3,
    kind: 12,
};

/// Makes rules of the feature code.
pub const RULES: Job = Job {
    stratum: 3,
    kind: 13,
};

/// Makes one lookup of its rules.
pub const LOOKUP: Job = Job {
    stratum: 3,
    kind: 14,
};

/// Makes the variation store of the layout tables.
pub const STORE: Job = Job {
    stratum: 4,
    kind: 15,
};

/// Writes one table.
pub const TABLE: Job = Job {
    stratum: 4,
    kind: 16,
};

/// Writes the font file.
pub const FONT: Job = Job {
    stratum: 5,
    kind: 17,
};

/// Finds the alternates that bracket layers make.
pub const ALTERNATES: Job = Job {
    stratum: 2,
    kind: 18,
};

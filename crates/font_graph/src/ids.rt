ghost use Rattle.std.specs.Prelude.{◌≡◌};
ghost use Rattle.std.specs.Cmp.{partial_equiv_from_equiv};
ghost use Rattle.font_graph.specs.Kinds.{job_of, awaited_by};
ghost use Rattle.font_graph.specs.Same.{same_id, ids_equiv};

use font_ir::Tag;
use refusal_codes::job;
use refusal_codes::job::Job;

/// What names a job and its item. Glyphs are numbered by their places in the source's list, from 0.
#[derive(Clone, Copy, Debug, PartialOrd, Ord)]
pub enum JobId {
    /// The source's property list.
    Tree,
    /// What the source says of the whole font.
    Header,
    /// The source's glyphs, by their names.
    Index,
    /// A glyph as it is read.
    Raw(u32),
    /// A glyph with its contours drawn.
    Flat(u32),
    /// A simple glyph's data in the table "glyf".
    Simple(u32),
    /// A composite glyph's data in the table "glyf".
    Composite(u32),
    /// A glyph's data in the table "gvar".
    Variations(u32),
    /// The source's feature code.
    FeatureParse,
    /// The order of the font's glyphs.
    Order,
    /// What the tables of metrics need.
    Advances,
    /// The lookups of kerning.
    Kern,
    /// The lookups of marks.
    Marks,
    /// The rules of the feature code.
    Rules,
    /// A lookup, by its number.
    Lookup(u32),
    /// The store of variations that the layout tables share.
    Store,
    /// A table.
    Table(Tag),
    /// The font.
    Font,
}

impl JobId {
    /// The kind of the job: its stratum and its number. It takes no memory.
    pub fn kind(self) -> Job
        ensures { result ≡ job_of self }
    {
        match self {
            JobId::Tree => job::TREE,
            JobId::Header => job::HEADER,
            JobId::Index => job::INDEX,
            JobId::Raw(_) => job::RAW,
            JobId::Flat(_) => job::FLAT,
            JobId::Simple(_) => job::SIMPLE,
            JobId::Composite(_) => job::COMPOSITE,
            JobId::Variations(_) => job::VARIATIONS,
            JobId::FeatureParse => job::FEATURE_PARSE,
            JobId::Order => job::ORDER,
            JobId::Advances => job::ADVANCES,
            JobId::Kern => job::KERN,
            JobId::Marks => job::MARKS,
            JobId::Rules => job::RULES,
            JobId::Lookup(_) => job::LOOKUP,
            JobId::Store => job::STORE,
            JobId::Table(_) => job::TABLE,
            JobId::Font => job::FONT,
        }
    }
}

impl JobId {
    /// The stratum of which every job must be finished before this one, where there is one. It
    /// takes no memory.
    pub fn awaits(self) -> Option<u8>
        ensures { result ≡ awaited_by self }
    {
        match self {
            JobId::Order => Some(1),
            JobId::Composite(_)
            | JobId::Advances
            | JobId::Kern
            | JobId::Marks
            | JobId::Rules
            | JobId::Lookup(_) => Some(2),
            JobId::Store | JobId::Table(_) => Some(3),
            JobId::Font => Some(4),
            _ => None,
        }
    }
}

impl PartialEq for JobId {
    ghost eq = { same_id };

    ghost laws = { partial_equiv_from_equiv ids_equiv };

    fn eq(&self, other: &Self) -> bool {
        match (*self, *other) {
            (JobId::Tree, JobId::Tree)
            | (JobId::Header, JobId::Header)
            | (JobId::Index, JobId::Index)
            | (JobId::FeatureParse, JobId::FeatureParse)
            | (JobId::Order, JobId::Order)
            | (JobId::Advances, JobId::Advances)
            | (JobId::Kern, JobId::Kern)
            | (JobId::Marks, JobId::Marks)
            | (JobId::Rules, JobId::Rules)
            | (JobId::Store, JobId::Store)
            | (JobId::Font, JobId::Font) => true,
            (JobId::Raw(a), JobId::Raw(b))
            | (JobId::Flat(a), JobId::Flat(b))
            | (JobId::Simple(a), JobId::Simple(b))
            | (JobId::Composite(a), JobId::Composite(b))
            | (JobId::Variations(a), JobId::Variations(b))
            | (JobId::Lookup(a), JobId::Lookup(b)) => a == b,
            (JobId::Table(a), JobId::Table(b)) => a == b,
            _ => false,
        }
    }
}

impl Eq for JobId {
    ghost laws = { ids_equiv };
}

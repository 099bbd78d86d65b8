ghost use Rattle.std.specs.Prelude.{◌≡◌};
ghost use Rattle.std.specs.Cmp.{partial_equiv_from_equiv};
ghost use Rattle.board_bench.specs.Jobs.{number, same_job, jobs_equiv};

/// What names a job.
#[derive(Clone, Copy, Debug, PartialOrd, Ord)]
pub enum Job {
    /// It reads the link before it and adds the one after it.
    Link(u32),
    /// It adds all leaves and the fan.
    Spread,
    /// It reads nothing.
    Leaf(u32),
    /// It reads the first leaves.
    Fan,
    /// It adds each glyph's first job.
    Index,
    /// It adds the glyph's other jobs.
    Raw(u32),
    /// It reads the glyph's first job.
    Flat(u32),
    /// It reads the flat glyph.
    Simple(u32),
    /// It reads the flat glyph.
    Variations(u32),
    /// It reads the glyph's first job.
    Advance(u32),
    /// It reads three of the glyph's jobs.
    Metrics(u32),
}

impl Job {
    /// The number of the link, leaf or glyph.
    pub fn number(self) -> u32
        ensures { result ≡ number self }
    {
        match self {
            Job::Spread | Job::Fan | Job::Index => 0,
            Job::Link(number)
            | Job::Leaf(number)
            | Job::Raw(number)
            | Job::Flat(number)
            | Job::Simple(number)
            | Job::Variations(number)
            | Job::Advance(number)
            | Job::Metrics(number) => number,
        }
    }
}

impl PartialEq for Job {
    ghost eq = { same_job };

    ghost laws = { partial_equiv_from_equiv jobs_equiv };

    fn eq(&self, other: &Self) -> bool {
        match (*self, *other) {
            (Job::Spread, Job::Spread) | (Job::Fan, Job::Fan) | (Job::Index, Job::Index) => true,
            (Job::Link(a), Job::Link(b))
            | (Job::Leaf(a), Job::Leaf(b))
            | (Job::Raw(a), Job::Raw(b))
            | (Job::Flat(a), Job::Flat(b))
            | (Job::Simple(a), Job::Simple(b))
            | (Job::Variations(a), Job::Variations(b))
            | (Job::Advance(a), Job::Advance(b))
            | (Job::Metrics(a), Job::Metrics(b)) => a == b,
            _ => false,
        }
    }
}

impl Eq for Job {
    ghost laws = { jobs_equiv };
}

ghost use Rattle.std.specs.Prelude.{◌≡◌};
ghost use Rattle.font_reader.specs.Texts.{fault_name};

/// What is wrong with a font that can't be read, or with what is asked of it. Each kind has a
/// place: a byte of the file unless something else is said.
#[derive(Clone, Copy, Debug, PartialEq, Eq)]
pub enum FaultKind {
    /// The file doesn't begin as a font with TrueType outlines does.
    NotSfnt,
    /// A table is missing. The place is its number: 0 to 5 for `head`, `maxp`, `hhea`, `hmtx`,
    /// `loca` and `glyf`, 6 for `post`, 7 for `OS/2`.
    NoTable,
    /// A table isn't within the file: the place is that of its entry in the directory. Or a field
    /// isn't within its table.
    OutOfTable,
    /// A version, a format or a number that isn't one of those that are read.
    BadFormat,
    /// There is no such glyph or point. The place is the number that was asked for.
    NoPoint,
    /// There are more or fewer coordinates than axes. The place is the number of axes.
    CoordCount,
    /// The file is longer than what is read. The place is the greatest length.
    TooLarge,
}

impl FaultKind {
    /// The kind's name, as `NotSfnt`.
    pub fn name(self) -> &'static str
        ensures { result.now ≡ fault_name self }
    {
        match self {
            FaultKind::NotSfnt => "NotSfnt",
            FaultKind::NoTable => "NoTable",
            FaultKind::OutOfTable => "OutOfTable",
            FaultKind::BadFormat => "BadFormat",
            FaultKind::NoPoint => "NoPoint",
            FaultKind::CoordCount => "CoordCount",
            FaultKind::TooLarge => "TooLarge",
        }
    }
}

/// Why a font can't be read: the first fault on the way to what is asked for.
#[derive(Clone, Copy, Debug, PartialEq, Eq)]
pub struct FontFault {
    /// Where: a byte of the file, from 0 on, or the number that the kind says.
    pub place: u64,
    /// What is wrong there.
    pub kind: FaultKind,
}

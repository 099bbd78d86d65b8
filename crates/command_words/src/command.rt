/// `build IN OUT`: the path of the source, and that of the font.
#[derive(Clone, Copy, Debug)]
pub struct BuildCommand<'a> {
    pub source: &'a str,
    pub output: &'a str,
}

/// `inspect point FONT GID INDEX COORDS`: the path of the font, the numbers of the glyph and of its
/// point, and the word that spells the place of the design space.
#[derive(Clone, Copy, Debug)]
pub struct InspectCommand<'a> {
    pub font: &'a str,
    pub glyph: u16,
    pub index: u16,
    pub place: &'a str,
}

/// `sample SEED GLYPHS OUT [--source]`: the numbers of which the sample is made, the path of what
/// is written, and whether that is the sample's text, and not its font.
#[derive(Clone, Copy, Debug)]
pub struct SampleCommand<'a> {
    pub seed: u32,
    pub glyphs: u32,
    pub output: &'a str,
    pub writes_text: bool,
}

/// A command.
#[derive(Clone, Copy, Debug)]
pub enum Command<'a> {
    Build(BuildCommand<'a>),
    Inspect(InspectCommand<'a>),
    Sample(SampleCommand<'a>),
}

/// Which layer of a glyph it is.
#[derive(Clone, Copy, Debug, PartialEq, Eq)]
pub enum LayerKind {
    /// The layer of a master.
    Master,
    /// A layer between the masters, whose anchors aren't read.
    Intermediate,
}

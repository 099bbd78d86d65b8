/// The tag of a table, an axis, a feature, a script or a language: four bytes. OpenType 1.9 has
/// them from 0x20 to 0x7E ("Data types"); this type holds any.
#[derive(Clone, Copy, Debug, PartialEq, Eq, PartialOrd, Ord)]
pub struct Tag(pub [u8; 4]);

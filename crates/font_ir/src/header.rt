use crate::tag::Tag;
use crate::variation::Location;
use fixed_math::Fixed;
use plain_lists::{Sequence, Text as Name};

/// An axis of the design space.
#[derive(Debug, PartialEq, Eq, Drop)]
pub struct Axis {
    pub name: Name,
    pub tag: Tag,
}

/// A named instance: its place in design coordinates, one per axis.
#[derive(Debug, PartialEq, Eq, Drop)]
pub struct Instance {
    pub name: Name,
    pub design: Sequence<Fixed>,
}

/// The two scales on which a master has a coordinate for each axis.
#[derive(Clone, Copy, Debug, PartialEq, Eq)]
pub enum CoordinateScale {
    Design,
    User,
}

/// A master: its place on each axis, and its vertical metrics in font units.
#[derive(Debug, PartialEq, Eq, Drop)]
pub struct Master {
    pub id: Name,
    /// Its design coordinates, one per axis.
    pub design: Sequence<Fixed>,
    /// Its user coordinates, one per axis.
    pub user: Sequence<Fixed>,
    /// Its normalised design coordinates, one per axis.
    pub location: Location,
    pub ascender: i16,
    pub descender: i16,
    pub cap: i16,
    pub xheight: i16,
    /// The place of its dictionary in the source.
    pub place: u64,
}

/// The kerning of two glyphs or groups at a master, in font units.
#[derive(Debug, PartialEq, Eq, Drop)]
pub struct KernEntry {
    /// The master's position.
    pub master: u32,
    pub first: Name,
    pub second: Name,
    pub value: i16,
}

/// What a source says of the whole font.
#[derive(Debug, PartialEq, Eq, Drop)]
pub struct Header {
    /// Font units per em.
    pub upem: u16,
    pub family: Name,
    pub major: u16,
    pub minor: u16,
    pub axes: Sequence<Axis>,
    pub masters: Sequence<Master>,
    /// The place of the list of masters in the source.
    pub masters_place: u64,
    /// The position of the default master.
    pub origin: u32,
    pub instances: Sequence<Instance>,
    pub kerning: Sequence<KernEntry>,
    /// The place of the kerning in the source.
    pub kern_place: u64,
    /// The feature code.
    pub features: Name,
}

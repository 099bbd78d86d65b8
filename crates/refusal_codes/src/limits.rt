//! The numbers of which the rules speak. Those of counts and lengths are the most that is allowed.
//! All of them are fontc's own.

/// Bytes of a source.
pub const SOURCE_BYTES: usize = 67_108_864;

/// Bytes of a name: a glyph's, an axis's, an instance's, or the family's.
pub const NAME_BYTES: usize = 255;

/// Axes of a font.
pub const AXES: usize = 8;

/// Masters of a font.
pub const MASTERS: usize = 32;

/// Instances of a font that are kept.
pub const INSTANCES: usize = 64;

/// Masters and intermediate layers of a glyph.
pub const PLACES: usize = 64;

/// Components of a layer.
pub const COMPONENTS: usize = 256;

/// Drawn points of a glyph.
pub const POINTS: usize = 8_000;

/// The size of a coordinate in font units.
pub const COORDINATE: u32 = 16_383;

/// Glyphs of a font.
pub const GLYPHS: usize = 65_535;

/// Bytes of the format 4 character map.
pub const CHARACTER_MAP_BYTES: u64 = 65_535;

/// Bytes of a table, or of the font.
pub const TABLE_BYTES: u64 = 4_294_967_295;

/// Regions of HVAR.
pub const REGIONS: usize = 1_024;

/// Tables of a font.
pub const TABLES: usize = 4_095;

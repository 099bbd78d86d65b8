ghost use Rattle.std.specs.Prelude.{◌≡◌};
ghost use Rattle.font_tables.specs.Tags.{group_of};

use font_ir::Tag;

/// The tags of the tables that a font may have, in the order in which they stand in it (OpenType
/// 1.9, "Table directory").
pub const TABLE_TAGS: [Tag; 16] = [
    Tag(*b"HVAR"),
    Tag(*b"MVAR"),
    Tag(*b"OS/2"),
    Tag(*b"STAT"),
    Tag(*b"avar"),
    Tag(*b"cmap"),
    Tag(*b"fvar"),
    Tag(*b"glyf"),
    Tag(*b"gvar"),
    Tag(*b"head"),
    Tag(*b"hhea"),
    Tag(*b"hmtx"),
    Tag(*b"loca"),
    Tag(*b"maxp"),
    Tag(*b"name"),
    Tag(*b"post"),
];

/// What a table is made of. A group of tables has a call that makes each of them.
#[derive(Clone, Copy, Debug, PartialEq, Eq)]
pub enum TableGroup {
    /// The header and the order of the glyphs: `plain_table`.
    Plain,
    /// The header and the variation model of its masters: `style_table`.
    Style,
    /// The characters: `code_table`.
    Codes,
    /// The header, the measures and the characters: `os2_table`.
    CodeMetrics,
    /// The header and the measures: `metrics_table`.
    Metrics,
    /// The glyphs' outlines: `outline_table`.
    Outlines,
    /// The header and the glyphs' variation data: `variations_table`.
    Variations,
}

/// What the table with this tag is made of. A tag that no table of a font has, has no group.
pub fn group_of(tag: Tag) -> Option<TableGroup>
    ensures { result ≡ group_of tag }
{
    if tag.0 == *b"HVAR" {
        Some(TableGroup::Metrics)
    } else if tag.0 == *b"MVAR" {
        Some(TableGroup::Style)
    } else if tag.0 == *b"OS/2" {
        Some(TableGroup::CodeMetrics)
    } else if tag.0 == *b"STAT" {
        Some(TableGroup::Style)
    } else if tag.0 == *b"avar" {
        Some(TableGroup::Plain)
    } else if tag.0 == *b"cmap" {
        Some(TableGroup::Codes)
    } else if tag.0 == *b"fvar" {
        Some(TableGroup::Plain)
    } else if tag.0 == *b"glyf" {
        Some(TableGroup::Outlines)
    } else if tag.0 == *b"gvar" {
        Some(TableGroup::Variations)
    } else if tag.0 == *b"head" {
        Some(TableGroup::Metrics)
    } else if tag.0 == *b"hhea" {
        Some(TableGroup::Metrics)
    } else if tag.0 == *b"hmtx" {
        Some(TableGroup::Metrics)
    } else if tag.0 == *b"loca" {
        Some(TableGroup::Outlines)
    } else if tag.0 == *b"maxp" {
        Some(TableGroup::Metrics)
    } else if tag.0 == *b"name" {
        Some(TableGroup::Plain)
    } else if tag.0 == *b"post" {
        Some(TableGroup::Plain)
    } else {
        None
    }
}

ghost use Rattle.glyphs_source.specs.SourceTables.{HeaderIsTabled, IndexIsTabled};
ghost use Rattle.glyphs_source.specs.SourceTables.{MissingKeysOfTheHeader, WrongVersions};
ghost use Rattle.glyphs_source.specs.SourceTables.{MissingKeysOfTheIndex, FractionsOfTheHeader};
ghost use Rattle.glyphs_source.specs.SourceTables.{FractionsOfTheIndex, RangesOfTheIndex};
ghost use Rattle.glyphs_source.specs.SourceTables.{ShapesOfTheHeader, RangesOfTheHeader};
ghost use Rattle.glyphs_source.specs.SourceTables.{ShapesOfTheIndex};

use source_axes::{axis_rules_are_tabled, instance_rules_are_tabled};
use source_masters::{
    font_parameter_rules_are_tabled, master_rules_are_tabled, metric_rules_are_tabled,
};

/// A local rule of the header fails at a place exactly where the table of what is asked of a header
/// says so, or where something of its design space does. A law: the function does nothing.
pub fn header_rules_are_tabled()
    ensures { HeaderIsTabled }
{}

/// A local rule of the index fails at a place exactly where the table of what is asked of an index
/// says so. A law: the function does nothing.
pub fn index_rules_are_tabled()
    ensures { IndexIsTabled }
{}

/// A key of the header is missing exactly where the font lacks its version of the format, its em,
/// its family's name or its masters, or where its design space lacks one. A law: the function does
/// nothing.
pub fn missing_keys_of_the_header_are_refused()
    ensures { MissingKeysOfTheHeader }
{}

/// The version is refused exactly where a decimal stands under its key that isn't 3. A law: the
/// function does nothing.
pub fn wrong_versions_are_refused()
    ensures { WrongVersions }
{
    axis_rules_are_tabled();
    instance_rules_are_tabled();
    metric_rules_are_tabled();
    font_parameter_rules_are_tabled();
    master_rules_are_tabled();
}

/// A key of the index is missing exactly where a glyph has no name. A law: the function does
/// nothing.
pub fn glyphs_without_a_name_are_refused()
    ensures { MissingKeysOfTheIndex }
{}

/// A number of the header isn't whole exactly where the em or a part of the font's version has a
/// fraction, or where one of its design space has. A law: the function does nothing.
pub fn fractions_of_the_header_are_refused()
    ensures { FractionsOfTheHeader }
{}

/// Something of the header is of a wrong shape exactly where the font is no dictionary, one of its
/// versions or its em no decimal, or its family's name no text, where it has feature code or
/// kerning, or where something of its design space is of a wrong shape. A law: the function does
/// nothing.
pub fn shapes_of_the_header_are_asked()
    ensures { ShapesOfTheHeader }
{}

/// Something of the header is out of range exactly where the em, the length of the family's name or
/// a part of the font's version is, or where something of its design space is. A law: the function
/// does nothing.
pub fn ranges_of_the_header_are_kept()
    ensures { RangesOfTheHeader }
{}

/// A number of the index isn't whole exactly where a code or the `export` of a glyph has a
/// fraction.
/// A law: the function does nothing.
pub fn fractions_of_the_index_are_refused()
    ensures { FractionsOfTheIndex }
{}

/// Something of the index is out of range exactly where the name of a glyph has not 1 to 255 bytes,
/// or where a whole number in place of a code is none. A law: the function does nothing.
pub fn ranges_of_the_index_are_kept()
    ensures { RangesOfTheIndex }
{}

/// Something of the index is of a wrong shape exactly where the font is no dictionary, its glyphs are
/// no list of dictionaries, the name of a glyph or of one of its groups for kerning is no text, or a
/// code or an `export` no decimal. A law: the function does nothing.
pub fn shapes_of_the_index_are_asked()
    ensures { ShapesOfTheIndex }
{}

ghost use Rattle.glyphs_layers.specs.Forms.{FormsAreCompared, OtherFormsAreRefused};
ghost use Rattle.glyphs_layers.specs.GlyphTables.{GlyphsAreTabled};
ghost use Rattle.glyphs_layers.specs.SourceGlyphs.{ReadGlyphsAreWhole};

use axis_space::first_repeat_is_the_first;
use font_ir::made_notdef_is_flat;
use glyphs_source::read_headers_are_whole;

/// A local rule of a glyph fails at a place exactly where the tables of what is asked of its list of
/// layers and of coordinates say so, or where a layer that is read fails it. A law: the function
/// does nothing.
pub fn glyph_rules_are_tabled()
    ensures { GlyphsAreTabled }
{}

/// Two layers are found to be of one form exactly where what is the same at each place is the same
/// of them: which points of each path are on the curve, and the bases of components. A law: the
/// function does nothing.
pub fn forms_are_compared()
    ensures { FormsAreCompared }
{}

/// The layer that is refused, since it can't be interpolated with the first one, is the first of
/// another form. A law: the function does nothing.
pub fn other_forms_are_refused()
    ensures { OtherFormsAreRefused }
{}

/// What `raw_glyph` reads of a tree by the tree's header fulfils what flattening asks of a glyph;
/// its layers begin with those of the masters, at the masters' locations; and the bases of its
/// components are in the index. A law: the function does nothing.
pub fn read_glyphs_are_whole()
    ensures { ReadGlyphsAreWhole }
{
    read_headers_are_whole();
    made_notdef_is_flat();
    first_repeat_is_the_first();
}

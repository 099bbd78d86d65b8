ghost use Rattle.layer_shapes.specs.LayerTables.{LayersAreTabled, CubicNodesAreRefused};
ghost use Rattle.layer_shapes.specs.LayerTables.{OpenContoursAreRefused, TransformsAreRefused};
ghost use Rattle.layer_shapes.specs.LayerTables.{MissingKeysAreRefused, RangesAreKept};
ghost use Rattle.layer_shapes.specs.LayerTables.{LargeCoordinatesAreRefused, FractionsAreRefused};
ghost use Rattle.layer_shapes.specs.ReadLayers.{ComponentsHaveTheirBases};

/// A rule of a layer fails at a place exactly where the table of what is asked of layers says so. A
/// law: the function does nothing.
pub fn layers_are_tabled()
    ensures { LayersAreTabled }
{}

/// A cubic node is refused exactly where a path has a node of type `c` or `cs`. A law: the function
/// does nothing.
pub fn cubic_nodes_are_refused()
    ensures { CubicNodesAreRefused }
{}

/// An open contour is refused exactly where a path has a `closed` that is 0. A law: the function
/// does nothing.
pub fn open_contours_are_refused()
    ensures { OpenContoursAreRefused }
{}

/// A transformation is refused exactly where a component has a slant other than 0, an angle that is
/// no multiple of 90 degrees, or `piece`. A law: the function does nothing.
pub fn transforms_are_refused()
    ensures { TransformsAreRefused }
{}

/// A key is missing exactly where the layer has no `width`, a shape neither `nodes` nor `ref`, or an
/// anchor of a master's layer no `name`. A law: the function does nothing.
pub fn missing_keys_are_refused()
    ensures { MissingKeysAreRefused }
{}

/// A number is out of range exactly where the layer has a whole `width` that is not from 0 to 32767,
/// or a component is scaled by more than 16 in size. A law: the function does nothing.
pub fn ranges_are_kept()
    ensures { RangesAreKept }
{}

/// A coordinate is too large exactly where a node or an anchor of a master's layer has a whole x or
/// y, or a component a decimal x or y of `pos`, of more than 16383 in size. A law: the function does
/// nothing.
pub fn large_coordinates_are_refused()
    ensures { LargeCoordinatesAreRefused }
{}

/// A number isn't whole exactly where `width`, `closed` of a path, x or y of a node, or x or y of an
/// anchor of a master's layer has a fraction. A law: the function does nothing.
pub fn fractions_are_refused()
    ensures { FractionsAreRefused }
{}

/// The numbers of a layer's components name the glyphs that the components of its record draw, in
/// their order. A law: the function does nothing.
pub fn components_have_their_bases()
    ensures { ComponentsHaveTheirBases }
{}

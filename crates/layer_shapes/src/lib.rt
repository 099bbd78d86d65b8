//! What one layer of a glyph of a Glyphs source holds: its width, its paths and components, and its
//! anchors.
#![tactic(auto)]

mod anchors;
mod components;
mod kind;
mod layer;
mod paths;
mod placing;
mod rule_laws;
mod shapes;
mod units;

pub use kind::LayerKind;
pub use layer::read_layer;
pub use paths::last_items_go_first;
pub use rule_laws::{
    components_have_their_bases, cubic_nodes_are_refused, fractions_are_refused,
    large_coordinates_are_refused, layers_are_tabled, missing_keys_are_refused,
    open_contours_are_refused, ranges_are_kept, transforms_are_refused,
};
pub use shapes::{base_of, is_component};

//! Reads the axes and the named instances of a Glyphs source from its property list.
#![tactic(auto)]

mod axes;
mod coordinates;
mod instances;
mod laws;
mod tags;

pub use axes::{axis_numbers, note_axes, read_axes, too_many_axes};
pub use coordinates::{AxisCoordinate, coordinate, read_coordinates};
pub use instances::{Instances, note_instance_counts, read_instances};
pub use laws::{
    axes_without_a_key_are_refused, axis_rules_are_tabled, fractions_of_instances_are_refused,
    instance_rules_are_tabled, instances_without_a_name_are_refused, names_of_axes_are_short,
    other_tags_are_refused, ranges_of_instances_are_kept, sound_axes_are_read,
    sound_instances_are_read,
};

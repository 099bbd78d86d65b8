//! What the definitions of axes and instances say of each source. Each function is a law: it does
//! nothing.

ghost use Rattle.source_axes.specs.AxisTables.{AxesAreTabled, InstancesAreTabled, BadTags};
ghost use Rattle.source_axes.specs.AxisTables.{MissingKeysOfAxes, RangesOfAxes};
ghost use Rattle.source_axes.specs.AxisTables.{MissingKeysOfInstances, FractionsOfInstances};
ghost use Rattle.source_axes.specs.AxisTables.{RangesOfInstances};
ghost use Rattle.source_axes.specs.ReadAxes.{SoundAxesAreRead, SoundInstancesAreRead};

/// A local rule of a list of axes fails at a place exactly where the table of what is asked of axes
/// says so, or where a tag stands that an earlier axis has.
pub fn axis_rules_are_tabled()
    ensures { AxesAreTabled }
{}

/// A local rule of a list of instances fails at a place exactly where the table of what is asked of
/// instances says so.
pub fn instance_rules_are_tabled()
    ensures { InstancesAreTabled }
{}

/// A tag is bad exactly where the text under its key hasn't 1 to 4 bytes from 0x21 to 0x7E, or is
/// that of an earlier axis.
pub fn other_tags_are_refused()
    ensures { BadTags }
{}

/// A key of an axis is missing exactly where it has no name or no tag.
pub fn axes_without_a_key_are_refused()
    ensures { MissingKeysOfAxes }
{}

/// Something of axes is out of range exactly where a name hasn't 1 to 255 bytes.
pub fn names_of_axes_are_short()
    ensures { RangesOfAxes }
{}

/// A key of an instance is missing exactly where it has no name.
pub fn instances_without_a_name_are_refused()
    ensures { MissingKeysOfInstances }
{}

/// A number of an instance isn't whole exactly where its `exports` has a fraction.
pub fn fractions_of_instances_are_refused()
    ensures { FractionsOfInstances }
{}

/// Something of instances is out of range exactly where a name hasn't 1 to 255 bytes, where a
/// coordinate is beyond 32767 in size, or where more than 64 are kept.
pub fn ranges_of_instances_are_kept()
    ensures { RangesOfInstances }
{}

/// The axes that are read where no rule fails fulfil what is asked of those of a header.
pub fn sound_axes_are_read()
    ensures { SoundAxesAreRead }
{}

/// The instances that are read where no rule fails fulfil what is asked of those of a header.
pub fn sound_instances_are_read()
    ensures { SoundInstancesAreRead }
{}

//! What the definitions of masters say of each source. Each function is a law: it does nothing.

ghost use Rattle.source_masters.specs.ReadMasters.{SoundMastersAreRead};
ghost use Rattle.source_masters.specs.MasterTables.{MetricsAreTabled, FontParametersAreTabled};
ghost use Rattle.source_masters.specs.MasterTables.{MastersAreTabled, MissingIdsAreRefused};
ghost use Rattle.source_masters.specs.MasterTables.{FractionsOfMastersAreRefused};
ghost use Rattle.source_masters.specs.MasterTables.{RangesOfMastersAreKept};

/// Where no rule of the masters fails, there are 1 to 32, each has as many design and user
/// coordinates as the font has axes, all are in range, as are their metrics, no two have one id, and
/// the default master is one of them.
pub fn sound_masters_are_read()
    ensures { SoundMastersAreRead }
{}

/// A local rule of the metrics fails at a place exactly where the table of what is asked of metrics
/// says so.
pub fn metric_rules_are_tabled()
    ensures { MetricsAreTabled }
{}

/// A local rule of the font's parameters fails at a place exactly where the table of what is asked
/// of parameters says so, or that of the value that counts.
pub fn font_parameter_rules_are_tabled()
    ensures { FontParametersAreTabled }
{}

/// A local rule of the masters fails at a place exactly where the table of what is asked of masters
/// says so, or that of heights beside used metrics, or that of the locations that count.
pub fn master_rules_are_tabled()
    ensures { MastersAreTabled }
{}

/// A key of a list of masters is missing exactly where a master lacks its id.
pub fn missing_ids_are_refused()
    ensures { MissingIdsAreRefused }
{}

/// A number of a list of masters isn't whole exactly where `disabled` of a parameter of a master, or
/// a height beside a used metric, has a fraction.
pub fn fractions_of_masters_are_refused()
    ensures { FractionsOfMastersAreRefused }
{}

/// Something of a list of masters is out of range exactly where a design coordinate is beyond -32767
/// to 32767, or a whole height beside a used metric beyond -16383 to 16383, or a user coordinate as
/// a design coordinate.
pub fn ranges_of_masters_are_kept()
    ensures { RangesOfMastersAreKept }
{}

ghost use Rattle.std.specs.Prelude.{◌≡◌};
ghost use Rattle.refusal_codes.specs.Texts.{kind_name};

/// The name of the kind of job with this number.
pub fn kind_name_of(kind: u8) -> &'static str
    ensures { result.now ≡ kind_name kind }
{
    match kind {
        0 => "Tree",
        1 => "Header",
        2 => "Index",
        3 => "Raw",
        4 => "Flat",
        5 => "Simple",
        6 => "Composite",
        7 => "Variations",
        8 => "FeatureParse",
        9 => "Order",
        10 => "Advances",
        11 => "Kern",
        12 => "Marks",
        13 => "Rules",
        14 => "Lookup",
        15 => "Store",
        16 => "Table",
        17 => "Font",
        18 => "Alternates",
        _ => "Job",
    }
}

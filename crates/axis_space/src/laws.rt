ghost use Rattle.std.specs.Prelude.{◌≡◌, ◌≢◌, ◌++◌, ◌≤◌, ℕ, List, map, length, None};
ghost use Rattle.std.specs.List.{AllPairs};
ghost use Rattle.fixed_math.specs.declared.F2Dot14.{F2Dot14};
ghost use Rattle.font_ir.specs.declared.header.Header.{Header};
ghost use Rattle.font_ir.specs.declared.header.Master.{Master};
ghost use Rattle.axis_space.specs.Placing.{FulfilsPlaces, placed};
ghost use Rattle.axis_space.specs.Repeats.{IsFirstRepeat, TellsRepeat, first_repeat};
ghost use Rattle.axis_space.specs.UnmappedAxes.{TellsUnmapped, first_unmapped};

/// Masters that have their locations, of which no two lie at one place, on axes that all have a map
/// fulfil what a header asks of them. A law: the function does nothing.
pub fn placed_masters_fulfil_a_header()
    ensures { (header : Header) (masters : List Master)
        → header.masters ≡ placed header.origin (length header.axes) masters
        → TellsRepeat (map (λ master. master.location) header.masters) None
        → TellsUnmapped header.masters header.origin (length header.axes) None
        → FulfilsPlaces header }
{}

/// What is computed as the first place that stands again is that. A law: the function does nothing.
pub fn first_repeat_is_the_first()
    ensures { (places : List (List F2Dot14)) → TellsRepeat places (first_repeat places) }
{}

/// Where the first places of a list are all different, the first that stands again comes after
/// them. A law: the function does nothing.
pub fn repeats_come_after_places_that_differ()
    ensures { (first others : List (List F2Dot14)) (i : ℕ) → AllPairs (λ a b. a ≢ b) first
        → IsFirstRepeat (first ++ others) i → length first ≤ i }
{}

/// What is computed as the first axis without a map is that. A law: the function does nothing.
pub fn first_unmapped_is_the_first()
    ensures { (masters : List Master) (origin axes : ℕ)
        → TellsUnmapped masters origin axes (first_unmapped masters origin axes) }
{}

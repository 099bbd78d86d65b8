ghost use Rattle.std.specs.Prelude.{◌≡◌, map, codes};
ghost use Rattle.refusal_codes.specs.First.{noted};
ghost use Rattle.source_values.specs.Asking.{required};
ghost use Rattle.source_masters.specs.Metrics.{is_used, used_metrics};
ghost use Rattle.source_masters.specs.MasterRules.{location_failures, locations_failures};
ghost use Rattle.source_masters.specs.MasterRules.{master_parameters_failures};
ghost use Rattle.source_masters.specs.MasterRules.{master_parts_failures, masters_failures};

use crate::metrics::{metric_numbers, note_metric_values};
use crate::parameters::note_parameters;
use plist_reader::Tree;
use refusal_codes::FirstFailure;
use source_axes::AxisCoordinate;
use source_values::{Asked, Dictionary, Each, PlainText, optional, required};

/// Notes what fails of the list of masters, which a source must have, where its metrics are those
/// that it lists.
pub fn note_masters(tree: &Tree, first: &mut FirstFailure)
    ensures { first.new ≡ noted first.old (required (codes "fontMaster")
        (masters_failures (used_metrics tree.now)) tree.now tree.now.top) }
{
    let masters = Masters {
        metrics: metric_numbers(tree),
    };
    required(tree, tree.top, b"fontMaster", &masters, first);
}

/// The list of masters (Glyphs file format, version 3, `fontMaster`).
///
/// Each is a dictionary with an `id`, a text. Of `axesValues` each is a decimal from -32767 to
/// 32767; of `metricValues` each is a dictionary, whose `pos` is a whole number from -16383 to
/// 16383 where the metric at its position is used. Of the parameters `Axis Location` is read.
#[derive(Clone, Copy)]
pub struct Masters<'t> {
    /// The metrics that the font lists.
    pub metrics: &'t [u32],
}

impl<'t> Asked for Masters<'t> {
    ghost failures = { λ asked tree. masters_failures (map (is_used tree) asked.metrics.now) tree };

    fn note(&self, tree: &Tree, number: u32, first: &mut FirstFailure) {
        let parts = MasterParts {
            metrics: self.metrics,
        };
        Each(Dictionary(parts)).note(tree, number, first);
    }
}

/// What the dictionary of a master holds.
#[derive(Clone, Copy)]
struct MasterParts<'t> {
    metrics: &'t [u32],
}

impl<'t> Asked for MasterParts<'t> {
    ghost failures = { λ asked tree.
        master_parts_failures (map (is_used tree) asked.metrics.now) tree };

    #[tactic(auto, using(refusal_codes::specs::FirstLaws::noting), unfolding(crate::specs::MasterRules::master_parts_failures))]
    fn note(&self, tree: &Tree, master: u32, first: &mut FirstFailure) {
        let values = MetricValues {
            metrics: self.metrics,
        };
        required(tree, master, b"id", &PlainText, first);
        optional(tree, master, b"axesValues", &Each(AxisCoordinate), first);
        optional(tree, master, b"metricValues", &values, first);
        optional(tree, master, b"customParameters", &MasterParameters, first);
    }
}

/// The values of a master beside the font's metrics.
#[derive(Clone, Copy)]
struct MetricValues<'t> {
    metrics: &'t [u32],
}

impl<'t> Asked for MetricValues<'t> {
    ghost use Rattle.source_masters.specs.Metrics.{metric_values_failures};

    ghost failures = { λ asked tree.
        metric_values_failures (map (is_used tree) asked.metrics.now) tree };

    fn note(&self, tree: &Tree, number: u32, first: &mut FirstFailure) {
        note_metric_values(tree, number, self.metrics, first);
    }
}

/// The list of a master's parameters.
#[derive(Clone, Copy)]
struct MasterParameters;

impl Asked for MasterParameters {
    ghost failures = { λ asked. master_parameters_failures };

    fn note(&self, tree: &Tree, number: u32, first: &mut FirstFailure) {
        note_parameters(
            tree,
            number,
            b"Axis Location",
            &Each(Dictionary(AxisLocation)),
            first,
        );
    }
}

/// Where a master lies on the user's scale of an axis.
#[derive(Clone, Copy)]
struct AxisLocation;

impl Asked for AxisLocation {
    ghost failures = { λ asked. location_failures };

    #[tactic(auto, using(refusal_codes::specs::FirstLaws::noting), unfolding(crate::specs::MasterRules::location_failures))]
    fn note(&self, tree: &Tree, number: u32, first: &mut FirstFailure) {
        optional(tree, number, b"Axis", &PlainText, first);
        optional(tree, number, b"Location", &AxisCoordinate, first);
    }
}

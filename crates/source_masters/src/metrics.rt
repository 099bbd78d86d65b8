ghost use Rattle.std.specs.Prelude.{◌≡◌, ◌≤◌, map, flat_map, position, unwrap_or};
ghost use Rattle.std.specs.List.{zip};
ghost use Rattle.refusal_codes.specs.First.{noted};
ghost use Rattle.source_values.specs.Values.{items_at};
ghost use Rattle.source_masters.specs.Metrics.{metrics_failures, metric_failures, metric_numbers};
ghost use Rattle.source_masters.specs.Metrics.{is_of_type, is_used, height_failures};
ghost use Rattle.source_masters.specs.Metrics.{value_failures, metric_values_failures, height_at};
ghost use Rattle.source_masters.specs.Metrics.{height_in, height_of, heights_of, missing_heights};

use crate::parameters::has_text;
use plist_reader::Tree;
use refusal_codes::{FirstFailure, Rule, limits};
use source_values::{
    AnyDictionary, Asked, Dictionary, Each, PlainText, decimal_at, items_at, items_under, note_at,
    optional,
};

/// The vertical metrics of a master, in font units.
#[derive(Clone, Copy, Debug, PartialEq, Eq)]
pub struct Heights {
    pub ascender: i16,
    pub descender: i16,
    pub cap: i16,
    pub xheight: i16,
}

/// The list of the font's metrics: dictionaries whose `type` is a text (Glyphs file format, version
/// 3, `metrics`).
#[derive(Clone, Copy)]
pub struct Metrics;

impl Asked for Metrics {
    ghost failures = { λ asked. metrics_failures };

    fn note(&self, tree: &Tree, number: u32, first: &mut FirstFailure) {
        Each(Dictionary(Metric)).note(tree, number, first);
    }
}

/// What a metric of the font holds.
#[derive(Clone, Copy)]
struct Metric;

impl Asked for Metric {
    ghost failures = { λ asked. metric_failures };

    #[tactic(auto, unfolding(crate::specs::Metrics::metric_failures))]
    fn note(&self, tree: &Tree, metric: u32, first: &mut FirstFailure) {
        optional(tree, metric, b"type", &PlainText, first);
    }
}

/// The metrics that the font lists.
#[tactic(auto, unfolding(crate::specs::Metrics::metric_numbers))]
pub fn metric_numbers(tree: &Tree) -> &[u32]
    ensures { result.now ≡ metric_numbers tree.now }
{
    items_under(tree, tree.top, b"metrics")
}

fn is_of_type(tree: &Tree, kind: &[u8], metric: u32) -> bool
    ensures { result ≡ is_of_type kind.now tree.now metric }
{
    has_text(tree, metric, b"type", kind)
}

/// Whether a metric is of one of the four types that are used.
#[tactic(auto, unfolding(crate::specs::Metrics::is_used))]
fn is_used(tree: &Tree, metric: u32) -> bool
    ensures { result ≡ is_used tree.now metric }
{
    is_of_type(tree, b"ascender", metric)
        || is_of_type(tree, b"descender", metric)
        || is_of_type(tree, b"cap height", metric)
        || is_of_type(tree, b"x-height", metric)
}

/// A height in font units: a whole number from -16383 to 16383.
#[derive(Clone, Copy)]
struct Height;

impl Asked for Height {
    ghost failures = { λ asked. height_failures };

    #[tactic(auto, unfolding(crate::specs::Metrics::height_failures))]
    fn note(&self, tree: &Tree, number: u32, first: &mut FirstFailure) {
        match decimal_at(tree, number) {
            None => note_at(tree, number, Rule::WrongShape, first),
            Some(height) => {
                if height.billionths != 0 {
                    note_at(tree, number, Rule::NotWhole, first);
                } else if height.whole > limits::COORDINATE {
                    note_at(tree, number, Rule::OutOfRange, first);
                }
            }
        }
    }
}

/// Notes what fails of a list of a master's values, where the font lists these metrics.
#[tactic(auto, using(refusal_codes::specs::FirstLaws::noting), unfolding(crate::specs::Metrics::metric_values_failures))]
pub fn note_metric_values(tree: &Tree, number: u32, metrics: &[u32], first: &mut FirstFailure)
    ensures { first.new ≡ noted first.old
        (metric_values_failures (map (is_used tree.now) metrics.now) tree.now number) }
{
    Each(AnyDictionary).note(tree, number, first);
    note_heights(tree, metrics, items_at(tree, number).unwrap_or(&[]), first);
}

/// Notes what fails of values of a master beside these metrics.
fn note_heights(tree: &Tree, metrics: &[u32], values: &[u32], first: &mut FirstFailure)
    ensures { first.new ≡ noted first.old
        (flat_map (value_failures tree.now) (zip (map (is_used tree.now) metrics.now) values.now)) }
{
    let count = metrics.len().min(values.len());
    for index in 0..count {
        note_value(tree, metrics[index], values[index], first);
    }
}

/// Notes what fails of the value beside a metric.
#[tactic(auto, unfolding(crate::specs::Metrics::value_failures))]
fn note_value(tree: &Tree, metric: u32, value: u32, first: &mut FirstFailure)
    ensures { first.new ≡ noted first.old
        (value_failures tree.now (is_used tree.now metric, value)) }
{
    if is_used(tree, metric) {
        optional(tree, value, b"pos", &Height, first);
    }
}

/// The height that a value is, 0 where it is none.
#[tactic(auto, unfolding(crate::specs::Metrics::height_at))]
fn height_at(tree: &Tree, number: u32) -> i16
    ensures { result ≡ height_at tree.now number }
{
    match decimal_at(tree, number) {
        Some(height) => {
            if height.billionths == 0 && height.whole <= limits::COORDINATE {
                let size = height.whole as i16;
                if height.negative { -size } else { size }
            } else {
                0
            }
        }
        None => 0,
    }
}

/// The height in a value of a master, 0 where it has none.
#[tactic(auto, unfolding(crate::specs::Metrics::height_in))]
fn height_in(tree: &Tree, value: u32) -> i16
    ensures { result ≡ height_in tree.now value }
{
    match tree.find(value, b"pos") {
        Some(number) => height_at(tree, number),
        None => 0,
    }
}

/// The position of the first metric of this type.
fn position_of(tree: &Tree, kind: &[u8], metrics: &[u32]) -> Option<usize>
    ensures { result ≡ position (is_of_type kind.now tree.now) metrics.now }
{
    metrics
        .iter()
        .position(|metric| is_of_type(tree, kind, *metric))
}

/// What a master has of a type: the height in its value at the position of the first metric of that
/// type.
#[tactic(auto, unfolding(crate::specs::Metrics::height_of))]
fn height_of(tree: &Tree, kind: &[u8], metrics: &[u32], master: u32) -> Option<i16>
    ensures { result ≡ height_of kind.now tree.now metrics.now master }
{
    let position = position_of(tree, kind, metrics)?;
    let value = items_under(tree, master, b"metricValues").get(position)?;
    Some(height_in(tree, *value))
}

/// The heights of a master, of which the last stand for those that it hasn't.
#[tactic(auto, unfolding(crate::specs::Metrics::heights_of))]
pub fn heights_of(tree: &Tree, metrics: &[u32], master: u32, missing: Heights) -> Heights
    ensures { result ≡ heights_of tree.now metrics.now master missing }
{
    Heights {
        ascender: height_of(tree, b"ascender", metrics, master).unwrap_or(missing.ascender),
        descender: height_of(tree, b"descender", metrics, master).unwrap_or(missing.descender),
        cap: height_of(tree, b"cap height", metrics, master).unwrap_or(missing.cap),
        xheight: height_of(tree, b"x-height", metrics, master).unwrap_or(missing.xheight),
    }
}

/// The heights that the default master hasn't, in a font of so many units per em.
#[tactic(auto, unfolding(crate::specs::Metrics::missing_heights))]
pub fn missing_heights(units: u16) -> Heights
    requires { units ≤ 16384 }
    ensures { result ≡ missing_heights units }
{
    let ascender = (u32::from(units) * 4 / 5) as i16;
    Heights {
        ascender,
        descender: ascender - units as i16,
        cap: 0,
        xheight: 0,
    }
}

ghost use Rattle.std.specs.Prelude.{◌≡◌, ◌+◌, ◌++◌, [], ◌∷◌, map, length, if◌then◌else◌, None};
ghost use Rattle.std.specs.Prelude.{IfOk, OnOk, MatchResult};
ghost use Rattle.std.specs.List.{All};
ghost use Rattle.font_ir.specs.Headers.{IsHeader};
ghost use Rattle.variation_model.specs.Deltas.{first_large};
ghost use Rattle.style_tables.specs.Metrics as spec;

use fixed_math::Fixed;
use font_ir::{Header, Master};
use plain_lists::Sequence;
use std::alloc::{AllocError, Global};
use variation_model::{DeltaError, Model};

/// A metric of the whole font.
#[derive(Clone, Copy, Debug, PartialEq, Eq)]
pub enum Metric {
    CapHeight,
    Ascender,
    Descender,
    XHeight,
}

/// By tag.
pub const METRICS: [Metric; 4] = [
    Metric::CapHeight,
    Metric::Ascender,
    Metric::Descender,
    Metric::XHeight,
];

impl Metric {
    /// Its tag in the table `MVAR`.
    pub fn tag(self) -> [u8; 4]
        ensures { result ≡ spec.tag_of self }
    {
        match self {
            Metric::CapHeight => *b"cpht",
            Metric::Ascender => *b"hasc",
            Metric::Descender => *b"hdsc",
            Metric::XHeight => *b"xhgt",
        }
    }

    /// A master's number, in font units.
    fn number_at(self, master: &Master) -> i16
        ensures { result ≡ spec.number_at self master.now }
    {
        match self {
            Metric::CapHeight => master.cap,
            Metric::Ascender => master.ascender,
            Metric::Descender => master.descender,
            Metric::XHeight => master.xheight,
        }
    }
}

/// A master's number, in 16.16.
fn fixed_at(metric: Metric, master: &Master) -> Fixed
    ensures { result ≡ spec.fixed_at metric master.now }
{
    Fixed(65536 * i32::from(metric.number_at(master)))
}

/// The masters' numbers, in 16.16.
fn numbers_of(alloc: Global, header: &Header, metric: Metric) -> Result<Vec<Fixed>, AllocError>
    ensures { IfOk result (λ numbers. numbers.items ≡ spec.numbers_of header.now metric) }
{
    let masters = header.masters.as_slice();
    let mut numbers = Vec::with_capacity(alloc, masters.len())?;
    for master in masters {
        numbers.push(fixed_at(metric, master))?;
    }
    Ok(numbers)
}

/// A metric's deltas behind the first one, which is the default's number.
fn row_of(
    alloc: Global,
    header: &Header,
    model: &Model,
    metric: Metric,
) -> Result<Vec<i16>, DeltaError>
    requires header { IsHeader header.now }
    requires model { model.now ≡ map (λ master. master.location) header.now.masters }
    ensures { MatchResult result (λ row. (row.items ≡ spec.row_of header.now metric)
        × (length row.items + 1 ≡ length header.now.masters)
        × (first_large 0 (spec.metric_deltas header.now metric) ≡ None))
        (λ e. spec.RefusesMetrics e (first_large 0 (spec.metric_deltas header.now metric))) }
{
    let numbers = numbers_of(alloc, header, metric)?;
    let deltas = model.deltas(alloc, numbers.as_slice())?;
    Ok(Vec::from_slice(alloc, &deltas[1..])?)
}

/// Whether a metric with these deltas varies.
fn is_varied(row: &[i16]) -> bool
    ensures { result ≡ spec.is_varied row.now }
{
    row.iter().any(|delta| *delta != 0)
}

/// Metrics that vary, and the row of each.
#[derive(Drop)]
pub struct Varied {
    pub metrics: Vec<Metric>,
    pub rows: Vec<Sequence<i16>>,
}

impl Varied {
    /// Adds a metric with its row, if it varies.
    fn push(&mut self, metric: Metric, row: Vec<i16>) -> Result<(), AllocError>
        ensures metrics { OnOk result (self.new.metrics.items ≡ self.old.metrics.items
            ++ (if spec.is_varied row.items then metric ∷ [] else [])) }
        ensures rows { OnOk result (self.new.rows.items ≡ self.old.rows.items
            ++ (if spec.is_varied row.items then row.items ∷ [] else [])) }
    {
        if is_varied(row.as_slice()) {
            self.metrics.push(metric)?;
            self.rows.push(Sequence::from_vec(row))?;
        }
        Ok(())
    }
}

/// Those of some metrics that vary.
pub fn varied_among(
    alloc: Global,
    header: &Header,
    model: &Model,
    metrics: &[Metric],
) -> Result<Varied, DeltaError>
    requires header { IsHeader header.now }
    requires model { model.now ≡ map (λ master. master.location) header.now.masters }
    ensures { MatchResult result (λ varied.
        (varied.metrics.items ≡ spec.varied_among header.now metrics.now)
        × (varied.rows.items ≡ spec.rows_of header.now (spec.varied_among header.now metrics.now))
        × All (λ row. length row + 1 ≡ length header.now.masters) varied.rows.items
        × (spec.first_large_of header.now metrics.now ≡ None))
        (λ e. spec.RefusesMetrics e (spec.first_large_of header.now metrics.now)) }
{
    let mut varied = Varied {
        metrics: Vec::new(alloc),
        rows: Vec::new(alloc),
    };
    for metric in metrics {
        let row = row_of(alloc, header, model, *metric)?;
        varied.push(*metric, row)?;
    }
    Ok(varied)
}

ghost use Rattle.std.specs.Prelude.{◌≡◌, ◌≤◌, ◌++◌, length, map, OnOk, IfOk};
ghost use Rattle.font_ir.specs.Headers.{IsHeader};
ghost use Rattle.region_store.specs.Stores.{IsStore};
ghost use Rattle.style_tables.specs.Metrics.{varied_metrics, rows_of};
ghost use Rattle.style_tables.specs.Mvar as spec;

use crate::metrics::{METRICS, Metric, Varied, varied_among};
use font_ir::Header;
use refusal_codes::NoMemory;
use region_store::{Region, store_bytes};
use std::alloc::{AllocError, Global};
use table_bytes::push_uint16;
use variation_model::{DeltaError, Model};

/// The bytes before the records.
const HEAD_SIZE: u16 = 12;

/// The bytes of a ValueRecord.
const RECORD_SIZE: u16 = 8;

/// Appends a ValueRecord.
#[tactic(auto, unfolding(crate::specs::Mvar::value_record))]
fn push_record(table: &mut Vec<u8>, row: usize, metric: Metric) -> Result<(), AllocError>
    requires { row ≤ 4 }
    ensures { OnOk result (table.new.items ≡ table.old.items ++ spec.value_record row metric) }
{
    table.extend_from_slice(&metric.tag())?;
    push_uint16(table, 0)?;
    push_uint16(table, row as u16)
}

/// Appends the records of the metrics that vary.
fn push_records(table: &mut Vec<u8>, metrics: &[Metric]) -> Result<(), AllocError>
    requires { length metrics.now ≤ 4 }
    ensures { OnOk result (table.new.items ≡ table.old.items ++ spec.value_records 0 metrics.now) }
{
    for (row, metric) in metrics.iter().enumerate() {
        push_record(table, row, *metric)?;
    }
    Ok(())
}

/// Appends the fields before the records.
#[tactic(auto, unfolding(crate::specs::Mvar::mvar_head))]
fn push_head(table: &mut Vec<u8>, records: u16) -> Result<(), AllocError>
    requires { records ≤ 4 }
    ensures { OnOk result (table.new.items ≡ table.old.items ++ spec.mvar_head records) }
{
    push_uint16(table, 1)?;
    push_uint16(table, 0)?;
    push_uint16(table, 0)?;
    push_uint16(table, RECORD_SIZE)?;
    push_uint16(table, records)?;
    push_uint16(table, HEAD_SIZE + RECORD_SIZE * records)
}

/// The table of metrics that vary, over a store of their rows.
#[tactic(auto, unfolding(crate::specs::Mvar::mvar_bytes))]
fn table_of(
    alloc: Global,
    varied: &Varied,
    axes: u16,
    regions: &[Region],
) -> Result<Vec<u8>, NoMemory>
    requires few { length varied.now.metrics.items ≤ 4 }
    requires few_axes { axes ≤ 8 }
    requires store { IsStore (record
        { axes = axes; regions = regions.now; rows = varied.now.rows.items }) }
    ensures { IfOk result (λ table. table.items ≡ spec.mvar_bytes varied.now.metrics.items (record
        { axes = axes; regions = regions.now; rows = varied.now.rows.items })) }
{
    let metrics = varied.metrics.as_slice();
    let store = store_bytes(alloc, axes, regions, varied.rows.as_slice())?;
    let mut table = Vec::with_capacity(alloc, 44 + store.len())?;
    push_head(&mut table, metrics.len() as u16)?;
    push_records(&mut table, metrics)?;
    table.extend_from_slice(store.as_slice())?;
    Ok(table)
}

/// The table `MVAR` (OpenType 1.9, "MVAR"), which tells by how much cap height, ascender, descender
/// and x-height change, in font units and by the masters' model, of those that do. A font in which
/// none changes, as each without axes, has no such table.
///
/// # Errors
///
/// `TooLarge` exactly where a delta of one of these metrics is outside an `i16`: the first such of
/// the first metric, by tag, with its number in the model's order. `NoMemory` where memory runs
/// out.
pub fn mvar(alloc: Global, header: &Header, model: &Model) -> Result<Option<Vec<u8>>, DeltaError>
    requires header { IsHeader header.now }
    requires model { model.now ≡ map (λ master. master.location) header.now.masters }
    ensures { spec.GivesMvar result header.now }
{
    let varied = varied_among(alloc, header, model, &METRICS)?;
    if varied.metrics.is_empty() {
        return Ok(None);
    }
    let regions = &model.supports()[1..];
    match table_of(alloc, &varied, header.axes.len() as u16, regions) {
        Ok(table) => Ok(Some(table)),
        Err(NoMemory) => Err(DeltaError::NoMemory),
    }
}

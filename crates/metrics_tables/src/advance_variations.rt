ghost use Rattle.std.specs.Prelude.{◌≡◌, ◌++◌, IfOk};
ghost use Rattle.font_ir.specs.Headers.{IsHeader};
ghost use Rattle.metrics_tables.specs.Hvar.{AreMeasuresFor, hvar_table};
ghost use Rattle.metrics_tables.specs.Tables.{AreMeasures};

use crate::measures::Measures;
use font_ir::Header;
use refusal_codes::NoMemory;
use region_store::store_bytes;
use std::alloc::Global;
use table_bytes::push_uint32;

/// The bytes before the store.
const HEAD_SIZE: u32 = 20;

/// The table `HVAR` (OpenType 1.9, "HVAR"): the changes of each glyph's advance width, in font
/// units, over the masters' regions behind the first and the others in which some advance width
/// changes.
///
/// # Errors
///
/// `NoMemory` where memory runs out.
#[tactic(auto, unfolding(crate::specs::Hvar::hvar_table))]
pub fn hvar(alloc: Global, header: &Header, measures: &Measures) -> Result<Vec<u8>, NoMemory>
    requires header { IsHeader header.now }
    requires measures { AreMeasures measures.now }
    requires for_header { AreMeasuresFor header.now measures.now }
    ensures { IfOk result (λ table. table.items ≡ hvar_table header.now measures.now) }
{
    let axes = header.axes.len() as u16;
    let regions = measures.regions.as_slice();
    let store = store_bytes(alloc, axes, regions, measures.rows.as_slice())?;
    let mut table = Vec::with_capacity(alloc, store.len().saturating_add(20))?;
    push_uint32(&mut table, 0x0001_0000)?;
    push_uint32(&mut table, HEAD_SIZE)?;
    push_uint32(&mut table, 0)?;
    push_uint32(&mut table, 0)?;
    push_uint32(&mut table, 0)?;
    table.extend_from_slice(store.as_slice())?;
    Ok(table)
}

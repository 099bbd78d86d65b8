ghost use Rattle.std.specs.Prelude.{◌≡◌, ◌≤◌, ◌++◌, [], ◌∷◌, length, None, Some, slice_get, IfOk};
ghost use Rattle.std.specs.Prelude.{OnOk, OnErr};
ghost use Rattle.std.specs.List.{All};
ghost use Rattle.region_store.specs.Stores.{item_variation_data, store_tree};
ghost use Rattle.region_store.specs.Builders.{AddsRow, IsBuilt, place_among, rows_with};
ghost use Rattle.region_store.specs.Views.{rows_of};

use crate::errors::StoreError;
use crate::stores::{data_head, push_row, region_list, store_node};
use font_ir::Region;
use indexmap::IndexSet;
use refusal_codes::NoMemory;
use std::alloc::Global;
use std::marker::Model;
use table_tree::Node;

/// How many rows a store can have.
const MOST_ROWS: usize = 65535;

/// A store to which rows are added one by one. Equal rows stand once.
#[derive(Debug, Drop)]
pub struct StoreBuilder {
    axes: u16,
    regions: Vec<Region>,
    rows: IndexSet<Vec<i16>>,
}

impl Model for StoreBuilder {
    ghost use Rattle.region_store.specs.Stores.{Store};
    ghost use Rattle.region_store.specs.Builders.{IsBuilt};
    ghost use Rattle.region_store.specs.Views.{store_of};

    ghost Value = { Store };

    ghost view = { λ b. store_of b.axes b.regions.items b.rows.keys };

    ghost invariant = { λ b. IsBuilt (store_of b.axes b.regions.items b.rows.keys) };
}

impl StoreBuilder {
    /// The store without rows over these regions of a font with so many axes. Each region has a
    /// side on each axis. Memory can run out.
    pub fn new(alloc: Global, axes: u16, regions: &[Region]) -> Result<StoreBuilder, NoMemory>
        requires few { length regions.now ≤ 32767 }
        requires sides { All (λ region. length region.sides ≡ axes) regions.now }
        ensures { IfOk result (λ store. store
            ≡ record { axes = axes; regions = regions.now; rows = [] }) }
    {
        Ok(StoreBuilder {
            axes,
            regions: copied_regions(alloc, regions)?,
            rows: IndexSet::new(alloc),
        })
    }

    /// The place of a row, which has a delta for each region: the outer index, which is 0, and the
    /// inner one. A row that is equal to an earlier one has the place of that; any other is added
    /// behind the others. It is found without a scan. The error is `Full` exactly where 65,535 rows
    /// stand there and the row is not among them, and has their number. Else memory can run out.
    /// After an error the store is as before.
    pub fn add(&mut self, alloc: Global, row: &[i16]) -> Result<(u16, u16), StoreError>
        requires { length row.now ≡ length self.old.regions }
        ensures place { AddsRow result self.old.rows row.now }
        ensures ok { OnOk result (self.new ≡ record self.old
            { rows = rows_with self.old.rows row.now }) }
        ensures stands { IfOk result (λ place. slice_get self.new.rows place.1 ≡ Some row.now) }
        ensures err { OnErr result (self.new ≡ self.old) }
    {
        match self.place_of(row) {
            Some(place) => Ok((0, place)),
            None => self.append(alloc, row),
        }
    }

    /// The place of a row that stands there.
    fn place_of(&self, row: &[i16]) -> Option<u16>
        ensures { result ≡ place_among self.now.rows row.now }
    {
        match self.rows.get_index_of(row) {
            Some(place) => Some(place as u16),
            None => None,
        }
    }

    /// Adds a row that doesn't stand there, where there is room.
    fn append(&mut self, alloc: Global, row: &[i16]) -> Result<(u16, u16), StoreError>
        requires new { place_among self.old.rows row.now ≡ None }
        requires deltas { length row.now ≡ length self.old.regions }
        ensures place { AddsRow result self.old.rows row.now }
        ensures ok { OnOk result (self.new ≡ record self.old
            { rows = self.old.rows ++ row.now ∷ [] }) }
        ensures stands { IfOk result (λ place. slice_get self.new.rows place.1 ≡ Some row.now) }
        ensures err { OnErr result (self.new ≡ self.old) }
    {
        let place = self.rows.len();
        if place == MOST_ROWS {
            return Err(StoreError::Full(place as u32));
        }
        let row = Vec::from_slice(alloc, row)?;
        self.rows.insert(row)?;
        Ok((0, place as u16))
    }

    /// The store's tree, with the rows in their order (OpenType 1.9, "Font variations common table
    /// formats", "Item variation stores"). The rows are all different. Memory can run out.
    pub fn finish(&self, alloc: Global) -> Result<Node, NoMemory>
        ensures tree { IfOk result (λ node. node ≡ store_tree self.now) }
        ensures built { IsBuilt self.now }
    {
        let list = region_list(alloc, self.axes, self.regions.as_slice())?;
        let rows = self.rows.as_slice();
        let subtable = different_data(alloc, self.regions.len(), rows)?;
        store_node(alloc, list, rows.len(), subtable)
    }
}

/// The same regions.
fn copied_regions(alloc: Global, regions: &[Region]) -> Result<Vec<Region>, NoMemory>
    ensures { IfOk result (λ copies. copies.items ≡ regions.now) }
{
    let mut copies = Vec::with_capacity(alloc, regions.len())?;
    for region in regions {
        copies.push(Region {
            sides: region.sides.copy(alloc)?,
        })?;
    }
    Ok(copies)
}

/// The subtable of a builder's rows, over so many regions.
fn different_data(alloc: Global, regions: usize, rows: &[Vec<i16>]) -> Result<Vec<u8>, NoMemory>
    requires few_regions { regions ≤ 32767 }
    requires few_rows { length rows.now ≤ 65535 }
    ensures { IfOk result (λ bytes. bytes.items ≡ item_variation_data regions (rows_of rows.now)) }
{
    let mut bytes = data_head(alloc, rows.len(), regions)?;
    for row in rows {
        push_row(&mut bytes, row.as_slice())?;
    }
    Ok(bytes)
}

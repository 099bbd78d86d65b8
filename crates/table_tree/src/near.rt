ghost use Rattle.std.specs.Prelude.{◌≡◌, ◌+◌, ◌++◌, [], ◌∷◌, None, map, if◌then◌else◌, is_some};
ghost use Rattle.std.specs.Prelude.{IfOk, OnOk};
ghost use Rattle.table_tree.specs.Trees.{Tree, end, spelling};
ghost use Rattle.table_tree.specs.TreeOf.{before, tree_of};
ghost use Rattle.table_tree.specs.Layouts.{cells_length as length_of_cells, moved, standing};
ghost use Rattle.table_tree.specs.Layouts.{place_of, places_with, next_after, item_length};
ghost use Rattle.table_tree.specs.Layouts.{items_of, total_by, own_cells, cells_behind};
ghost use Rattle.table_tree.specs.Layouts.{near_part as near_part_of};
ghost use Rattle.table_tree.specs.Views.{cell_of, cells_of};
ghost use Rattle.table_tree.specs.Standing.{places_in};

use crate::cells::{Cell, Piece, cells_length, settle, sum};
use crate::node::{Field, Node};
use crate::spelling::spelling_of;
use indexmap::IndexMap;
use refusal_codes::NoMemory;
use std::alloc::Global;

/// The nodes that stand behind the fields of a node: their cells, where each begins, by its
/// spelling, and where the next will.
#[derive(Drop)]
pub struct Behind<'a> {
    cells: Vec<Cell<'a>>,
    places: IndexMap<Vec<u32>, u64>,
    next: u64,
}

/// The cells of a node's near part.
#[cycle(near_part)]
pub fn near_part<'a>(alloc: Global, node: &'a Node) -> Result<Vec<Cell<'a>>, NoMemory>
    ensures { IfOk result (λ cells. cells_of cells.items ≡ near_part_of node.now) }
{
    let fields = node.fields();
    let mut own = Vec::with_capacity(alloc, fields.len())?;
    let mut behind = Behind {
        cells: Vec::new(alloc),
        places: IndexMap::new(alloc),
        next: fields_length(fields)?,
    };
    for field in fields {
        let cell = own_cell(alloc, field, &mut behind)?;
        own.push(cell)?;
    }
    own.append(&mut behind.cells)?;
    Ok(own)
}

/// The cell of a field. A node that a near offset leads to is put behind the others.
#[cycle(near_part)]
fn own_cell<'a>(
    alloc: Global,
    field: &'a Field,
    behind: &mut Behind<'a>,
) -> Result<Cell<'a>, NoMemory>
    ensures own { IfOk result (λ cell. (others : Tree)
        → own_cells (places_in behind.old) behind.old.next (items_of (before field.now others))
        ≡ cell_of cell ∷ own_cells (places_in behind.new) behind.new.next (items_of others)) }
    ensures cells { OnOk result ((others : Tree)
        → cells_of behind.old.cells.items ++ cells_behind (places_in behind.old) behind.old.next
        (items_of (before field.now others))
        ≡ cells_of behind.new.cells.items ++ cells_behind (places_in behind.new) behind.new.next
        (items_of others)) }
{
    match field {
        Field::U8(n) => Ok(Cell::Settled(Piece::U8(*n))),
        Field::U16(n) => Ok(Cell::Settled(Piece::U16(*n))),
        Field::U32(n) => Ok(Cell::Settled(Piece::U32(*n))),
        Field::Bytes(content) => Ok(Cell::Settled(Piece::Bytes(content.as_slice()))),
        Field::Off16(child) => {
            let place = place_of_child(alloc, child, behind)?;
            Ok(Cell::Settled(Piece::Off16(place)))
        }
        Field::Off32(child) => {
            let place = place_of_child(alloc, child, behind)?;
            Ok(Cell::Settled(Piece::Off32(place)))
        }
        Field::Far32(child) => {
            let cells = near_part(alloc, child)?;
            Ok(Cell::Far(0, settle(alloc, cells.as_slice())?))
        }
        Field::Null16 => Ok(Cell::Settled(Piece::U16(0))),
        Field::Null32 => Ok(Cell::Settled(Piece::U32(0))),
    }
}

/// Where a node stands behind the fields of its parent. Unless one that is equal to it stands
/// there, it becomes the last.
#[cycle(near_part)]
fn place_of_child<'a>(
    alloc: Global,
    child: &'a Node,
    behind: &mut Behind<'a>,
) -> Result<u64, NoMemory>
    ensures place { IfOk result (λ place. place
        ≡ place_of (places_in behind.old) behind.old.next (spelling child.now)) }
    ensures places { OnOk result (places_in behind.new
        ≡ places_with (places_in behind.old) behind.old.next (spelling child.now)) }
    ensures next { OnOk result (behind.new.next
        ≡ next_after (places_in behind.old) behind.old.next (spelling child.now)
        (near_part_of child.now)) }
    ensures cells { OnOk result (cells_of behind.new.cells.items
        ≡ cells_of behind.old.cells.items ++
        (if is_some (standing (places_in behind.old) (spelling child.now)) then [] else map
        (moved behind.old.next) (near_part_of child.now))) }
{
    let spelled = spelling_of(alloc, child)?;
    match behind.standing(spelled.as_slice()) {
        Some(place) => Ok(place),
        None => {
            let cells = near_part(alloc, child)?;
            behind.put(spelled, cells)
        }
    }
}

impl<'a> Behind<'a> {
    /// Where the node with a spelling stands.
    fn standing(&self, spelled: &[u32]) -> Option<u64>
        ensures { result ≡ standing (places_in self.now) spelled.now }
    {
        self.places.get(spelled).copied()
    }

    /// Puts a node of which none stands there behind the others. The answer is where it begins.
    fn put(&mut self, spelled: Vec<u32>, cells: Vec<Cell<'a>>) -> Result<u64, NoMemory>
        requires { standing (places_in self.old) spelled.items ≡ None }
        ensures place { IfOk result (λ place. place ≡ self.old.next) }
        ensures places { OnOk result (places_in self.new
            ≡ places_in self.old ++ (spelled.items, self.old.next) ∷ []) }
        ensures next { OnOk result (self.new.next
            ≡ self.old.next + length_of_cells (cells_of cells.entry.items)) }
        ensures cells { OnOk result (cells_of self.new.cells.items
            ≡ cells_of self.old.cells.items ++ map (moved self.old.next)
            (cells_of cells.entry.items)) }
    {
        let place = self.next;
        self.next = sum(place, cells_length(cells.as_slice())?)?;
        self.places.insert(spelled, place)?;
        for cell in cells {
            self.cells.push(cell.moved(place)?)?;
        }
        Ok(place)
    }
}

/// How many bytes the fields of a node have.
#[tactic(auto, using(crate::proofs::TreeLemmas::length_before))]
fn fields_length(fields: &[Field]) -> Result<u64, NoMemory>
    ensures { IfOk result (λ length. length
        ≡ total_by item_length (items_of (tree_of fields.now))) }
{
    let mut length = 0;
    for field in fields {
        length = sum(length, field_length(field))?;
    }
    Ok(length)
}

/// How many bytes a field has.
fn field_length(field: &Field) -> u64
    ensures { result ≡ total_by item_length (items_of (before field.now end)) }
{
    match field {
        Field::U8(_) => 1,
        Field::U16(_) | Field::Off16(_) | Field::Null16 => 2,
        Field::U32(_) | Field::Off32(_) | Field::Far32(_) | Field::Null32 => 4,
        Field::Bytes(content) => content.len() as u64,
    }
}

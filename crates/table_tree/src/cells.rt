ghost use Rattle.std.specs.Prelude.{◌≡◌, ◌+◌, IfOk, IfSome};
ghost use Rattle.table_tree.specs.Layouts.{piece_length, length_of, cell_length, cells_length};
ghost use Rattle.table_tree.specs.Layouts.{moved as moved_cell, settled_all};
ghost use Rattle.table_tree.specs.Views.{piece_of, pieces_of, cell_of, cells_of};

use refusal_codes::NoMemory;
use std::alloc::Global;

/// What is written in order: a number, bytes, or an offset.
#[derive(Clone, Copy)]
pub enum Piece<'a> {
    U8(u8),
    U16(u16),
    U32(u32),
    Bytes(&'a [u8]),
    Off16(u64),
    Off32(u64),
}

/// What a near part has in order: a piece; or a far offset, with where the node that has it begins
/// in the near part, and with the layout of the node that it leads to.
#[derive(Drop)]
pub enum Cell<'a> {
    Settled(Piece<'a>),
    Far(u64, Vec<Piece<'a>>),
}

impl Piece<'_> {
    /// How many bytes are written.
    pub fn len(&self) -> u64
        ensures { result ≡ piece_length (piece_of self.now) }
    {
        match self {
            Piece::U8(_) => 1,
            Piece::U16(_) | Piece::Off16(_) => 2,
            Piece::U32(_) | Piece::Off32(_) => 4,
            Piece::Bytes(content) => content.len() as u64,
        }
    }
}

impl<'a> Cell<'a> {
    /// How many bytes are written.
    fn len(&self) -> u64
        ensures { result ≡ cell_length (cell_of self.now) }
    {
        match self {
            Cell::Settled(piece) => piece.len(),
            Cell::Far(_, _) => 4,
        }
    }

    /// The same cell in a near part in which so many bytes stand before this one.
    pub fn moved(self, place: u64) -> Result<Cell<'a>, NoMemory>
        ensures { IfOk result (λ cell. cell_of cell ≡ moved_cell place (cell_of self.entry)) }
    {
        match self {
            Cell::Settled(piece) => Ok(Cell::Settled(piece)),
            Cell::Far(start, layout) => Ok(Cell::Far(sum(place, start)?, layout)),
        }
    }
}

/// The sum of two lengths. A table whose length 64 bits do not hold has no room in memory.
pub fn sum(a: u64, b: u64) -> Result<u64, NoMemory>
    ensures { IfOk result (λ sum. sum ≡ a + b) }
{
    match a.checked_add(b) {
        Some(sum) => Ok(sum),
        None => Err(NoMemory),
    }
}

/// How many bytes pieces have.
pub fn length_of(pieces: &[Piece<'_>]) -> Result<u64, NoMemory>
    ensures { IfOk result (λ length. length ≡ length_of (pieces_of pieces.now)) }
{
    let mut length = 0;
    for piece in pieces {
        length = sum(length, piece.len())?;
    }
    Ok(length)
}

/// How many bytes cells have.
pub fn cells_length(cells: &[Cell<'_>]) -> Result<u64, NoMemory>
    ensures { IfOk result (λ length. length ≡ cells_length (cells_of cells.now)) }
{
    let mut length = 0;
    for cell in cells {
        length = sum(length, cell.len())?;
    }
    Ok(length)
}

/// The layout of a tree whose near part has these cells: its far parts stand behind it.
pub fn settle<'a>(alloc: Global, cells: &[Cell<'a>]) -> Result<Vec<Piece<'a>>, NoMemory>
    ensures { IfOk result (λ pieces. pieces_of pieces.items ≡ settled_all (cells_of cells.now)) }
{
    let mut next = cells_length(cells)?;
    let mut pieces = Vec::with_capacity(alloc, cells.len())?;
    let mut parts = Vec::new(alloc);
    for cell in cells {
        match cell {
            Cell::Settled(piece) => pieces.push(*piece)?,
            Cell::Far(start, layout) => {
                pieces.push(Piece::Off32(next.saturating_sub(*start)))?;
                next = sum(next, length_of(layout.as_slice())?)?;
                parts.extend_from_slice(layout.as_slice())?;
            }
        }
    }
    pieces.extend_from_slice(parts.as_slice())?;
    Ok(pieces)
}

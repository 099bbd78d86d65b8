ghost use Rattle.std.specs.Prelude.{◌≡◌, IfOk, length};
ghost use Rattle.font_reader.specs.Rooms.{IsRoomOf};

use refusal_codes::NoMemory;
use std::alloc::Global;

/// Where the points of a glyph are kept while one of them is found. One room serves for one glyph
/// after another, as long as it has as many points as each needs.
#[derive(Drop)]
pub struct Room {
    pub(crate) xs: Vec<i32>,
    pub(crate) ys: Vec<i32>,
}

impl Room {
    /// A room of so many points.
    ///
    /// # Errors
    ///
    /// `NoMemory` alone, where memory ran out.
    pub fn new(alloc: Global, points: usize) -> Result<Room, NoMemory>
        ensures { IfOk result (IsRoomOf points) }
    {
        let xs = zeros(alloc, points)?;
        let ys = zeros(alloc, points)?;
        Ok(Room { xs, ys })
    }
}

/// So many zeros.
fn zeros(alloc: Global, count: usize) -> Result<Vec<i32>, NoMemory>
    ensures { IfOk result (λ zeros. length zeros.items ≡ count) }
{
    let mut zeros = Vec::with_capacity(alloc, count)?;
    zeros.resize(count, 0)?;
    Ok(zeros)
}

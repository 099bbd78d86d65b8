ghost use Rattle.std.specs.Prelude.{◌≡◌, IfOk, map};

use crate::header::Master;
use crate::variation::Location;
use fixed_math::F2Dot14;
use plain_lists::Sequence;
use refusal_codes::NoMemory;
use std::alloc::Global;

/// Each master's location.
pub fn locations_of(alloc: Global, masters: &[Master]) -> Result<Sequence<Location>, NoMemory>
    ensures { IfOk result (λ places. places ≡ map (λ master. master.location) masters.now) }
{
    let mut places = Vec::with_capacity(alloc, masters.len())?;
    for master in masters {
        places.push(copy_of(alloc, master.location.as_slice())?)?;
    }
    Ok(Sequence::from_vec(places))
}

/// The same locations.
pub fn copied_locations(
    alloc: Global,
    locations: &[Location],
) -> Result<Sequence<Location>, NoMemory>
    ensures { IfOk result (λ copies. copies ≡ locations.now) }
{
    let mut copies = Vec::with_capacity(alloc, locations.len())?;
    for location in locations {
        copies.push(copy_of(alloc, location.as_slice())?)?;
    }
    Ok(Sequence::from_vec(copies))
}

/// A location with these coordinates.
fn copy_of(alloc: Global, coordinates: &[F2Dot14]) -> Result<Location, NoMemory>
    ensures { IfOk result (λ location. location ≡ coordinates.now) }
{
    Ok(Sequence::from_vec(Vec::from_slice(alloc, coordinates)?))
}

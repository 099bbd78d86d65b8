//! The regions of a font in their order, each found without a scan.

ghost use Rattle.std.specs.Prelude.{◌≡◌, ◌++◌, ◌∷◌, [], Some, slice_get};
ghost use Rattle.std.specs.Prelude.{IfOk, IfSome, IfNone, OnOk, false, true};
ghost use Rattle.std.specs.List.{All};
ghost use Rattle.metrics_tables.specs.Changes as spec;
ghost use Rattle.metrics_tables.specs.Changes.{is_there, with_region};
ghost use Rattle.metrics_tables.specs.RegionIndexes.{HasSides, IsIndexed, with_regions};

use fixed_math::F2Dot14;
use font_ir::Region;
use indexmap::IndexSet;
use refusal_codes::NoMemory;
use std::alloc::Global;

/// Regions in order, all different, each found by its numbers. After an error it is no longer of
/// use.
#[derive(Drop)]
pub struct RegionIndex {
    /// How many axes each region has.
    pub axes: usize,
    pub regions: Vec<Region>,
    /// The numbers of each region, in the same order.
    pub numbers: IndexSet<Vec<i16>>,
}

impl RegionIndex {
    /// The index without regions, in a font with so many axes. It takes no memory.
    pub fn new(alloc: Global, axes: usize) -> RegionIndex
        ensures index { IsIndexed result }
        ensures axes { result.axes ≡ axes }
        ensures none { result.regions.items ≡ [] }
    {
        RegionIndex {
            axes,
            regions: Vec::new(alloc),
            numbers: IndexSet::new(alloc),
        }
    }

    /// The place of a region, which is put behind the others if it isn't there.
    pub fn add(&mut self, alloc: Global, region: &Region) -> Result<usize, NoMemory>
        requires index { IsIndexed self.old }
        requires sides { HasSides self.old.axes region.now }
        ensures index { OnOk result (IsIndexed self.new) }
        ensures axes { OnOk result (self.new.axes ≡ self.old.axes) }
        ensures regions { OnOk result (self.new.regions.items
            ≡ with_region self.old.regions.items region.now) }
        ensures place { IfOk result (λ place. slice_get self.new.regions.items place
            ≡ Some region.now) }
    {
        let numbers = numbers_of(alloc, region)?;
        match self.place_of(numbers.as_slice(), region) {
            Some(place) => Ok(place),
            None => self.append(alloc, numbers, region),
        }
    }

    /// The place of a region that has these numbers, where it is there.
    fn place_of(&self, numbers: &[i16], region: &Region) -> Option<usize>
        requires index { IsIndexed self.now }
        requires numbers { numbers.now ≡ spec.numbers_of region.now }
        ensures there { IfSome result (λ place. is_there self.now.regions.items region.now
            ≡ true) }
        ensures place { IfSome result (λ place. slice_get self.now.regions.items place
            ≡ Some region.now) }
        ensures new { IfNone result (is_there self.now.regions.items region.now ≡ false) }
    {
        self.numbers.get_index_of(numbers)
    }

    /// Puts a region, which isn't there and has these numbers, behind the others. It answers its
    /// place.
    fn append(
        &mut self,
        alloc: Global,
        numbers: Vec<i16>,
        region: &Region,
    ) -> Result<usize, NoMemory>
        requires index { IsIndexed self.old }
        requires sides { HasSides self.old.axes region.now }
        requires numbers { numbers.items ≡ spec.numbers_of region.now }
        requires new { is_there self.old.regions.items region.now ≡ false }
        ensures index { OnOk result (IsIndexed self.new) }
        ensures axes { OnOk result (self.new.axes ≡ self.old.axes) }
        ensures regions { OnOk result (self.new.regions.items
            ≡ self.old.regions.items ++ region.now ∷ []) }
        ensures place { IfOk result (λ place. slice_get self.new.regions.items place
            ≡ Some region.now) }
    {
        let place = self.regions.len();
        let sides = region.sides.copy(alloc)?;
        self.numbers.insert(numbers)?;
        self.regions.push(Region { sides })?;
        Ok(place)
    }

    /// Adds regions in their order.
    pub fn add_all(&mut self, alloc: Global, regions: &[Region]) -> Result<(), NoMemory>
        requires index { IsIndexed self.old }
        requires sides { All (HasSides self.old.axes) regions.now }
        ensures index { OnOk result (IsIndexed self.new) }
        ensures axes { OnOk result (self.new.axes ≡ self.old.axes) }
        ensures regions { OnOk result (self.new.regions.items
            ≡ with_regions self.old.regions.items regions.now) }
    {
        for region in regions {
            self.add(alloc, region)?;
        }
        Ok(())
    }
}

/// The numbers of a region: start, peak and end on each axis.
fn numbers_of(alloc: Global, region: &Region) -> Result<Vec<i16>, NoMemory>
    ensures { IfOk result (λ numbers. numbers.items ≡ spec.numbers_of region.now) }
{
    let sides = region.sides.as_slice();
    let mut numbers = Vec::new(alloc);
    for side in sides {
        push_side(&mut numbers, side)?;
    }
    Ok(numbers)
}

/// Puts the numbers of a side behind the others.
fn push_side(numbers: &mut Vec<i16>, side: &(F2Dot14, F2Dot14, F2Dot14)) -> Result<(), NoMemory>
    ensures { OnOk result (numbers.new.items
        ≡ numbers.old.items ++ side.now.0.0 ∷ side.now.1.0 ∷ side.now.2.0 ∷ []) }
{
    numbers.push(side.0.0)?;
    numbers.push(side.1.0)?;
    numbers.push(side.2.0)?;
    Ok(())
}

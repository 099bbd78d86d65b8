ghost use Rattle.std.specs.Prelude.{◌≡◌, length, IfOk};
ghost use Rattle.std.specs.List.{All};
ghost use Rattle.region_store.specs.Stores.{IsStore};

use fixed_math::F2Dot14;
use plain_lists::Sequence;
use region_store::{Region, StoreBuilder, StoreError, plain_store, store_bytes};
use std::alloc::{AllocError, Global};
use std::test::Fail;
use table_tree::{Node, layout};

/// The one region of a font with one axis: from the default to the axis's end.
fn one_region(alloc: Global) -> Result<Vec<Region>, AllocError>
    ensures count { IfOk result (λ regions. length regions.items ≡ 1) }
    ensures sides { IfOk result (λ regions. All (λ region. length region.sides ≡ 1) regions.items) }
{
    let sides = vec![in alloc; (F2Dot14(0), F2Dot14(16384), F2Dot14(16384))]?;
    let mut regions = Vec::new(alloc);
    regions.push(Region {
        sides: Sequence::from_vec(sides),
    })?;
    Ok(regions)
}

/// Two rows of one delta each.
fn two_rows(alloc: Global, first: i16, second: i16) -> Result<Vec<Sequence<i16>>, AllocError>
    ensures count { IfOk result (λ rows. length rows.items ≡ 2) }
    ensures deltas { IfOk result (λ rows. All (λ row. length row ≡ 1) rows.items) }
{
    let mut rows = Vec::new(alloc);
    rows.push(Sequence::from_vec(vec![in alloc; first]?))?;
    rows.push(Sequence::from_vec(vec![in alloc; second]?))?;
    Ok(rows)
}

/// Whether a store has these bytes.
fn has_bytes(alloc: Global, store: &Node, expected: &[u8]) -> bool {
    match layout(alloc, store) {
        Ok(bytes) => bytes.as_slice() == expected,
        Err(_) => false,
    }
}

/// Whether the store of these rows as they are has these bytes.
fn is_plain_store(
    alloc: Global,
    regions: &[Region],
    rows: &[Sequence<i16>],
    expected: &[u8],
) -> bool
    requires { IsStore (record { axes = 1; regions = regions.now; rows = rows.now }) }
{
    match plain_store(alloc, 1, regions, rows) {
        Ok(store) => has_bytes(alloc, &store, expected),
        Err(_) => false,
    }
}

/// Whether the bytes of the store of these rows as they are are these.
fn are_store_bytes(
    alloc: Global,
    regions: &[Region],
    rows: &[Sequence<i16>],
    expected: &[u8],
) -> bool
    requires { IsStore (record { axes = 1; regions = regions.now; rows = rows.now }) }
{
    match store_bytes(alloc, 1, regions, rows) {
        Ok(bytes) => bytes.as_slice() == expected,
        Err(_) => false,
    }
}

/// The inner index of a row of one delta that is added, or the number of rows of a store that is
/// full.
fn added(builder: &mut StoreBuilder, alloc: Global, delta: i16) -> Option<Result<u16, u32>>
    requires { length builder.old.regions ≡ 1 }
    ensures { length builder.new.regions ≡ 1 }
{
    match builder.add(alloc, &[delta]) {
        Ok((0, place)) => Some(Ok(place)),
        Ok(_) => None,
        Err(StoreError::Full(rows)) => Some(Err(rows)),
        Err(StoreError::NoMemory) => None,
    }
}

/// Adds 65,535 different rows. The answer is whether each has the next place.
fn fills(builder: &mut StoreBuilder, alloc: Global) -> bool
    requires { length builder.old.regions ≡ 1 }
    ensures { length builder.new.regions ≡ 1 }
{
    for place in 0..65535u16 {
        if added(builder, alloc, (i32::from(place) - 32768) as i16) != Some(Ok(place)) {
            return false;
        }
    }
    true
}

/// The store of the rows 0 and 20.
const TWO_ROWS: &str = "00010000000c0001000000160001000100004000400000020001000100000000\
    0014";

/// The store of the row 10 twice.
const EQUAL_ROWS: &str = "00010000000c0001000000160001000100004000400000020001000100\
    00000a000a";

/// The store without rows.
const NO_ROWS: &str = "000100000008000000010001000040004000";

#[test]
fn a_plain_store_keeps_equal_rows(rt: HostRuntime) -> Result<(), Fail> {
    let regions = one_region(rt.alloc())?;
    let different = two_rows(rt.alloc(), 0, 20)?;
    let expected = hex::decode(rt.alloc(), TWO_ROWS)?;
    assert!(rt;
        is_plain_store(
            rt.alloc(),
            regions.as_slice(),
            different.as_slice(),
            expected.as_slice()
        )
    );
    assert!(rt;
        are_store_bytes(
            rt.alloc(),
            regions.as_slice(),
            different.as_slice(),
            expected.as_slice()
        )
    );
    let equal = two_rows(rt.alloc(), 10, 10)?;
    let expected = hex::decode(rt.alloc(), EQUAL_ROWS)?;
    assert!(rt;
        is_plain_store(
            rt.alloc(),
            regions.as_slice(),
            equal.as_slice(),
            expected.as_slice()
        )
    );
    Ok(())
}

#[test]
fn a_builder_keeps_each_row_once(rt: HostRuntime) -> Result<(), Fail> {
    let regions = one_region(rt.alloc())?;
    let mut builder = StoreBuilder::new(rt.alloc(), 1, regions.as_slice())?;
    let expected = hex::decode(rt.alloc(), NO_ROWS)?;
    let store = builder.finish(rt.alloc())?;
    assert!(rt; has_bytes(rt.alloc(), &store, expected.as_slice()));
    assert!(rt; added(&mut builder, rt.alloc(), 0) == Some(Ok(0)));
    assert!(rt; added(&mut builder, rt.alloc(), 20) == Some(Ok(1)));
    assert!(rt; added(&mut builder, rt.alloc(), 0) == Some(Ok(0)));
    let expected = hex::decode(rt.alloc(), TWO_ROWS)?;
    let store = builder.finish(rt.alloc())?;
    assert!(rt; has_bytes(rt.alloc(), &store, expected.as_slice()));
    Ok(())
}

#[test]
fn a_builder_is_full_with_65535_rows(rt: HostRuntime) -> Result<(), Fail> {
    let regions = one_region(rt.alloc())?;
    let mut builder = StoreBuilder::new(rt.alloc(), 1, regions.as_slice())?;
    assert!(rt; fills(&mut builder, rt.alloc()));
    assert!(rt; added(&mut builder, rt.alloc(), 32767) == Some(Err(65535)));
    assert!(rt; added(&mut builder, rt.alloc(), 32766) == Some(Ok(65534)));
    Ok(())
}

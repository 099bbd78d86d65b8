ghost use Rattle.std.specs.Prelude.{◌≡◌, length, All, IfOk};
ghost use Rattle.font_ir.specs.Coordinates.{HasAxis};
ghost use Rattle.axis_space.specs.Placing.{HasAxes};

use axis_space::{MapError, avar_map, normalise, user_of};
use fixed_math::{F2Dot14, Fixed};
use font_ir::{Master, Name};
use plain_lists::Sequence;
use std::alloc::{AllocError, Global};
use std::test::Fail;

/// A master on one axis.
fn master(alloc: Global, design: i32, user: i32) -> Result<Master, AllocError>
    ensures axis { IfOk result (HasAxis 0) }
    ensures axes { IfOk result (HasAxes 1) }
{
    Ok(Master {
        id: Name::new(alloc),
        design: Sequence::from_vec(vec![in alloc; Fixed(design)]?),
        user: Sequence::from_vec(vec![in alloc; Fixed(user)]?),
        location: Sequence::new(alloc),
        ascender: 0,
        descender: 0,
        cap: 0,
        xheight: 0,
        place: 0,
    })
}

/// Masters on one axis, by their design and user coordinates.
pub fn masters(alloc: Global, places: &[(i32, i32)]) -> Result<Vec<Master>, AllocError>
    ensures count { IfOk result (λ v. length v.items ≡ length places.now) }
    ensures axis { IfOk result (λ v. All (HasAxis 0) v.items) }
    ensures axes { IfOk result (λ v. All (HasAxes 1) v.items) }
{
    let mut masters = Vec::new(alloc);
    for place in places {
        masters.push(master(alloc, place.0, place.1)?)?;
    }
    Ok(masters)
}

#[test]
fn a_third_of_the_way_is_a_third(rt: HostRuntime) {
    let least = Fixed(400 * 65536);
    let greatest = Fixed(700 * 65536);
    assert_eq!(rt;
        normalise(Fixed(500 * 65536), least, least, greatest).0,
        5461
    );
    assert_eq!(rt; normalise(least, least, least, greatest).0, 0);
    assert_eq!(rt; normalise(greatest, least, least, greatest).0, 16384);
    assert_eq!(rt; normalise(least, least, greatest, greatest).0, -16384);
}

#[test]
fn two_near_numbers_can_lie_at_one_place(rt: HostRuntime) {
    let greatest = Fixed(1966080000);
    for v in [655360000, 655366554] {
        assert_eq!(rt; normalise(Fixed(v), Fixed(0), Fixed(0), greatest).0, 5461);
    }
}

#[test]
fn half_a_unit_goes_up(rt: HostRuntime) {
    let zero = Fixed(0);
    assert_eq!(rt; normalise(Fixed(1), zero, zero, Fixed(32768)).0, 1);
    assert_eq!(rt; normalise(Fixed(-1), Fixed(-32768), zero, zero).0, 0);
}

#[test]
fn each_pair_stands_once_in_order(rt: HostRuntime) -> Result<(), Fail> {
    let near = [
        (1966080000, 1966080000),
        (655366554, 655366554),
        (655360000, 655360000),
        (0, 0),
    ];
    let near = masters(rt.alloc(), &near)?;
    let pairs = avar_map(rt.alloc(), near.as_slice(), 3, 0)?;
    let expected = [-16384, 0, 5461, 16384];
    assert_eq!(rt; pairs.len(), expected.len());
    for (i, number) in expected.iter().enumerate() {
        assert_eq!(rt; pairs[i], (F2Dot14(*number), F2Dot14(*number)));
    }
    Ok(())
}

#[test]
fn two_masters_give_the_pairs_of_the_ends_and_the_default(rt: HostRuntime) -> Result<(), Fail> {
    let ends = [(400 * 65536, 400 * 65536), (700 * 65536, 700 * 65536)];
    let ends = masters(rt.alloc(), &ends)?;
    let pairs = avar_map(rt.alloc(), ends.as_slice(), 0, 0)?;
    let expected = [-16384, 0, 16384];
    assert_eq!(rt; pairs.len(), expected.len());
    for (i, number) in expected.iter().enumerate() {
        assert_eq!(rt; pairs[i], (F2Dot14(*number), F2Dot14(*number)));
    }
    Ok(())
}

#[test]
fn pairs_that_do_not_rise_are_refused(rt: HostRuntime) -> Result<(), Fail> {
    let one_user = [(400 * 65536, 100 * 65536), (700 * 65536, 100 * 65536)];
    let crossed = [(0, 0), (50, 100), (100, 50)];
    let cases = [(one_user.as_slice(), 0), (crossed.as_slice(), 16384)];
    for (places, number) in cases {
        let family = masters(rt.alloc(), places)?;
        assert!(rt; family.len() != 0);
        match avar_map(rt.alloc(), family.as_slice(), 0, 0) {
            Err(MapError::NotRising(x)) => assert_eq!(rt; x.0, number),
            _ => assert!(rt; false),
        }
    }
    Ok(())
}

#[test]
fn user_coordinates_are_read_between_neighbours(rt: HostRuntime) -> Result<(), Fail> {
    let bent = [(100, 900), (0, 100), (50, 400), (50, 500)];
    let bent = masters(rt.alloc(), &bent)?;
    let cases = [
        (-1, 100),
        (0, 100),
        (25, 250),
        (50, 400),
        (75, 650),
        (100, 900),
        (200, 900),
        (1, 106),
        (27, 262),
        (49, 394),
        (51, 410),
    ];
    for (design, user) in cases {
        assert_eq!(rt;
            user_of(bent.as_slice(), 0, Fixed(design)).0,
            user,
            "at {design}"
        );
    }
    let halves = [(0, 7), (2, 8)];
    let halves = masters(rt.alloc(), &halves)?;
    assert_eq!(rt; user_of(halves.as_slice(), 0, Fixed(1)).0, 8);
    Ok(())
}

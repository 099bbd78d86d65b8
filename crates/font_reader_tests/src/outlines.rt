ghost use Rattle.std.specs.Prelude.{◌<◌, length};

use crate::fonts::{FORMS, INTERMEDIATE, TRIANGLE, VARYING};
use fixed_math::F2Dot14;
use font_reader::{FaultKind, FontFault, FontView, Point, Room};
use std::alloc::Global;
use std::test::Fail;

/// A point of glyph 1, found in a room of its own.
fn point(
    alloc: Global,
    font: &FontView,
    index: u32,
    at: &[F2Dot14],
) -> Result<Result<Point, FontFault>, Fail> {
    match font.room_for(1) {
        Ok(points) => {
            let mut room = Room::new(alloc, points)?;
            Ok(font.point_at(1, index, at, &mut room))
        }
        Err(fault) => Ok(Err(fault)),
    }
}

/// Whether the points of glyph 1 of a font, from the first on, are at these places.
fn are_points(
    alloc: Global,
    bytes: &[u8],
    at: &[F2Dot14],
    places: &[(i64, i64)],
) -> Result<bool, Fail>
    requires { length places.now < 100 }
{
    let font = match FontView::of(bytes) {
        Ok(font) => font,
        Err(_) => return Ok(false),
    };
    for (i, place) in places.iter().enumerate() {
        let (x, y) = *place;
        if point(alloc, &font, i as u32, at)? != Ok(Point { x, y }) {
            return Ok(false);
        }
    }
    Ok(true)
}

/// The fault of a point of glyph 1.
fn fault_of(
    alloc: Global,
    bytes: &[u8],
    index: u32,
    at: &[F2Dot14],
) -> Result<Option<FontFault>, Fail> {
    match FontView::of(bytes) {
        Ok(font) => Ok(point(alloc, &font, index, at)?.err()),
        Err(fault) => Ok(Some(fault)),
    }
}

/// A fault of this kind at this place.
fn fault(kind: FaultKind, place: u64) -> Option<FontFault> {
    Some(FontFault { place, kind })
}

#[test]
fn a_font_of_one_master_has_its_stored_points(rt: HostRuntime) -> Result<(), Fail> {
    let font = hex::decode(rt.alloc(), TRIANGLE)?;
    let places = [(16384000, 45875200), (0, 0), (32768000, 0)];
    assert!(rt; are_points(rt.alloc(), font.as_slice(), &[], &places)?);
    let none = fault_of(rt.alloc(), font.as_slice(), 7, &[])?;
    assert!(rt; none == fault(FaultKind::NoPoint, 7));
    let many = fault_of(rt.alloc(), font.as_slice(), 0, &[F2Dot14(0)])?;
    assert!(rt; many == fault(FaultKind::CoordCount, 0));
    Ok(())
}

#[test]
fn points_move_between_two_masters(rt: HostRuntime) -> Result<(), Fail> {
    let font = hex::decode(rt.alloc(), VARYING)?;
    let cases = [
        (0, 16384000),
        (4096, 16547840),
        (8192, 16711680),
        (16384, 17039360),
        (-16384, 16384000),
    ];
    for case in cases {
        let (at, x) = case;
        assert!(rt;
            are_points(
                rt.alloc(),
                font.as_slice(),
                &[F2Dot14(at)],
                &[(x, 45875200)]
            )?
        );
    }
    let few = fault_of(rt.alloc(), font.as_slice(), 0, &[])?;
    assert!(rt; few == fault(FaultKind::CoordCount, 1));
    Ok(())
}

#[test]
fn points_move_through_a_layer_of_their_own(rt: HostRuntime) -> Result<(), Fail> {
    let font = hex::decode(rt.alloc(), INTERMEDIATE)?;
    for case in [(4096, 16646144), (8192, 16908288), (16384, 17039360)] {
        let (at, x) = case;
        assert!(rt;
            are_points(
                rt.alloc(),
                font.as_slice(),
                &[F2Dot14(at)],
                &[(x, 45875200)]
            )?
        );
    }
    Ok(())
}

#[test]
fn tuples_of_all_forms_move_their_points(rt: HostRuntime) -> Result<(), Fail> {
    let font = hex::decode(rt.alloc(), FORMS)?;
    let stored = [
        (0, 0),
        (6553600, 0),
        (6553600, 6553600),
        (0, 6553600),
        (19660800, 0),
        (26214400, 0),
        (22937600, 3276800),
        (0, 0),
        (39321600, 0),
    ];
    assert!(rt; are_points(rt.alloc(), font.as_slice(), &[F2Dot14(0)], &stored)?);
    let half = [
        (-12779520, 0),
        (7536640, 0),
        (7536640, 6553600),
        (327680, 6553600),
        (19005440, 0),
        (25559040, 0),
        (22282240, 3276800),
        (0, 0),
        (39321600, 0),
    ];
    assert!(rt; are_points(rt.alloc(), font.as_slice(), &[F2Dot14(8192)], &half)?);
    let between = [
        (-2692800, 0),
        (7153600, 0),
        (7153600, 6553600),
        (200000, 6553600),
    ];
    assert!(rt; are_points(rt.alloc(), font.as_slice(), &[F2Dot14(5000)], &between)?);
    Ok(())
}

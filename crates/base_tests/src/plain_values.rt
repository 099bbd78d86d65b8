use fixed_math::Fixed;
use font_ir::{Contour, DrawnPoint, GlyphOrder, StoredPoint, bounds_of, stored_point};
use plain_lists::Sequence;
use std::alloc::Global;
use std::test::Fail;

/// The order of one glyph, `A`, with this number in the source.
fn order_of(alloc: Global, number: Option<u32>) -> Result<GlyphOrder, Fail> {
    let mut order = GlyphOrder::new(alloc);
    if order.push(alloc, number, b"A")? {
        Ok(order)
    } else {
        Err("the name is there".into())
    }
}

#[test]
fn a_glyph_has_the_number_of_its_place(rt: HostRuntime) -> Result<(), Fail> {
    let order = order_of(rt.alloc(), None)?;
    assert!(rt; order.gid(b"A") == Some(0) && order.gid(b"B").is_none());
    assert!(rt; order.numbers() == [None].as_slice());
    Ok(())
}

#[test]
fn orders_with_other_numbers_are_not_the_same(rt: HostRuntime) -> Result<(), Fail> {
    let order = order_of(rt.alloc(), Some(3))?;
    assert!(rt; order == order_of(rt.alloc(), Some(3))?);
    assert!(rt; order != order_of(rt.alloc(), Some(4))?);
    Ok(())
}

#[test]
fn half_a_unit_is_stored_as_the_next_greater_number(rt: HostRuntime) -> Result<(), Fail> {
    let point = DrawnPoint {
        x: Fixed(32768),
        y: Fixed(-32768),
        on: true,
    };
    let stored = StoredPoint {
        x: 1,
        y: 0,
        on: true,
    };
    assert!(rt; stored_point(point) == stored);
    Ok(())
}

#[test]
fn the_bounds_are_of_all_points(rt: HostRuntime) -> Result<(), Fail> {
    let points = vec![in rt.alloc();
        DrawnPoint {
            x: Fixed(16384000),
            y: Fixed(-655360),
            on: true
        },
        DrawnPoint {
            x: Fixed(-65536),
            y: Fixed(45875200),
            on: false
        },
    ]?;
    let contours = vec![in rt.alloc();
        Contour {
            points: Sequence::from_vec(points)
        },
    ]?;
    assert!(rt; bounds_of(contours.as_slice()) == Some([-1, -10, 250, 700]));
    Ok(())
}

use delta_infer::omit;
use std::test::Fail;

#[test]
fn a_growing_rectangle_keeps_two_points(rt: HostRuntime) -> Result<(), Fail> {
    let contour = Vec::from_array(rt.alloc(), [(266, 223), (266, 140), (666, 140), (666, 223)])?;
    let contours = vec![in rt.alloc(); contour]?;
    let deltas = [(0, 17), (0, 0), (4, 0), (4, 17)];
    let marks = omit(rt.alloc(), contours.as_slice(), &deltas)?;
    assert_eq!(rt; marks.as_slice(), [true, false, true, false].as_slice());
    Ok(())
}

#[test]
fn a_delta_half_a_unit_from_the_mean_is_named(rt: HostRuntime) -> Result<(), Fail> {
    let contour = Vec::from_array(rt.alloc(), [(0, 0), (5, 0), (10, 0)])?;
    let contours = vec![in rt.alloc(); contour]?;
    let deltas = [(0, 0), (1, 0), (1, 0)];
    let marks = omit(rt.alloc(), contours.as_slice(), &deltas)?;
    assert_eq!(rt; marks.as_slice(), [false, false, true].as_slice());
    Ok(())
}

#[test]
fn a_contour_that_stays_is_left_out_whole_beside_one_that_moves(
    rt: HostRuntime,
) -> Result<(), Fail> {
    let still = Vec::from_array(rt.alloc(), [(0, 0), (500, 0), (250, 700)])?;
    let moving = Vec::from_array(rt.alloc(), [(5, 5)])?;
    let contours = vec![in rt.alloc(); still, moving]?;
    let deltas = [(0, 0), (0, 0), (0, 0), (3, 0)];
    let marks = omit(rt.alloc(), contours.as_slice(), &deltas)?;
    assert_eq!(rt; marks.as_slice(), [true, true, true, false].as_slice());
    Ok(())
}

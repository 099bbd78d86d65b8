ghost use Rattle.std.specs.Prelude.{◌≡◌, [], ◌∷◌, IfOk, length};

use fixed_math::{F2Dot14, Fixed};
use font_ir::{Location, Region};
use plain_lists::Sequence;
use std::alloc::{AllocError, Global};
use std::test::Fail;
use variation_model::{DeltaError, Model, scalar};

fn place(alloc: Global, x: i16, y: i16) -> Result<Location, AllocError>
    ensures { IfOk result (λ l. l ≡ record { 0 = x } ∷ record { 0 = y } ∷ []) }
{
    Ok(Sequence::from_vec(vec![in alloc; F2Dot14(x), F2Dot14(y)]?))
}

#[test]
fn each_delta_is_formed_from_the_rounded_ones_before(rt: HostRuntime) -> Result<(), Fail> {
    let alloc = rt.alloc();
    let places = vec![in alloc;
        place(alloc, 0, 0)?,
        place(alloc, 16384, 0)?,
        place(alloc, 8192, 16384)?,
    ]?;
    let model = Model::new(alloc, places.as_slice())?;
    let values = [Fixed(0), Fixed(196608), Fixed(655360)];
    let deltas = model.deltas(alloc, values.as_slice())?;
    assert_eq!(rt; deltas.as_slice(), [0, 3, 9].as_slice());
    let halves = [Fixed(0), Fixed(32768), Fixed(642253)];
    let from_rounded = model.deltas(alloc, halves.as_slice())?;
    assert_eq!(rt; from_rounded.as_slice(), [0, 1, 9].as_slice());
    assert_eq!(rt; model.order(), [0, 1, 2].as_slice());
    let third = [F2Dot14(8192), F2Dot14(16384)];
    assert_eq!(rt;
        model.value_at([0, 3, 9].as_slice(), third.as_slice()),
        688128
    );
    Ok(())
}

#[test]
fn a_scalar_falls_from_the_peak(rt: HostRuntime) -> Result<(), Fail> {
    let side = (F2Dot14(0), F2Dot14(5461), F2Dot14(16384));
    let region = Region {
        sides: Sequence::from_vec(vec![in rt.alloc(); side]?),
    };
    assert_eq!(rt; scalar(&region, [F2Dot14(4096)].as_slice()).0, 49155);
    assert_eq!(rt; scalar(&region, [F2Dot14(5461)].as_slice()).0, 65536);
    assert_eq!(rt; scalar(&region, [F2Dot14(16384)].as_slice()).0, 0);
    Ok(())
}

#[test]
fn the_scalars_of_the_axes_are_multiplied_in_order(rt: HostRuntime) -> Result<(), Fail> {
    let zero = F2Dot14(0);
    let one = F2Dot14(16384);
    let sides = vec![in rt.alloc();
        (zero, one, one),
        (zero, F2Dot14(5461), one),
        (zero, F2Dot14(3), one),
    ]?;
    let region = Region {
        sides: Sequence::from_vec(sides),
    };
    let at = [F2Dot14(4936), F2Dot14(12781), F2Dot14(509)];
    assert_eq!(rt; scalar(&region, at.as_slice()).0, 6312);
    Ok(())
}

fn on_one_axis(alloc: Global, x: i16) -> Result<Location, AllocError>
    ensures { IfOk result (λ l. l ≡ record { 0 = x } ∷ []) }
{
    Ok(Sequence::from_vec(vec![in alloc; F2Dot14(x)]?))
}

/// Start, peak and end on each axis of the regions, one region after the other.
fn told(alloc: Global, regions: &[Region]) -> Result<Vec<(i16, i16, i16)>, AllocError> {
    let mut told = Vec::new(alloc);
    for region in regions {
        for side in region.sides.as_slice() {
            told.push((side.0.0, side.1.0, side.2.0))?;
        }
    }
    Ok(told)
}

#[test]
fn regions_reach_to_their_neighbours(rt: HostRuntime) -> Result<(), Fail> {
    let alloc = rt.alloc();
    let places = vec![in alloc;
        on_one_axis(alloc, 16384)?,
        on_one_axis(alloc, 0)?,
        on_one_axis(alloc, 5461)?,
    ]?;
    let model = Model::new(alloc, places.as_slice())?;
    assert_eq!(rt; model.order(), [1, 2, 0].as_slice());
    let sides = told(alloc, model.supports())?;
    assert_eq!(rt;
        sides.as_slice(),
        [(0, 0, 0), (0, 5461, 16384), (5461, 16384, 16384)].as_slice()
    );
    Ok(())
}

#[test]
fn regions_below_zero_end_at_their_neighbours(rt: HostRuntime) -> Result<(), Fail> {
    let alloc = rt.alloc();
    let places = vec![in alloc;
        on_one_axis(alloc, 0)?,
        on_one_axis(alloc, -5461)?,
        on_one_axis(alloc, -16384)?,
    ]?;
    let model = Model::new(alloc, places.as_slice())?;
    assert_eq!(rt; model.order(), [0, 1, 2].as_slice());
    let sides = told(alloc, model.supports())?;
    assert_eq!(rt;
        sides.as_slice(),
        [(0, 0, 0), (-16384, -5461, 0), (-16384, -16384, -5461)].as_slice()
    );
    Ok(())
}

#[test]
fn a_delta_can_be_twice_as_far_as_a_value(rt: HostRuntime) -> Result<(), Fail> {
    let alloc = rt.alloc();
    let places = vec![in alloc; on_one_axis(alloc, 0)?, on_one_axis(alloc, 16384)?]?;
    let model = Model::new(alloc, places.as_slice())?;
    let values = [Fixed(16383 * 65536), Fixed(-16383 * 65536)];
    let deltas = model.deltas(alloc, values.as_slice())?;
    assert_eq!(rt; deltas.as_slice(), [16383, -32766].as_slice());
    Ok(())
}

/// The first delta that is too large, with its number.
fn too_large(alloc: Global, model: &Model, values: &[Fixed]) -> Option<(u32, i64)>
    requires { length values.now ≡ length model.now }
{
    match model.deltas(alloc, values) {
        Err(DeltaError::TooLarge { at, value }) => Some((at, value)),
        _ => None,
    }
}

#[test]
fn the_first_delta_outside_is_told(rt: HostRuntime) -> Result<(), Fail> {
    let alloc = rt.alloc();
    let places = vec![in alloc;
        place(alloc, 0, 0)?,
        place(alloc, 16384, 0)?,
        place(alloc, 0, 16384)?,
        place(alloc, 16384, 16384)?,
    ]?;
    let model = Model::new(alloc, places.as_slice())?;
    let far = Fixed(16383 * 65536);
    let least = [Fixed(0), far, far, Fixed(-2 * 65536)];
    let deltas = model.deltas(alloc, least.as_slice())?;
    assert_eq!(rt; deltas.as_slice(), [0, 16383, 16383, -32768].as_slice());
    let below = [Fixed(0), far, far, Fixed(-3 * 65536)];
    assert_eq!(rt;
        too_large(alloc, &model, below.as_slice()),
        Some((3, -32769))
    );
    let near = Fixed(-16383 * 65536);
    let greatest = [Fixed(0), near, near, Fixed(65536)];
    let deltas = model.deltas(alloc, greatest.as_slice())?;
    assert_eq!(rt; deltas.as_slice(), [0, -16383, -16383, 32767].as_slice());
    let above = [Fixed(0), near, near, Fixed(2 * 65536)];
    assert_eq!(rt;
        too_large(alloc, &model, above.as_slice()),
        Some((3, 32768))
    );
    Ok(())
}

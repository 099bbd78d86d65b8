use fixed_math::{Fixed, mul, ratio, round_half_up};

#[test]
fn products_are_rounded_to_the_nearest(rt: HostRuntime) {
    // one half times one half, and the least number above 0 times one half: a tie, which goes up
    let products = [
        mul(Fixed(32768), Fixed(32768)).0,
        mul(Fixed(1), Fixed(32768)).0,
        mul(Fixed(-1), Fixed(32768)).0,
        mul(Fixed(-98304), Fixed(65536)).0,
    ];
    assert!(rt; products == [16384, 1, 0, -98304]);
}

#[test]
fn ratios_are_rounded_down(rt: HostRuntime) {
    let ratios = [ratio(4096, 5461).0, ratio(0, 7).0, ratio(7, 7).0];
    assert!(rt; ratios == [49155, 0, 65536]);
}

#[test]
fn halves_are_rounded_up(rt: HostRuntime) {
    let rounded = [
        round_half_up(32768),
        round_half_up(32767),
        round_half_up(-32768),
        round_half_up(-32769),
    ];
    assert!(rt; rounded == [1, 0, 0, -1]);
}

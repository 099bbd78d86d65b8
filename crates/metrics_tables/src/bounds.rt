ghost use Rattle.std.specs.Prelude.{◌≡◌, ◌<◌, pos, ◌-ℤ◌, length, Option};
ghost use Rattle.font_ir.specs.Extremes.{least as least_of, greatest as greatest_of};
ghost use Rattle.metrics_tables.specs.Comparisons.{lesser_of, greater_of};
ghost use Rattle.metrics_tables.specs.Tables.{side, boxes_of, right_bearings, cut as cut_of};

/// The lesser of a number, where there is one, and another.
fn lesser(so_far: Option<i16>, number: i16) -> i16
    ensures { result ≡ lesser_of so_far number }
{
    match so_far {
        None => number,
        Some(other) => other.min(number),
    }
}

/// The greater of a number, where there is one, and another.
fn greater(so_far: Option<i16>, number: i16) -> i16
    ensures { result ≡ greater_of so_far number }
{
    match so_far {
        None => number,
        Some(other) => other.max(number),
    }
}

/// The lesser of a bearing, where there is one, and another.
fn lesser_bearing(so_far: Option<i32>, bearing: i32) -> i32
    ensures { result ≡ lesser_of so_far bearing }
{
    match so_far {
        None => bearing,
        Some(other) => other.min(bearing),
    }
}

/// The least of one side of the glyphs' bounds, 0 where no glyph has a point.
pub fn least(bounds: &[Option<[i16; 4]>], k: usize) -> i16
    requires { k < 4 }
    ensures { result ≡ least_of (side k (boxes_of bounds.now)) }
{
    let mut so_far = None;
    for sides in bounds {
        if let Some(sides) = sides {
            so_far = Some(lesser(so_far, sides[k]));
        }
    }
    so_far.unwrap_or(0)
}

/// The greatest of one side of the glyphs' bounds, 0 where no glyph has a point.
pub fn greatest(bounds: &[Option<[i16; 4]>], k: usize) -> i16
    requires { k < 4 }
    ensures { result ≡ greatest_of (side k (boxes_of bounds.now)) }
{
    let mut so_far = None;
    for sides in bounds {
        if let Some(sides) = sides {
            so_far = Some(greater(so_far, sides[k]));
        }
    }
    so_far.unwrap_or(0)
}

/// A right side bearing: an advance less xMax.
fn right_bearing(advance: u16, x_max: i16) -> i32
    ensures { result ≡ pos advance -ℤ x_max }
{
    i32::from(advance) - i32::from(x_max)
}

/// The least right side bearing, an advance less xMax, of the glyphs that have a point; 0 where
/// none has.
pub fn least_right_bearing(advances: &[u16], bounds: &[Option<[i16; 4]>]) -> i32
    requires { length bounds.now ≡ length advances.now }
    ensures { result ≡ least_of (right_bearings advances.now bounds.now) }
{
    let mut so_far = None;
    for (gid, advance) in advances.iter().enumerate() {
        if let Some(sides) = bounds[gid] {
            so_far = Some(lesser_bearing(so_far, right_bearing(*advance, sides[2])));
        }
    }
    so_far.unwrap_or(0)
}

/// The nearest number that an `i16` holds.
pub fn cut(number: i32) -> i16
    ensures { result ≡ cut_of number }
{
    if number < -32768 {
        i16::MIN
    } else if number > 32767 {
        i16::MAX
    } else {
        number as i16
    }
}

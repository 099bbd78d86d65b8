use crate::fonts::{LARGE, changed};
use fixed_math::F2Dot14;
use font_reader::{FontView, Metric, Point, Room};
use std::alloc::Global;
use std::test::Fail;

/// A place of the design space with two axes, the index of a point, and where it is.
type Row = (i16, i16, u32, i64, i64);

/// Points of glyph 1 as they are stored: of the flag with 255 repeats the first ones and the last,
/// a point by words, one of each form of flags, and phantom points.
const STORED: [Row; 18] = [
    (0, 0, 0, 196608, 0),
    (0, 0, 63, 12582912, 0),
    (0, 0, 64, 12779520, 0),
    (0, 0, 100, 19857408, 0),
    (0, 0, 127, 25165824, 0),
    (0, 0, 128, 25362432, 0),
    (0, 0, 200, 39518208, 0),
    (0, 0, 255, 50331648, 0),
    (0, 0, 256, 4456448, 42598400),
    (0, 0, 257, 20840448, 3276800),
    (0, 0, 258, 14286848, 3276800),
    (0, 0, 259, 14286848, 22937600),
    (0, 0, 260, -5373952, 36044800),
    (0, 0, 261, -5373952, 32768000),
    (0, 0, 262, -5832704, 16056320),
    (0, 0, 263, 0, 0),
    (0, 0, 264, 45875200, 0),
    (0, 0, 266, 0, 0),
];

/// The same at other places. At 16384 and 0 the first tuple alone counts, and whole; at 8192 and
/// -8192 that of two private points counts whole, and the first and the last two by half; at -8192
/// and 0 that of one point, by half; at 0 and -16384 the last two, and at 0 and 16384 that of all
/// points.
const MOVED: [Row; 58] = [
    (16384, 0, 0, 19857408, 0),
    (16384, 0, 63, 11599872, 0),
    (16384, 0, 64, 12779520, -2097152),
    (16384, 0, 127, 25165824, 2031616),
    (16384, 0, 128, 25362432, 0),
    (16384, 0, 255, 50331648, 0),
    (16384, 0, 256, 20763043, 42598400),
    (16384, 0, 264, 45875200, 0),
    (8192, -8192, 256, 12609746, 42598400),
    (8192, -8192, 257, 14319616, 42401792),
    (8192, -8192, 258, 9819048, 42401792),
    (8192, -8192, 259, 9819048, -11337728),
    (8192, -8192, 260, 64704160, -4128768),
    (8192, -8192, 261, 64114336, -5439488),
    (8192, -8192, 262, 64159744, -15466496),
    (-8192, 0, 0, 360448, -294912),
    (-8192, 0, 200, 39682048, -294912),
    (-8192, 0, 256, 4620288, 42303488),
    (-8192, 0, 257, 20840448, 3276800),
    (0, -16384, 255, 50331648, 0),
    (0, -16384, 257, 21430272, 5898240),
    (0, -16384, 258, 14876672, 5898240),
    (0, -16384, 259, 14876672, 25559040),
    (0, -16384, 260, -4325376, 37355520),
    (0, -16384, 261, -5505024, 35389440),
    (0, -16384, 262, -5242880, 18677760),
    (0, 16384, 255, 50331648, 0),
    (0, 16384, 256, 4521984, 42598400),
    (0, 16384, 257, 20774912, 3276800),
    (0, 16384, 258, 14417920, 3276800),
    (0, 16384, 262, -5570560, 16056320),
    (0, 16384, 263, 0, 0),
    (0, 16384, 264, 48037888, 0),
    (0, 16384, 265, -327680, 0),
    (0, 16384, 266, 393216, 0),
    (5000, 7001, 0, 6196608, 0),
    (5000, 7001, 100, 19857408, 80000),
    (5000, 7001, 256, 9460830, 42598400),
    (5000, 7001, 257, 18252444, 23276800),
    (5000, 7001, 258, 13035927, 23276800),
    (5000, 7001, 259, 12923911, 2937600),
    (5000, 7001, 260, -2837655, 16044800),
    (5000, 7001, 261, -3005679, 12768000),
    (5000, 7001, 262, -3180688, -3943680),
    (5000, 7001, 264, 46799332, 0),
    (-3000, -12345, 200, 39578208, -108000),
    (-3000, -12345, 257, 21284868, 5252000),
    (-3000, -12345, 261, -5472712, 34743200),
    (-3000, -12345, 262, -5388284, 18031520),
    (6000, -9000, 64, 12779520, -768000),
    (6000, -9000, 127, 25165824, 744000),
    (6000, -9000, 256, 10428101, 42598400),
    (6000, -9000, 257, 16994088, 30831143),
    (6000, -9000, 258, 11944173, 30831143),
    (6000, -9000, 259, 11944173, -803137),
    (6000, -9000, 260, 25603790, 9387343),
    (6000, -9000, 261, 24955790, 7379723),
    (6000, -9000, 262, 24998296, -6531139),
];

/// Components of glyph 2, and the first two phantom points.
const COMPONENTS: [Row; 12] = [
    (0, 0, 0, -19660800, 1310720),
    (0, 0, 1, 2621440, -458752),
    (0, 0, 2, 0, 0),
    (0, 0, 3, 45875200, 0),
    (16384, 16384, 0, -19005440, 1245184),
    (16384, 16384, 1, 1310720, -327680),
    (16384, 16384, 2, 0, 0),
    (16384, 16384, 3, 48758784, 0),
    (5000, 7001, 0, -19575340, 1302174),
    (5000, 7001, 1, 2450520, -441660),
    (5000, 7001, 2, 0, 0),
    (5000, 7001, 3, 46251224, 0),
];

/// A place of the design space, and the advances of the four glyphs. The last one has no row.
const ADVANCES: [(i16, i16, [i64; 4]); 5] = [
    (0, 0, [32768000, 45875200, 45875200, 45875200]),
    (16384, 0, [32768000, 48037888, 37486592, 45875200]),
    (8192, -8192, [32768000, 46497792, 50003968, 45875200]),
    (5000, 7001, [32768000, 38134000, 50484224, 45875200]),
    (6000, -9000, [32768000, 46474987, 46290493, 45875200]),
];

/// A place of the design space, and cap height, ascender, descender and x-height.
const METRICS: [(i16, i16, [i64; 4]); 5] = [
    (0, 0, [43253760, 52428800, -13107200, 31457280]),
    (16384, 0, [43253760, 50790400, -13107200, 31457280]),
    (8192, -8192, [108789760, 51609600, -10485760, 31457280]),
    (5000, 7001, [43197752, 51928800, -11426960, 31457280]),
    (6000, -9000, [70712760, 51828800, -12008840, 31457280]),
];

/// A code, and the number of its glyph.
type Code = (u32, u16);

/// Codes by format 4: within the first segment and at its ends, before it and behind it, before,
/// in and behind the second one, in the last one, and above 65535.
const BY_SEGMENTS: [Code; 11] = [
    (64, 0),
    (65, 1),
    (66, 2),
    (67, 3),
    (68, 0),
    (944, 0),
    (945, 2),
    (946, 0),
    (65534, 0),
    (65535, 0),
    (65536, 0),
];

/// Codes by format 12: in each of three groups, and outside of them.
const BY_GROUPS: [Code; 10] = [
    (64, 0),
    (65, 2),
    (66, 3),
    (67, 0),
    (945, 0),
    (65535, 0),
    (65536, 1),
    (65537, 2),
    (65538, 0),
    (128512, 3),
];

/// Whether a point of a glyph is where a row says.
fn is_at(alloc: Global, font: &FontView, gid: u16, row: Row) -> Result<bool, Fail> {
    let (first, second, index, x, y) = row;
    let at = [F2Dot14(first), F2Dot14(second)];
    let mut room = Room::new(alloc, font.room_for(gid).unwrap_or(0))?;
    Ok(font.point_at(gid, index, &at, &mut room) == Ok(Point { x, y }))
}

/// Whether the points of a glyph of the large font are where the rows say.
fn are_at(alloc: Global, gid: u16, rows: &[Row]) -> Result<bool, Fail> {
    let bytes = hex::decode(alloc, LARGE)?;
    let font = match FontView::of(bytes.as_slice()) {
        Ok(font) => font,
        Err(_) => return Ok(false),
    };
    for row in rows {
        if !is_at(alloc, &font, gid, *row)? {
            return Ok(false);
        }
    }
    Ok(true)
}

/// Whether the codes of a font lead to these glyphs.
fn are_led(bytes: &[u8], codes: &[Code]) -> bool {
    let font = match FontView::of(bytes) {
        Ok(font) => font,
        Err(_) => return false,
    };
    for row in codes {
        let (code, gid) = *row;
        if font.code_of(code) != Ok(gid) {
            return false;
        }
    }
    true
}

/// Whether the glyphs have these advances.
fn are_advances(font: &FontView, at: &[F2Dot14], wanted: [i64; 4]) -> bool {
    font.advance_at(0, at) == Ok(wanted[0])
        && font.advance_at(1, at) == Ok(wanted[1])
        && font.advance_at(2, at) == Ok(wanted[2])
        && font.advance_at(3, at) == Ok(wanted[3])
}

/// Whether the font has these metrics.
fn are_metrics(font: &FontView, at: &[F2Dot14], wanted: [i64; 4]) -> bool {
    font.metric_at(Metric::CapHeight, at) == Ok(wanted[0])
        && font.metric_at(Metric::Ascender, at) == Ok(wanted[1])
        && font.metric_at(Metric::Descender, at) == Ok(wanted[2])
        && font.metric_at(Metric::XHeight, at) == Ok(wanted[3])
}

#[test]
fn repeats_and_all_flags_are_read(rt: HostRuntime) -> Result<(), Fail> {
    assert!(rt; are_at(rt.alloc(), 1, &STORED)?);
    Ok(())
}

#[test]
fn long_runs_and_tuples_of_two_axes_move_points(rt: HostRuntime) -> Result<(), Fail> {
    assert!(rt; are_at(rt.alloc(), 1, &MOVED)?);
    Ok(())
}

#[test]
fn components_move(rt: HostRuntime) -> Result<(), Fail> {
    assert!(rt; are_at(rt.alloc(), 2, &COMPONENTS)?);
    Ok(())
}

#[test]
fn rows_of_stores_count_by_their_regions(rt: HostRuntime) -> Result<(), Fail> {
    let bytes = hex::decode(rt.alloc(), LARGE)?;
    if let Ok(font) = FontView::of(bytes.as_slice()) {
        for row in ADVANCES {
            let (first, second, wanted) = row;
            assert!(rt; are_advances(&font, &[F2Dot14(first), F2Dot14(second)], wanted));
        }
        for row in METRICS {
            let (first, second, wanted) = row;
            assert!(rt; are_metrics(&font, &[F2Dot14(first), F2Dot14(second)], wanted));
        }
    } else {
        assert!(rt; false);
    }
    Ok(())
}

#[test]
fn segments_and_groups_lead_to_glyphs(rt: HostRuntime) -> Result<(), Fail> {
    let bytes = hex::decode(rt.alloc(), LARGE)?;
    assert!(rt; are_led(bytes.as_slice(), &BY_SEGMENTS));
    // The encoding of the last subtable, 9, becomes 10.
    let bytes = changed(rt.alloc(), LARGE, 571, 10)?;
    assert!(rt; are_led(bytes.as_slice(), &BY_GROUPS));
    Ok(())
}

#[test]
fn names_stand_in_any_order(rt: HostRuntime) -> Result<(), Fail> {
    let bytes = hex::decode(rt.alloc(), LARGE)?;
    if let Ok(font) = FontView::of(bytes.as_slice()) {
        assert!(rt; font.name_of(0) == Ok(b".notdef") && font.name_of(1) == Ok(b"longest"));
        assert!(rt; font.name_of(2) == Ok(b"alpha") && font.name_of(3) == Ok(b"b.c"));
    } else {
        assert!(rt; false);
    }
    Ok(())
}

#[test]
fn each_glyph_has_its_room(rt: HostRuntime) -> Result<(), Fail> {
    let bytes = hex::decode(rt.alloc(), LARGE)?;
    if let Ok(font) = FontView::of(bytes.as_slice()) {
        assert!(rt; font.room_for(0) == Ok(4) && font.room_for(1) == Ok(267));
        assert!(rt; font.room_for(2) == Ok(6) && font.room_for(3) == Ok(4));
    } else {
        assert!(rt; false);
    }
    Ok(())
}

use crate::fonts::{COMPOSITE, FORMS, TRIANGLE, changed};
use fixed_math::F2Dot14;
use font_reader::FaultKind::{
    BadFormat, CoordCount, NoPoint, NoTable, NotSfnt, OutOfTable, TooLarge,
};
use font_reader::{FaultKind, FontFault, FontView, Metric, Point, Room};
use std::alloc::Global;
use std::test::Fail;

/// One half, as a place of the design space.
const HALF: [F2Dot14; 1] = [F2Dot14(8192)];

/// A fault of this kind at this place.
fn fault(kind: FaultKind, place: u64) -> Option<FontFault> {
    Some(FontFault { place, kind })
}

/// A point of a glyph, found in a room of its own.
fn point_of(
    alloc: Global,
    bytes: &[u8],
    gid: u16,
    index: u32,
    at: &[F2Dot14],
) -> Result<Result<Point, FontFault>, Fail> {
    match FontView::of(bytes) {
        Ok(font) => {
            let mut room = Room::new(alloc, font.room_for(gid).unwrap_or(0))?;
            Ok(font.point_at(gid, index, at, &mut room))
        }
        Err(fault) => Ok(Err(fault)),
    }
}

#[test]
fn the_tables_of_a_font_are_looked_for_in_order(rt: HostRuntime) -> Result<(), Fail> {
    // The version, the count of entries, the first letters of six tags, and a table's length.
    let rows = [
        (1, 2, NotSfnt, 0),
        (5, 255, OutOfTable, 812),
        (124, 88, NoTable, 0),
        (188, 88, NoTable, 1),
        (140, 88, NoTable, 2),
        (156, 88, NoTable, 3),
        (172, 88, NoTable, 4),
        (92, 88, NoTable, 5),
        (72, 1, OutOfTable, 60),
    ];
    for row in rows {
        let (at, byte, kind, place) = row;
        let bytes = changed(rt.alloc(), FORMS, at, byte)?;
        assert!(rt; FontView::of(bytes.as_slice()).err() == fault(kind, place));
    }
    Ok(())
}

/// Changed bytes of the font of all forms: a point of glyph 1, and its fault at one half.
const POINT_FAULTS: [(usize, u8, u32, FaultKind, u64); 35] = [
    // fvar: another version, two axes, no such table
    (473, 2, 0, BadFormat, 472),
    (481, 2, 0, CoordCount, 2),
    (76, 88, 0, CoordCount, 0),
    // maxp: another version, one glyph
    (741, 2, 0, BadFormat, 740),
    (745, 1, 0, NoPoint, 1),
    // head: another version, short offsets
    (629, 2, 0, BadFormat, 628),
    (679, 0, 0, BadFormat, 678),
    // loca leads out of glyf
    (732, 1, 0, OutOfTable, 16777724),
    // glyf: contours below -1, too many of them, instructions without end, bit 7 of a flag
    (508, 255, 0, BadFormat, 508),
    (509, 255, 0, OutOfTable, 556),
    (522, 1, 0, OutOfTable, 780),
    (524, 137, 0, BadFormat, 524),
    // a point that isn't there comes before its flags
    (524, 137, 11, NoPoint, 11),
    // hhea and hmtx, for the advance alone
    (685, 2, 8, BadFormat, 684),
    (719, 0, 8, BadFormat, 718),
    (171, 0, 8, OutOfTable, 724),
    // gvar: another version, two axes, three glyphs, short offsets
    (557, 2, 0, BadFormat, 556),
    (561, 2, 0, BadFormat, 560),
    (569, 3, 0, BadFormat, 568),
    (571, 0, 0, BadFormat, 570),
    // its offsets lead out of the table
    (580, 1, 0, OutOfTable, 16777806),
    (592, 1, 0, OutOfTable, 864),
    // reserved bits of the count of tuples, of either tuple's number
    (590, 144, 0, BadFormat, 590),
    (590, 160, 0, BadFormat, 590),
    (590, 192, 0, BadFormat, 590),
    (596, 16, 0, BadFormat, 596),
    (600, 240, 0, BadFormat, 600),
    // a shared peak and a point that aren't there
    (597, 1, 0, BadFormat, 596),
    (612, 9, 0, BadFormat, 612),
    // runs of deltas that are both of zeros and of words
    (613, 194, 0, BadFormat, 613),
    (617, 194, 0, BadFormat, 617),
    (619, 192, 0, BadFormat, 619),
    (622, 201, 0, BadFormat, 622),
    (623, 202, 0, BadFormat, 623),
    // a run of bytes that isn't within the table
    (623, 63, 0, OutOfTable, 626),
];

#[test]
fn each_fault_of_a_point_is_at_its_field(rt: HostRuntime) -> Result<(), Fail> {
    for row in POINT_FAULTS {
        let (at, byte, index, kind, place) = row;
        let bytes = changed(rt.alloc(), FORMS, at, byte)?;
        let read = point_of(rt.alloc(), bytes.as_slice(), 1, index, &HALF)?;
        assert!(rt; read.err() == fault(kind, place));
    }
    Ok(())
}

#[test]
fn what_a_point_needs_not_is_not_read(rt: HostRuntime) -> Result<(), Fail> {
    // The metrics' number, for a point of the outline; a flag, for a phantom point; and the deltas
    // of the first tuple, for a phantom point that it doesn't name.
    let rows = [(719, 0, 0, -12779520), (524, 137, 7, 0), (613, 194, 7, 0)];
    for row in rows {
        let (at, byte, index, x) = row;
        let bytes = changed(rt.alloc(), FORMS, at, byte)?;
        let read = point_of(rt.alloc(), bytes.as_slice(), 1, index, &HALF)?;
        assert!(rt; read == Ok(Point { x, y: 0 }));
    }
    Ok(())
}

#[test]
fn each_fault_of_a_room_is_at_its_field(rt: HostRuntime) -> Result<(), Fail> {
    // The version of maxp, one glyph, the version of head, short offsets, a place outside of glyf,
    // contours below -1, and too many of them.
    let rows = [
        (741, 2, BadFormat, 740),
        (745, 1, NoPoint, 1),
        (629, 2, BadFormat, 628),
        (679, 0, BadFormat, 678),
        (732, 1, OutOfTable, 16777724),
        (508, 255, BadFormat, 508),
        (509, 255, OutOfTable, 556),
    ];
    for row in rows {
        let (at, byte, kind, place) = row;
        let bytes = changed(rt.alloc(), FORMS, at, byte)?;
        if let Ok(font) = FontView::of(bytes.as_slice()) {
            assert!(rt; font.room_for(1).err() == fault(kind, place));
        } else {
            assert!(rt; false);
        }
    }
    // A flag needs no room.
    let bytes = changed(rt.alloc(), FORMS, 524, 137)?;
    if let Ok(font) = FontView::of(bytes.as_slice()) {
        assert!(rt; font.room_for(1) == Ok(11) && font.room_for(0) == Ok(4));
    } else {
        assert!(rt; false);
    }
    Ok(())
}

#[test]
fn each_kind_of_fault_has_its_name(rt: HostRuntime) {
    let rows = [
        (NotSfnt, "NotSfnt"),
        (NoTable, "NoTable"),
        (OutOfTable, "OutOfTable"),
        (BadFormat, "BadFormat"),
        (NoPoint, "NoPoint"),
        (CoordCount, "CoordCount"),
        (TooLarge, "TooLarge"),
    ];
    for row in rows {
        let (kind, name) = row;
        assert!(rt; kind.name() == name);
    }
}

#[test]
fn components_have_their_faults(rt: HostRuntime) -> Result<(), Fail> {
    let font = hex::decode(rt.alloc(), COMPOSITE)?;
    for case in [(0, 6553600), (1, 0), (2, 39321600), (4, 0)] {
        let (index, x) = case;
        let read = point_of(rt.alloc(), font.as_slice(), 2, index, &[])?;
        assert!(rt; read == Ok(Point { x, y: 0 }));
    }
    let none = point_of(rt.alloc(), font.as_slice(), 2, 5, &[])?;
    assert!(rt; none.err() == fault(NoPoint, 5));
    // Other flags, one more component that isn't there, and contours below -1.
    let rows = [
        (351, 2, BadFormat, 350),
        (351, 11, BadFormat, 350),
        (351, 35, BadFormat, 358),
        (341, 254, BadFormat, 340),
    ];
    for row in rows {
        let (at, byte, kind, place) = row;
        let bytes = changed(rt.alloc(), COMPOSITE, at, byte)?;
        let read = point_of(rt.alloc(), bytes.as_slice(), 2, 0, &[])?;
        assert!(rt; read.err() == fault(kind, place));
    }
    Ok(())
}

#[test]
fn each_fault_of_an_advance_is_at_its_field(rt: HostRuntime) -> Result<(), Fail> {
    // hhea; HVAR: its version, its store, a mapping; the store: its format, its list of regions,
    // the list's axes; the data: their place, more words than regions, long words, a region that
    // isn't there.
    let rows = [
        (719, 0, BadFormat, 718),
        (221, 2, BadFormat, 220),
        (224, 1, OutOfTable, 16777456),
        (231, 1, BadFormat, 228),
        (241, 2, BadFormat, 240),
        (242, 1, OutOfTable, 16777468),
        (253, 2, BadFormat, 252),
        (248, 1, OutOfTable, 16777478),
        (265, 2, BadFormat, 264),
        (264, 128, BadFormat, 264),
        (269, 1, BadFormat, 268),
    ];
    for row in rows {
        let (at, byte, kind, place) = row;
        let bytes = changed(rt.alloc(), FORMS, at, byte)?;
        if let Ok(font) = FontView::of(bytes.as_slice()) {
            assert!(rt; font.advance_at(1, &HALF).err() == fault(kind, place));
            assert!(rt; font.advance_at(2, &HALF).err() == fault(NoPoint, 2));
            assert!(rt; font.advance_at(1, &[]).err() == fault(CoordCount, 1));
        } else {
            assert!(rt; false);
        }
    }
    Ok(())
}

/// What the font of all forms, or another one, reads of a code where one of its bytes is changed.
fn code_with(
    alloc: Global,
    font: &str,
    at: usize,
    byte: u8,
    code: u32,
) -> Result<Result<u16, FontFault>, Fail> {
    let bytes = changed(alloc, font, at, byte)?;
    match FontView::of(bytes.as_slice()) {
        Ok(font) => Ok(font.code_of(code)),
        Err(fault) => Ok(Err(fault)),
    }
}

#[test]
fn each_fault_of_a_code_is_at_its_field(rt: HostRuntime) -> Result<(), Fail> {
    // Format 12: the version of cmap, the subtable's place and format, one group more.
    let rows = [
        (421, 1, 65, BadFormat, 420),
        (428, 1, 65, OutOfTable, 16777648),
        (433, 4, 65, BadFormat, 432),
        (447, 3, 66, OutOfTable, 472),
    ];
    for row in rows {
        let (at, byte, code, kind, place) = row;
        assert!(rt; code_with(rt.alloc(), FORMS, at, byte, code)?.err() == fault(kind, place));
    }
    assert!(rt; code_with(rt.alloc(), FORMS, 447, 3, 65)? == Ok(1));
    // Format 4: its format, and offsets of glyphs in the segment that decides.
    let rows = [
        (281, 5, 65, BadFormat, 280),
        (309, 2, 65, BadFormat, 308),
        (309, 2, 64, BadFormat, 308),
        (311, 2, 66, BadFormat, 310),
    ];
    for row in rows {
        let (at, byte, code, kind, place) = row;
        assert!(rt; code_with(rt.alloc(), TRIANGLE, at, byte, code)?.err() == fault(kind, place));
    }
    assert!(rt; code_with(rt.alloc(), TRIANGLE, 309, 2, 66)? == Ok(0));
    assert!(rt; code_with(rt.alloc(), TRIANGLE, 311, 2, 65)? == Ok(1));
    // A font without cmap has no code.
    assert!(rt; code_with(rt.alloc(), TRIANGLE, 28, 88, 65)? == Ok(0));
    Ok(())
}

#[test]
fn each_fault_of_a_name_is_at_its_field(rt: HostRuntime) -> Result<(), Fail> {
    // The version of post, its count, a number below 258, the lengths of the first and the second
    // name, and a font without post.
    let rows = [
        (773, 3, BadFormat, 772),
        (805, 1, NoPoint, 1),
        (808, 0, BadFormat, 808),
        (810, 9, OutOfTable, 820),
        (813, 6, OutOfTable, 814),
        (204, 88, NoTable, 6),
        (745, 1, NoPoint, 1),
    ];
    for row in rows {
        let (at, byte, kind, place) = row;
        let bytes = changed(rt.alloc(), FORMS, at, byte)?;
        if let Ok(font) = FontView::of(bytes.as_slice()) {
            assert!(rt; font.name_of(1).err() == fault(kind, place));
        } else {
            assert!(rt; false);
        }
    }
    Ok(())
}

#[test]
fn each_fault_of_a_metric_is_at_its_field(rt: HostRuntime) -> Result<(), Fail> {
    // No OS/2, its version; MVAR: its version, the size of its records, the format of its store;
    // no axes; OS/2 cut off in the field, and a store behind the end of MVAR.
    let rows = [
        (44, 88, NoTable, 7),
        (325, 3, BadFormat, 324),
        (273, 2, BadFormat, 272),
        (279, 9, BadFormat, 278),
        (293, 2, BadFormat, 292),
        (76, 88, CoordCount, 0),
        (59, 87, OutOfTable, 410),
        (283, 255, OutOfTable, 527),
    ];
    for row in rows {
        let (at, byte, kind, place) = row;
        let bytes = changed(rt.alloc(), FORMS, at, byte)?;
        if let Ok(font) = FontView::of(bytes.as_slice()) {
            assert!(rt; font.metric_at(Metric::XHeight, &HALF).err() == fault(kind, place));
        } else {
            assert!(rt; false);
        }
    }
    // A metric without a record doesn't read the store.
    let bytes = changed(rt.alloc(), FORMS, 293, 2)?;
    if let Ok(font) = FontView::of(bytes.as_slice()) {
        assert!(rt; font.metric_at(Metric::Descender, &HALF) == Ok(-13107200));
    } else {
        assert!(rt; false);
    }
    Ok(())
}

use fixed_math::{F2Dot14, Fixed};
use font_ir::{Header, Master};
use glyphs_source::header;
use plist_reader::read;
use std::alloc::Global;
use std::test::Fail;

/// The header of two masters on one axis.
const TWO_MASTERS: &[u8] =
    b"{.formatVersion=3;axes=({name=Weight;tag=wght;});familyName=Tri;fontMaster=({axesValues=(400);\
id=m1;},{axesValues=(700);id=m2;});unitsPerEm=1000;}";

/// Three masters on one axis.
const THREE_MASTERS: &[u8] =
    b"{.formatVersion=3;familyName=T;unitsPerEm=1000;axes=({name=W;tag=wght;});fontMaster=({id=a;\
axesValues=(400);},{id=b;axesValues=(500);},{id=c;axesValues=(700);});}";

/// The same with the second as the default, and with an instance that is kept and one that isn't.
const SECOND_IS_DEFAULT: &[u8] =
    b"{.formatVersion=3;familyName=T;unitsPerEm=1000;axes=({name=W;tag=wght;});customParameters=({name=\"Variable Font Origin\";\
value=b;});fontMaster=({id=a;axesValues=(400);},{id=b;axesValues=(500);},{id=c;axesValues=(700);\
});instances=({name=Bold;axesValues=(550);},{name=Off;exports=0;});metrics=({type=ascender;\
});}";

/// Whether a master of one axis has this coordinate on both scales, and this location.
fn lies_at(master: &Master, coordinate: i32, location: i16) -> bool {
    master.design.as_slice() == [Fixed(coordinate)].as_slice()
        && master.user.as_slice() == [Fixed(coordinate)].as_slice()
        && master.location.as_slice() == [F2Dot14(location)].as_slice()
}

/// The locations of three masters on one axis.
fn locations(header: &Header) -> Option<(i16, i16, i16)> {
    match header.masters.as_slice() {
        [a, b, c] => Some((location(a)?, location(b)?, location(c)?)),
        _ => None,
    }
}

fn location(master: &Master) -> Option<i16> {
    match master.location.as_slice() {
        [only] => Some(only.0),
        _ => None,
    }
}

fn read_source(alloc: Global, source: &[u8]) -> Result<Header, Fail> {
    if source.len() > 1000 {
        return Err("a source that is too long".into());
    }
    let tree = read(alloc, source)?;
    Ok(header(alloc, &tree)?)
}

#[test]
fn masters_lie_on_their_axis_by_the_default_one(rt: HostRuntime) -> Result<(), Fail> {
    let two = read_source(rt.alloc(), TWO_MASTERS)?;
    match two.axes.as_slice() {
        [weight] => assert!(rt; weight.name.as_str() == "Weight" && weight.tag.0 == *b"wght"),
        _ => return Err("not one axis".into()),
    }
    match two.masters.as_slice() {
        [a, b] => {
            assert!(rt; lies_at(a, 26_214_400, 0) && lies_at(b, 45_875_200, 16_384));
            assert!(rt; a.id.as_str() == "m1" && b.id.as_str() == "m2");
        }
        _ => return Err("not two masters".into()),
    }
    let three = read_source(rt.alloc(), THREE_MASTERS)?;
    assert!(rt; three.origin == 0 && locations(&three) == Some((0, 5461, 16_384)));
    let second = read_source(rt.alloc(), SECOND_IS_DEFAULT)?;
    assert!(rt; second.origin == 1 && locations(&second) == Some((-16_384, 0, 16_384)));
    match second.instances.as_slice() {
        [bold] => {
            let design = [Fixed(36_044_800)];
            assert!(rt;
                bold.name.as_str() == "Bold" && bold.design.as_slice() == design.as_slice()
            );
        }
        _ => return Err("not one instance".into()),
    }
    Ok(())
}

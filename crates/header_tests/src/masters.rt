use fixed_math::Fixed;
use font_ir::{Axis, Master, Name, Tag};
use plist_reader::{Tree, read};
use refusal_codes::{Failure, FirstFailure, Rule};
use source_masters::{
    FontParameters, Metrics, duplicate_master, masters, masters_place, no_master, note_axis_counts,
    note_masters, origin, too_many_masters, unknown_origin,
};
use source_values::{NaturalOr, optional, required_natural};
use std::alloc::{AllocError, Global};
use std::test::Fail;

/// Two masters, of which the second is the default. The first has a user coordinate on its first
/// axis, twice, and no x-height; the font lists a second ascender, which doesn't count.
const TWO_MASTERS: &[u8] = b"{
customParameters=({name=\"Variable Font Origin\";value=m2;});
fontMaster=(
{axesValues=(400,0.5);customParameters=({name=\"Axis Location\";value=(
{Axis=Weight;Location=100;},{Axis=Weight;Location=300;});});id=m1;
metricValues=({pos=701;},{pos=702;});},
{axesValues=(700,-0.00000763);id=m2;metricValues=({pos=710;},{pos=7;},{pos=480;});}
);
metrics=({type=ascender;},{type=ascender;},{type=\"x-height\";});
unitsPerEm=1000;
}
";

fn axis(alloc: Global, name: &str) -> Result<Axis, AllocError> {
    Ok(Axis {
        name: Name::from_string(String::from_str(alloc, name)?),
        tag: Tag(*b"axis"),
    })
}

/// What is read of the masters of a tree, in a font with the axes Weight and Width.
fn read_masters(alloc: Global, tree: &Tree) -> Result<Vec<Master>, AllocError> {
    let units = NaturalOr {
        low: 16,
        high: 16384,
        missing: 16,
    };
    let mut first = FirstFailure::new();
    let units = required_natural(tree, tree.top, b"unitsPerEm", units, &mut first);
    let axes = vec![in alloc; axis(alloc, "Weight")?, axis(alloc, "Width")?]?;
    masters(alloc, tree, units, axes.as_slice())
}

/// Whether a master has this id and place, these coordinates, and these heights: its ascender,
/// descender, cap height and x-height.
fn is_master(
    master: &Master,
    id: &str,
    place: u64,
    design: &[Fixed],
    user: &[Fixed],
    heights: (i16, i16, i16, i16),
) -> bool {
    let own = (
        master.ascender,
        master.descender,
        master.cap,
        master.xheight,
    );
    master.id.as_str() == id
        && master.place == place
        && master.design.as_slice() == design
        && master.user.as_slice() == user
        && master.location.is_empty()
        && own == heights
}

#[test]
fn masters_have_coordinates_and_heights(rt: HostRuntime) -> Result<(), Fail> {
    let tree = read(rt.alloc(), TWO_MASTERS)?;
    let masters = read_masters(rt.alloc(), &tree)?;
    assert!(rt; masters.len() == 2);
    let design = [Fixed(26_214_400), Fixed(32_768)];
    let user = [Fixed(6_553_600), Fixed(32_768)];
    let heights = (701, -200, 0, 480);
    assert!(rt; is_master(&masters[0], "m1", 75, &design, &user, heights));
    let design = [Fixed(45_875_200), Fixed(-1)];
    assert!(rt;
        is_master(
            &masters[1],
            "m2",
            252,
            &design,
            &design,
            (710, -200, 0, 480)
        )
    );
    assert!(rt; masters_place(&tree) == 73);
    assert!(rt; default_of(&tree) == Some(1) && local(&tree).is_none());
    Ok(())
}

/// The position of the default master.
fn default_of(tree: &Tree) -> Option<u32> {
    match too_many_masters(tree) {
        Some(_failure) => None,
        None => origin(tree),
    }
}

/// The first local rule that fails.
fn local(tree: &Tree) -> Option<Failure> {
    let mut first = FirstFailure::new();
    optional(tree, tree.top, b"metrics", &Metrics, &mut first);
    optional(
        tree,
        tree.top,
        b"customParameters",
        &FontParameters,
        &mut first,
    );
    note_masters(tree, &mut first);
    first.get()
}

fn failure(rule: Rule, place: u64) -> Option<Failure> {
    Some(Failure { rule, place })
}

#[test]
fn local_rules_fail_at_their_values(rt: HostRuntime) -> Result<(), Fail> {
    for (source, expected) in [
        (b"{}".as_slice(), failure(Rule::MissingKey, 0)),
        (b"{fontMaster=(a);}", failure(Rule::WrongShape, 13)),
        (b"{fontMaster=({});}", failure(Rule::MissingKey, 13)),
        (b"{fontMaster=({id=m;name=();});}", None),
        (
            b"{fontMaster=({id=m;axesValues=(32767.1);});}",
            failure(Rule::OutOfRange, 31),
        ),
        (b"{fontMaster=({id=m;axesValues=(-32767);});}", None),
        (
            b"{fontMaster=({id=m;metricValues=({pos=1.5;});});metrics=({type=\"x-height\";});}",
            failure(Rule::NotWhole, 38),
        ),
        (
            b"{fontMaster=({id=m;metricValues=({pos=a;});});metrics=({type=descender;});}",
            failure(Rule::WrongShape, 38),
        ),
        (
            b"{fontMaster=({id=m;metricValues=({pos=-16384;});});\
                metrics=({type=\"cap height\";});}",
            failure(Rule::OutOfRange, 38),
        ),
        (
            b"{fontMaster=({id=m;metricValues=({pos=1.5;});});metrics=({type=bodyHeight;});}",
            None,
        ),
        (
            b"{fontMaster=({id=m;metricValues=({},{pos=1.5;});});\
                metrics=({type=ascender;},{type=ascender;});}",
            failure(Rule::NotWhole, 41),
        ),
        (
            b"{fontMaster=({id=m;});metrics=({type=();});}",
            failure(Rule::WrongShape, 37),
        ),
    ] {
        let tree = read(rt.alloc(), source)?;
        assert!(rt; local(&tree) == expected);
    }
    Ok(())
}

#[test]
fn parameters_fail_where_they_count(rt: HostRuntime) -> Result<(), Fail> {
    for (source, expected) in [
        (
            b"{fontMaster=({id=m;customParameters=({name=\"Axis Location\";\
                value=({Axis=W;Location=40000;});});});}"
                .as_slice(),
            failure(Rule::OutOfRange, 83),
        ),
        (
            b"{fontMaster=({id=m;customParameters=({name=\"Axis Location\";\
                value=({Axis=W;Location=40000;});disabled=1;});});}",
            None,
        ),
        (
            b"{fontMaster=({id=m;customParameters=({name=a;disabled=0.5;});});}",
            failure(Rule::NotWhole, 54),
        ),
        (
            b"{customParameters=({name=\"Variable Font Origin\";value=();});fontMaster=({id=m;});}",
            failure(Rule::WrongShape, 54),
        ),
        (
            b"{customParameters=({name=\"Variable Font Origin\";value=m;},\
                {name=\"Variable Font Origin\";value=();});fontMaster=({id=m;});}",
            None,
        ),
    ] {
        let tree = read(rt.alloc(), source)?;
        assert!(rt; local(&tree) == expected);
    }
    Ok(())
}

/// The first whole rule that fails, in a font with so many axes.
fn whole(tree: &Tree, axes: usize) -> Option<Failure> {
    let mut first = FirstFailure::new();
    note_axis_counts(tree, axes, &mut first);
    for failure in [
        too_many_masters(tree),
        no_master(tree),
        duplicate_master(tree),
        first.get(),
        unknown_origin(tree),
    ] {
        if failure.is_some() {
            return failure;
        }
    }
    None
}

#[test]
fn whole_rules_fail_at_their_places(rt: HostRuntime) -> Result<(), Fail> {
    for (source, axes, expected) in [
        (
            b"{fontMaster=();}".as_slice(),
            0,
            failure(Rule::NoMaster, 12),
        ),
        (
            b"{fontMaster=({id=m;},{id=m;});}",
            0,
            failure(Rule::DuplicateMaster, 21),
        ),
        (b"{fontMaster=({id=m;},{id=n;});}", 0, None),
        (
            b"{fontMaster=({id=m;},{id=n;axesValues=(1);});}",
            1,
            failure(Rule::AxisCount, 13),
        ),
        (
            b"{fontMaster=({id=m;},{id=n;axesValues=(1);});}",
            0,
            failure(Rule::AxisCount, 21),
        ),
        (
            b"{customParameters=({name=\"Variable Font Origin\";value=x;});fontMaster=({id=m;});}",
            0,
            failure(Rule::OriginUnknown, 54),
        ),
        (
            b"{fontMaster=({},{},{},{},{},{},{},{},{},{},{},{},{},{},{},{},{},{},{},{},{},{},\
                {},{},{},{},{},{},{},{},{},{},{});}",
            0,
            failure(Rule::TooManyMasters, 12),
        ),
        (
            b"{fontMaster=({},{},{},{},{},{},{},{},{},{},{},{},{},{},{},{},{},{},{},{},{},{},\
                {},{},{},{},{},{},{},{},{},{});}",
            0,
            failure(Rule::DuplicateMaster, 16),
        ),
    ] {
        let tree = read(rt.alloc(), source)?;
        assert!(rt; whole(&tree, axes) == expected);
    }
    Ok(())
}

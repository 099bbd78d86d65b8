use crate::source::told;
use std::alloc::{AllocError, Global};
use std::test::Fail;

const ONE_AXIS: &str = "axes=({name=W;tag=wght;});";

const NINE_AXES: &str =
    "axes=({name=W;tag=a0;},{name=W;tag=a1;},{name=W;tag=a2;},{name=W;tag=a3;},{name=W;tag=a4;},\
    {name=W;tag=a5;},{name=W;tag=a6;},{name=W;tag=a7;},{name=W;tag=a8;});";

/// 33 masters on no axis.
const MANY_MASTERS: &str =
    "{id=m0;},{id=m1;},{id=m2;},{id=m3;},{id=m4;},{id=m5;},{id=m6;},{id=m7;},{id=m8;},{id=m9;},\
    {id=m10;},{id=m11;},{id=m12;},{id=m13;},{id=m14;},{id=m15;},{id=m16;},{id=m17;},{id=m18;},\
    {id=m19;},{id=m20;},{id=m21;},{id=m22;},{id=m23;},{id=m24;},{id=m25;},{id=m26;},{id=m27;},\
    {id=m28;},{id=m29;},{id=m30;},{id=m31;},{id=m32;}";

/// Two masters with one coordinate on the user's scale, so that no map leads from there to their
/// design coordinates.
const NO_MAP: &str =
    "{id=a;axesValues=(400);customParameters=({name=\"Axis Location\";value=({Axis=W;\
    Location=100;});});},{id=b;axesValues=(700);customParameters=({name=\"Axis Location\";\
    value=({Axis=W;Location=100;});});}";

/// A default master that isn't there.
const NO_ORIGIN: &str = "customParameters=({name=\"Variable Font Origin\";value=x;});";

/// An instance without coordinates.
const BARE_INSTANCE: &str = "instances=({name=I;});";

/// A source with these axes, with masters in two parts, and with what follows them.
fn source_of(alloc: Global, parts: [&str; 4]) -> Result<String, AllocError> {
    let [axes, masters, more, rest] = parts;
    format!(in alloc;
        "{{.formatVersion=3;familyName=T;unitsPerEm=1000;{axes}\
        fontMaster=({masters}{more});{rest}}}"
    )
}

#[test]
fn each_local_rule_of_a_header_is_told_at_its_place(rt: HostRuntime) -> Result<(), Fail> {
    let rows = [
        (
            "{.formatVersion=2;familyName=T;unitsPerEm=1000;fontMaster=({id=a;});}",
            "S3 WrongVersion Header at 16",
        ),
        (
            "{.formatVersion=3.5;familyName=T;unitsPerEm=1000;fontMaster=({id=a;});}",
            "S3 WrongVersion Header at 16",
        ),
        (
            "{.formatVersion=3;familyName=T;unitsPerEm=1000.5;fontMaster=({id=a;});}",
            "S4 NotWhole Header at 42",
        ),
        (
            "{.formatVersion=3;familyName=T;unitsPerEm=1000;fontMaster=({id=a;});\
versionMajor=1.5;}",
            "S4 NotWhole Header at 81",
        ),
        (
            "{.formatVersion=3;familyName=T;unitsPerEm=1000;fontMaster=({id=a;});instances=(\
{name=I;exports=0.5;});}",
            "S4 NotWhole Header at 95",
        ),
        (
            "{.formatVersion=3;familyName=T;unitsPerEm=1000;fontMaster=({id=a;metricValues=(\
{pos=1.5;});});metrics=({type=ascender;});}",
            "S4 NotWhole Header at 84",
        ),
        (
            "{.formatVersion=3;familyName=T;unitsPerEm=15;fontMaster=({id=a;});}",
            "S5 OutOfRange Header at 42",
        ),
        (
            "{.formatVersion=3;familyName=T;unitsPerEm=16385;fontMaster=({id=a;});}",
            "S5 OutOfRange Header at 42",
        ),
        (
            "{.formatVersion=3;familyName=\"\";unitsPerEm=1000;fontMaster=({id=a;});}",
            "S5 OutOfRange Header at 29",
        ),
        (
            "{.formatVersion=3;familyName=T;unitsPerEm=1000;fontMaster=({id=a;});\
versionMinor=1000;}",
            "S5 OutOfRange Header at 81",
        ),
        (
            "{.formatVersion=3;familyName=T;unitsPerEm=1000;fontMaster=({id=a;axesValues=(\
32767.5);});}",
            "S5 OutOfRange Header at 77",
        ),
        (
            "{.formatVersion=3;familyName=T;unitsPerEm=1000;fontMaster=({id=a;metricValues=(\
{pos=16384;});});metrics=({type=\"x-height\";});}",
            "S5 OutOfRange Header at 84",
        ),
        (
            "{.formatVersion=3;familyName=T;unitsPerEm=1000;fontMaster=({id=a;});axes=({name=W;\
tag=abcde;});}",
            "S14 BadTag Header at 86",
        ),
        (
            "{.formatVersion=3;familyName=T;unitsPerEm=1000;fontMaster=({id=a;});axes=({name=W;\
tag=\"a b\";});}",
            "S14 BadTag Header at 86",
        ),
        (
            "{.formatVersion=3;familyName=T;unitsPerEm=1000;fontMaster=({id=a;});axes=({name=W;\
tag=wght;},{name=X;tag=wght;});}",
            "S14 BadTag Header at 105",
        ),
        (
            "{.formatVersion=3;familyName=T;unitsPerEm=1000;fontMaster=({id=a;});axes=({name=W;\
tag=wd;},{name=X;tag=\"wd\";});}",
            "S14 BadTag Header at 103",
        ),
        (
            "{.formatVersion=3;familyName=T;unitsPerEm=1000;fontMaster=({id=a;});axes=({name=W;\
});}",
            "S2 MissingKey Header at 74",
        ),
        (
            "{.formatVersion=3;familyName=T;unitsPerEm=1000;fontMaster=({name=a;});}",
            "S2 MissingKey Header at 59",
        ),
        (
            "{.formatVersion=3;familyName=T;unitsPerEm=1000;fontMaster=({id=a;});metrics=(\
{type=();});}",
            "S1 WrongShape Header at 83",
        ),
        (
            "{.formatVersion=3;familyName=T;unitsPerEm=1000;fontMaster=({id=a;});features=(\
{code=x;});}",
            "S1 WrongShape Header at 77",
        ),
        (
            "{.formatVersion=2;familyName=T;unitsPerEm=1000;fontMaster=({id=a;});versionMinor=1000;\
axes=({tag=abcde;});}",
            "S3 WrongVersion Header at 16",
        ),
    ];
    for (source, expected) in rows {
        assert!(rt; told(rt.alloc(), source)?.as_str() == expected);
    }
    Ok(())
}

#[test]
fn each_rule_of_a_whole_header_is_told_at_its_place(rt: HostRuntime) -> Result<(), Fail> {
    let rows = [
        (
            "{.formatVersion=3;familyName=T;unitsPerEm=1000;axes=({name=W;tag=a0;},{name=W;tag=a1;\
},{name=W;tag=a2;},{name=W;tag=a3;},{name=W;tag=a4;},{name=W;tag=a5;},{name=W;tag=a6;\
},{name=W;tag=a7;},{name=W;tag=a8;});fontMaster=({id=a;});}",
            "S6 TooManyAxes Header at 52",
        ),
        (
            "{.formatVersion=3;familyName=T;unitsPerEm=1000;fontMaster=({id=m0;},{id=m1;},{id=m2;\
},{id=m3;},{id=m4;},{id=m5;},{id=m6;},{id=m7;},{id=m8;},{id=m9;},{id=m10;},{id=m11;\
},{id=m12;},{id=m13;},{id=m14;},{id=m15;},{id=m16;},{id=m17;},{id=m18;},{id=m19;\
},{id=m20;},{id=m21;},{id=m22;},{id=m23;},{id=m24;},{id=m25;},{id=m26;},{id=m27;\
},{id=m28;},{id=m29;},{id=m30;},{id=m31;},{id=m32;});}",
            "S7 TooManyMasters Header at 58",
        ),
        (
            "{.formatVersion=3;familyName=T;unitsPerEm=1000;fontMaster=();}",
            "S8 NoMaster Header at 58",
        ),
        (
            "{.formatVersion=3;familyName=T;unitsPerEm=1000;fontMaster=({id=a;},{id=a;});}",
            "S16 DuplicateMaster Header at 67",
        ),
        (
            "{.formatVersion=3;familyName=T;unitsPerEm=1000;axes=({name=W;tag=wght;});fontMaster=({id=a;\
axesValues=(1);},{id=b;});}",
            "S9 AxisCount Header at 108",
        ),
        (
            "{.formatVersion=3;familyName=T;unitsPerEm=1000;axes=({name=W;tag=wght;});instances=({name=I;\
});fontMaster=({id=a;});}",
            "S9 AxisCount Header at 84",
        ),
        (
            "{.formatVersion=3;familyName=T;unitsPerEm=1000;fontMaster=({id=a;});customParameters=({name=\"Variable Font Origin\";\
value=x;});}",
            "S13 OriginUnknown Header at 121",
        ),
        (
            "{.formatVersion=3;familyName=T;unitsPerEm=1000;fontMaster=({id=a;},{id=b;});}",
            "S10 SameLocation Header at 67",
        ),
        (
            "{.formatVersion=3;familyName=T;unitsPerEm=1000;axes=({name=W;tag=wght;});fontMaster=({id=a;\
axesValues=(0);},{id=b;axesValues=(10000);},{id=c;axesValues=(10000.1);},{id=d;axesValues=(30000);\
});}",
            "S10 SameLocation Header at 135",
        ),
        (
            "{.formatVersion=3;familyName=T;unitsPerEm=1000;axes=({name=W;tag=wght;});fontMaster=({id=a;\
axesValues=(400);customParameters=({name=\"Axis Location\";value=({Axis=W;Location=100;\
});});},{id=b;axesValues=(700);customParameters=({name=\"Axis Location\";value=({Axis=W;\
Location=100;});});});}",
            "S11 AxisMapNotRising Header at 53",
        ),
        (
            "{.formatVersion=3;familyName=T;unitsPerEm=1000;features=({code=x;});fontMaster=({id=a;\
});}",
            "S1 WrongShape Header at 56",
        ),
        (
            "{.formatVersion=3;familyName=T;unitsPerEm=1000;fontMaster=({id=a;},{id=a;});customParameters=({name=\"Variable Font Origin\";\
value=x;});}",
            "S16 DuplicateMaster Header at 67",
        ),
    ];
    for (source, expected) in rows {
        assert!(rt; told(rt.alloc(), source)?.as_str() == expected);
    }
    Ok(())
}

#[test]
fn of_two_whole_rules_the_first_is_told(rt: HostRuntime) -> Result<(), Fail> {
    let rows = [
        (
            [NINE_AXES, MANY_MASTERS, "", ""],
            "S6 TooManyAxes Header at 52",
        ),
        ([NINE_AXES, "", "", ""], "S6 TooManyAxes Header at 52"),
        (
            [NINE_AXES, "{id=a;},{id=a;}", "", ""],
            "S6 TooManyAxes Header at 52",
        ),
        (
            [NINE_AXES, "{id=a;}", "", ""],
            "S6 TooManyAxes Header at 52",
        ),
        (
            [
                NINE_AXES,
                "{id=a;axesValues=(1,2,3,4,5,6,7,8,9);}",
                "",
                NO_ORIGIN,
            ],
            "S6 TooManyAxes Header at 52",
        ),
        (
            [
                NINE_AXES,
                "{id=a;axesValues=(1,2,3,4,5,6,7,8,9);},{id=b;axesValues=(1,2,3,4,5,6,7,8,9);}",
                "",
                "",
            ],
            "S6 TooManyAxes Header at 52",
        ),
        (
            ["", MANY_MASTERS, ",{id=m1;}", ""],
            "S7 TooManyMasters Header at 58",
        ),
        (
            [ONE_AXIS, MANY_MASTERS, "", ""],
            "S7 TooManyMasters Header at 84",
        ),
        (
            ["", MANY_MASTERS, "", NO_ORIGIN],
            "S7 TooManyMasters Header at 58",
        ),
        (
            [ONE_AXIS, "", "", BARE_INSTANCE],
            "S8 NoMaster Header at 84",
        ),
        (["", "", "", NO_ORIGIN], "S8 NoMaster Header at 58"),
        (
            [ONE_AXIS, "{id=a;},{id=a;}", "", ""],
            "S16 DuplicateMaster Header at 93",
        ),
        (
            ["", "{id=a;},{id=a;}", "", NO_ORIGIN],
            "S16 DuplicateMaster Header at 67",
        ),
        (
            [ONE_AXIS, "{id=a;}", "", NO_ORIGIN],
            "S9 AxisCount Header at 85",
        ),
        (
            [
                ONE_AXIS,
                "{id=a;axesValues=(1);},{id=b;axesValues=(1);}",
                "",
                BARE_INSTANCE,
            ],
            "S9 AxisCount Header at 143",
        ),
        (
            ["", "{id=a;},{id=b;}", "", NO_ORIGIN],
            "S13 OriginUnknown Header at 129",
        ),
        (
            [ONE_AXIS, NO_MAP, "", NO_ORIGIN],
            "S13 OriginUnknown Header at 337",
        ),
        (
            [ONE_AXIS, NO_MAP, "", BARE_INSTANCE],
            "S9 AxisCount Header at 295",
        ),
        (
            [ONE_AXIS, NO_MAP, ",{id=b;axesValues=(400);}", ""],
            "S16 DuplicateMaster Header at 283",
        ),
        (
            [ONE_AXIS, NO_MAP, ",{id=c;axesValues=(400);}", ""],
            "S10 SameLocation Header at 283",
        ),
        (
            [
                ONE_AXIS,
                "{id=a;axesValues=(5);},{id=b;axesValues=(5);}",
                "",
                "",
            ],
            "S10 SameLocation Header at 108",
        ),
        (
            [ONE_AXIS, NO_MAP, "", ""],
            "S11 AxisMapNotRising Header at 53",
        ),
    ];
    for (parts, expected) in rows {
        let source = source_of(rt.alloc(), parts)?;
        assert!(rt; told(rt.alloc(), source.as_str())?.as_str() == expected);
    }
    Ok(())
}

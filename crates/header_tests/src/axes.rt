use fixed_math::Fixed;
use plist_reader::{Tree, read};
use refusal_codes::{Failure, FirstFailure, Rule};
use source_axes::{
    Instances, note_axes, note_instance_counts, read_axes, read_instances, too_many_axes,
};
use source_values::optional;
use std::alloc::{AllocError, Global};
use std::test::Fail;

/// Two axes and four instances, of which two are kept.
const TWO_AXES: &[u8] = b"{axes=({name=Weight;tag=wght;},{name=Width;tag=wd;});\
instances=({name=Bold;axesValues=(10000.1,-0.5);},{name=Off;exports=0;axesValues=(1);},\
{name=Var;type=variable;},{name=Odd;type=single;axesValues=(1);});}";

/// The least local failure of a source's axes and instances.
fn local_failure(alloc: Global, tree: &Tree) -> Result<Option<Failure>, AllocError> {
    let mut first = FirstFailure::new();
    if let Some(number) = tree.find(tree.top, b"axes") {
        note_axes(alloc, tree, number, &mut first)?;
    }
    optional(tree, tree.top, b"instances", &Instances, &mut first);
    Ok(first.get())
}

/// The first kept instance that hasn't so many coordinates.
fn count_failure(tree: &Tree, axes: usize) -> Option<Failure> {
    let mut first = FirstFailure::new();
    note_instance_counts(tree, axes, &mut first);
    first.get()
}

/// A source of so many axes, each with a tag of its own, and of so many instances.
fn many(alloc: Global, axes: u32, instances: u32) -> Result<String, AllocError> {
    let mut text = String::new(alloc);
    text.push_str("{axes=(")?;
    for i in 0..axes {
        let comma = if i == 0 { "" } else { "," };
        write!(&mut text, "{comma}{{name=A;tag=a{i};}}")?;
    }
    text.push_str(");instances=(")?;
    for i in 0..instances {
        let comma = if i == 0 { "" } else { "," };
        write!(&mut text, "{comma}{{name=I;}}")?;
    }
    text.push_str(");}")?;
    Ok(text)
}

#[test]
fn axes_have_padded_tags_and_instances_rounded_coordinates(rt: HostRuntime) -> Result<(), Fail> {
    let tree = read(rt.alloc(), TWO_AXES)?;
    assert!(rt; local_failure(rt.alloc(), &tree)?.is_none() && too_many_axes(&tree).is_none());
    let axes = read_axes(rt.alloc(), &tree)?;
    match axes.as_slice() {
        [weight, width] => {
            assert!(rt; weight.name.as_str() == "Weight" && weight.tag.0 == *b"wght");
            assert!(rt; width.name.as_str() == "Width" && width.tag.0 == *b"wd  ");
        }
        _ => return Err("not two axes".into()),
    }
    let instances = read_instances(rt.alloc(), &tree)?;
    match instances.as_slice() {
        [bold, odd] => {
            let corner = [Fixed(655_366_554), Fixed(-32_768)];
            assert!(rt;
                bold.name.as_str() == "Bold" && bold.design.as_slice() == corner.as_slice()
            );
            let corner = [Fixed(65_536)];
            assert!(rt; odd.name.as_str() == "Odd" && odd.design.as_slice() == corner.as_slice());
        }
        _ => return Err("not two instances".into()),
    }
    Ok(())
}

#[test]
fn each_local_rule_of_axes_and_instances_fails_at_its_place(rt: HostRuntime) -> Result<(), Fail> {
    let rows = [
        (b"{axes=wght;}".as_slice(), Rule::WrongShape, 6),
        (b"{axes=({tag=wght;});}".as_slice(), Rule::MissingKey, 7),
        (b"{axes=({name=A;});}".as_slice(), Rule::MissingKey, 7),
        (
            b"{axes=({name=\"\";tag=wght;});}".as_slice(),
            Rule::OutOfRange,
            13,
        ),
        (
            b"{axes=({name=A;tag=(a);});}".as_slice(),
            Rule::WrongShape,
            19,
        ),
        (b"{axes=({name=A;tag=\"\";});}".as_slice(), Rule::BadTag, 19),
        (
            b"{axes=({name=A;tag=\"a b\";});}".as_slice(),
            Rule::BadTag,
            19,
        ),
        (
            b"{axes=({name=A;tag=abcde;});}".as_slice(),
            Rule::BadTag,
            19,
        ),
        (
            b"{axes=({name=A;tag=wght;},{name=B;tag=wght;});}".as_slice(),
            Rule::BadTag,
            38,
        ),
        (
            b"{instances=({axesValues=(1);});}".as_slice(),
            Rule::MissingKey,
            12,
        ),
        (
            b"{instances=({name=A;axesValues=(32767.1);});}".as_slice(),
            Rule::OutOfRange,
            32,
        ),
        (
            b"{instances=({name=A;exports=0.5;});}".as_slice(),
            Rule::NotWhole,
            28,
        ),
        (
            b"{instances=({name=A;type=();});}".as_slice(),
            Rule::WrongShape,
            25,
        ),
        (
            b"{instances=({name=A;exports=0;axesValues=(x);});}".as_slice(),
            Rule::WrongShape,
            42,
        ),
    ];
    for (source, rule, place) in rows {
        assert!(rt; source.len() < 100);
        let tree = read(rt.alloc(), source)?;
        assert!(rt; local_failure(rt.alloc(), &tree)? == Some(Failure { rule, place }));
    }
    let ends = b"{instances=({name=A;axesValues=(-32767,32767.0000000001);});}".as_slice();
    let tree = read(rt.alloc(), ends)?;
    assert!(rt; local_failure(rt.alloc(), &tree)?.is_none());
    Ok(())
}

#[test]
fn axes_instances_and_their_coordinates_are_counted(rt: HostRuntime) -> Result<(), Fail> {
    let rows = [
        (8, 64, None, None),
        (
            9,
            0,
            None,
            Some(Failure {
                rule: Rule::TooManyAxes,
                place: 6,
            }),
        ),
        (
            1,
            65,
            Some(Failure {
                rule: Rule::OutOfRange,
                place: 35,
            }),
            None,
        ),
        (0, 65, None, None),
    ];
    for (axes, instances, local, whole) in rows {
        let text = many(rt.alloc(), axes, instances)?;
        assert!(rt; text.len() < 10_000);
        let tree = read(rt.alloc(), text.as_bytes())?;
        assert!(rt; local_failure(rt.alloc(), &tree)? == local);
        assert!(rt; too_many_axes(&tree) == whole);
    }
    let tree = read(rt.alloc(), TWO_AXES)?;
    let odd = Failure {
        rule: Rule::AxisCount,
        place: 166,
    };
    let bold = Failure {
        rule: Rule::AxisCount,
        place: 64,
    };
    assert!(rt; count_failure(&tree, 2) == Some(odd) && count_failure(&tree, 1) == Some(bold));
    Ok(())
}

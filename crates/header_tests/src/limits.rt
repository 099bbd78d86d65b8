use font_ir::Header;
use glyphs_source::header;
use plist_reader::read;
use std::alloc::{AllocError, Global};
use std::test::Fail;

/// A source of so many axes, of so many masters that differ on the first of them, and of so many
/// instances, beside one that isn't exported and one that isn't single.
fn source_of(alloc: Global, axes: u32, masters: u32, instances: u32) -> Result<String, AllocError> {
    let mut text = String::from_str(
        alloc,
        "{.formatVersion=3;familyName=T;unitsPerEm=1000;axes=(",
    )?;
    push_axes(&mut text, axes)?;
    text.push_str(");fontMaster=(")?;
    for i in 0..masters {
        push_at(&mut text, "id", i, axes)?;
    }
    text.push_str(");instances=({name=Hidden;exports=0;},{name=Variable;type=variable;},")?;
    for i in 0..instances {
        push_at(&mut text, "name", i, axes)?;
    }
    text.push_str(");}")?;
    Ok(text)
}

fn push_axes(text: &mut String, axes: u32) -> Result<(), AllocError> {
    for i in 0..axes {
        write!(text, "{{name=Axis;tag=a{i};}},")?;
    }
    Ok(())
}

/// A master or an instance at this number on the first axis.
fn push_at(text: &mut String, key: &str, number: u32, axes: u32) -> Result<(), AllocError> {
    write!(text, "{{{key}=k{number};axesValues=({number}")?;
    for _ in 1..axes {
        text.push_str(",0")?;
    }
    text.push_str(");},")?;
    Ok(())
}

/// How many axes, masters and kept instances a header has.
fn counts(header: &Header) -> (usize, usize, usize) {
    (
        header.axes.len(),
        header.masters.len(),
        header.instances.len(),
    )
}

#[test]
fn eight_axes_32_masters_and_64_instances_are_read(rt: HostRuntime) -> Result<(), Fail> {
    let source = source_of(rt.alloc(), 8, 32, 64)?;
    assert!(rt; source.len() < 100_000);
    let tree = read(rt.alloc(), source.as_bytes())?;
    let header = header(rt.alloc(), &tree)?;
    assert!(rt; counts(&header) == (8, 32, 64));
    Ok(())
}

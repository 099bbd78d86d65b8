ghost use Rattle.std.specs.Prelude.{◌≡◌, map, IfOk};
ghost use Rattle.font_ir.specs.Headers.{IsHeader};

use font_ir::{Header, locations_of, made_notdef_is_flat};
use glyphs_source::header;
use plist_reader::read;
use refusal_codes::NoMemory;
use std::alloc::Global;
use std::test::Fail;
use style_tables::mvar;
use variation_model::{DeltaError, Model};

/// Four masters at the corners of two axes, with x-heights of 0, 16383, 16383 and -3.
pub const CORNERS: &[u8] = b"{.formatVersion=3;\
    axes=({name=Weight;tag=wght;},{name=Width;tag=wdth;});familyName=Corners;\
    fontMaster=({axesValues=(0,0);id=a;metricValues=({pos=0;});},\
    {axesValues=(1,0);id=b;metricValues=({pos=16383;});},\
    {axesValues=(0,1);id=c;metricValues=({pos=16383;});},\
    {axesValues=(1,1);id=d;metricValues=({pos=-3;});});\
    glyphs=();metrics=({type=\"x-height\";});unitsPerEm=1000;}";

/// The model of the masters.
fn model_of(alloc: Global, header: &Header) -> Result<Model, NoMemory>
    requires { IsHeader header.now }
    ensures { IfOk result (λ model. model ≡ map (λ master. master.location) header.now.masters) }
{
    made_notdef_is_flat();
    let places = locations_of(alloc, header.masters.as_slice())?;
    Model::new(alloc, places.as_slice())
}

/// The first delta of a metric that is too large, with its number.
fn too_large(alloc: Global, header: &Header) -> Option<(u32, i64)>
    requires { IsHeader header.now }
{
    let Ok(model) = model_of(alloc, header) else {
        return None;
    };
    match mvar(alloc, header, &model) {
        Err(DeltaError::TooLarge { at, value }) => Some((at, value)),
        _ => None,
    }
}

#[test]
fn an_x_height_that_no_delta_reaches_is_refused(rt: HostRuntime) -> Result<(), Fail> {
    let tree = read(rt.alloc(), CORNERS)?;
    let header = header(rt.alloc(), &tree)?;
    assert!(rt; too_large(rt.alloc(), &header) == Some((3, -32_769)));
    Ok(())
}

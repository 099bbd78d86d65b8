ghost use Rattle.std.specs.Prelude.{◌≡◌, map, IfOk};
ghost use Rattle.font_ir.specs.FlatGlyphs.{IsSmall};
ghost use Rattle.fixtures.specs.Families.{ends};

use fixed_math::F2Dot14;
use fixtures::growing_header;
use plain_lists::Sequence;
use std::alloc::{AllocError, Global};
use std::test::Fail;
use style_tables::mvar;
use variation_model::Model;

/// The model of two masters at the ends of an axis, the first of which is the default.
fn model(alloc: Global) -> Result<Model, Fail>
    ensures { IfOk result (λ model. model ≡ ends) }
{
    let first = Sequence::from_vec(vec![in alloc; F2Dot14(0)]?);
    let second = Sequence::from_vec(vec![in alloc; F2Dot14(16384)]?);
    let places = vec![in alloc; first, second]?;
    Ok(Model::new(alloc, places.as_slice())?)
}

/// The table MVAR of a family whose x-height is 500 at the default and this at the other master.
fn table(alloc: Global, xheight: i16) -> Result<Option<Vec<u8>>, Fail>
    requires { IsSmall xheight }
{
    let header = growing_header(alloc, xheight)?;
    Ok(mvar(alloc, &header, &model(alloc)?)?)
}

/// The record of the x-height, and the store of its row.
const TABLE: &str = "000100000000000800010014\
    7868677400000000\
    00010000000c000100000016\
    00010001000040004000\
    0001000100010000000a";

#[test]
fn an_x_height_that_grows_is_told(rt: HostRuntime) -> Result<(), Fail> {
    let expected = hex::decode(rt.alloc(), TABLE)?;
    assert!(rt; table(rt.alloc(), 510)? == Some(expected));
    Ok(())
}

#[test]
fn metrics_that_stay_have_no_table(rt: HostRuntime) -> Result<(), Fail> {
    assert!(rt; table(rt.alloc(), 500)?.is_none());
    Ok(())
}

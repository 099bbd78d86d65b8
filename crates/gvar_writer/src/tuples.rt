ghost use Rattle.std.specs.Prelude.{◌≡◌, ◌+◌, ◌*◌, ◌<◌, ◌≤◌, ◌++◌, length, map, IfOk, OnOk};
ghost use Rattle.std.specs.List.{items_where_true};
ghost use Rattle.gvar_writer.specs.TupleData as spec;

use crate::named::{Outline, differences, named_deltas, named_points};
use crate::packed::{push_deltas, push_points};
use refusal_codes::NoMemory;
use std::alloc::Global;

/// Appends deltas in x and then in y.
fn push_both(bytes: &mut Vec<u8>, xs: &[i16], ys: &[i16]) -> Result<(), NoMemory>
    ensures { OnOk result (bytes.new.items
        ≡ bytes.old.items ++ spec.both_packed xs.now ys.now) }
{
    push_deltas(bytes, xs)?;
    push_deltas(bytes, ys)
}

/// The data of a tuple with the deltas of all points.
#[tactic(auto, unfolding(crate::specs::TupleData::all_form))]
fn all_form(alloc: Global, xs: &[i16], ys: &[i16]) -> Result<Vec<u8>, NoMemory>
    ensures { IfOk result (λ bytes. bytes.items ≡ spec.all_form xs.now ys.now) }
{
    let mut bytes = Vec::new(alloc);
    bytes.push(0)?;
    push_both(&mut bytes, xs, ys)?;
    Ok(bytes)
}

/// The data of a tuple with the deltas of those points that are named.
#[tactic(auto, unfolding(crate::specs::TupleData::named_form))]
fn named_form(alloc: Global, named: &[bool], xs: &[i16], ys: &[i16]) -> Result<Vec<u8>, NoMemory>
    requires xs { length named.now ≡ length xs.now }
    requires ys { length named.now ≡ length ys.now }
    requires few { length named.now < 32768 }
    ensures { IfOk result (λ bytes. bytes.items ≡ spec.named_form named.now xs.now ys.now) }
{
    let mut bytes = Vec::new(alloc);
    push_points(&mut bytes, differences(alloc, named)?.as_slice())?;
    let xs = named_deltas(alloc, named, xs)?;
    let ys = named_deltas(alloc, named, ys)?;
    push_both(&mut bytes, xs.as_slice(), ys.as_slice())?;
    Ok(bytes)
}

/// The shorter form, and of two that are equally long the one of all points.
fn shorter(all: Vec<u8>, named: Vec<u8>) -> Vec<u8>
    ensures { result.items ≡ spec.shorter all.items named.items }
{
    if named.len() < all.len() { named } else { all }
}

/// The data of a tuple (OpenType 1.9, "Tuple variation store", "Serialized data"): the shorter one
/// of two forms.
pub fn tuple_data(
    alloc: Global,
    outline: &Outline,
    xs: &[i16],
    ys: &[i16],
) -> Result<Vec<u8>, NoMemory>
    requires pairs { length ys.now ≡ length xs.now }
    requires points { outline.now.points ≤ length xs.now }
    requires few { length xs.now ≤ 8004 }
    ensures data { IfOk result (λ bytes. bytes.items ≡ spec.tuple_data
        (map (λ contour. contour.items) outline.now.contours.items) xs.now ys.now) }
    ensures short { IfOk result (λ bytes. length bytes.items ≤ 65535) }
{
    let named = named_points(alloc, outline, xs, ys)?;
    let all = all_form(alloc, xs, ys)?;
    let some = named_form(alloc, named.as_slice(), xs, ys)?;
    Ok(shorter(all, some))
}

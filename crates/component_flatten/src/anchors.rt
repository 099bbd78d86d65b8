ghost use Rattle.std.specs.Prelude.{◌≡◌, ◌≤◌, ℕ, ◌++◌, length, List, IfOk, OnOk, Some, nat_eq};
ghost use Rattle.std.specs.Prelude.{if◌then◌else◌};
ghost use Rattle.std.specs.List.{AllZip, flat_map};
ghost use Rattle.std.specs.Map.{lookup};
ghost use Rattle.std.specs.Cmp.Lexicographic.{pointwise};
ghost use Rattle.component_flatten.specs.Anchors as spec;
ghost use Rattle.component_flatten.specs.Judging.{Finds, found_in};

use font_ir::{Anchor, GlyphIr, LayerIr, Name};
use indexmap::IndexMap;
use plain_lists::Sequence;
use refusal_codes::NoMemory;
use std::alloc::Global;
use std::marker::Model;

/// Where the anchors of a layer are, by their names. A contract sees the names with the positions.
#[derive(Drop)]
struct Positions {
    by_name: IndexMap<Name, (i16, i16)>,
}

impl Model for Positions {
    ghost use Rattle.std.specs.Prelude.{List, ℕ, ℤ};

    ghost Value = { List (List ℕ × (ℤ × ℤ)) };

    ghost view = { λ positions. positions.by_name.entries };
}

impl Positions {
    /// Those of a list of anchors.
    fn of(alloc: Global, anchors: &[Anchor]) -> Result<Positions, NoMemory>
        ensures { IfOk result (λ positions. Finds positions anchors.now) }
    {
        let mut by_name = IndexMap::with_capacity(alloc, anchors.len())?;
        // Of two anchors with one name the first counts, so it goes in last.
        let mut left = anchors.len();
        while left > 0 {
            left -= 1;
            insert(alloc, &mut by_name, &anchors[left])?;
        }
        Ok(Positions { by_name })
    }

    fn get(&self, name: &Name) -> Option<(i16, i16)>
        ensures { result ≡ lookup (pointwise nat_eq name.now) self.now }
    {
        self.by_name.get(name).copied()
    }
}

fn insert(
    alloc: Global,
    by_name: &mut IndexMap<Name, (i16, i16)>,
    anchor: &Anchor,
) -> Result<(), NoMemory>
    ensures { OnOk result ((name : List ℕ) → lookup (pointwise nat_eq name) by_name.new.entries
        ≡ (if pointwise nat_eq anchor.now.name name then Some (anchor.now.x, anchor.now.y)
        else lookup (pointwise nat_eq name) by_name.old.entries)) }
{
    by_name.insert(anchor.name.copy(alloc)?, (anchor.x, anchor.y))?;
    Ok(())
}

/// The anchors that all masters' layers have, with their positions.
pub fn anchors(
    alloc: Global,
    glyph: &GlyphIr,
) -> Result<Sequence<(Name, Sequence<(i16, i16)>)>, NoMemory>
    requires { glyph.now.masters ≤ length glyph.now.layers }
    ensures { IfOk result (λ anchors. anchors ≡ spec.anchors_of glyph.now) }
{
    let layers = &glyph.layers.as_slice()[..glyph.masters as usize];
    used_anchors(alloc, layers)
}

fn used_anchors(
    alloc: Global,
    layers: &[LayerIr],
) -> Result<Sequence<(Name, Sequence<(i16, i16)>)>, NoMemory>
    ensures { IfOk result (λ anchors. anchors ≡ spec.used_anchors layers.now) }
{
    let found = positions_in(alloc, layers)?;
    used_among(alloc, found.as_slice(), first_anchors(layers))
}

fn first_anchors(layers: &[LayerIr]) -> &[Anchor]
    ensures { result.now ≡ spec.first_anchors layers.now }
{
    match layers {
        [first, ..] => first.anchors.as_slice(),
        [] => &[],
    }
}

/// The positions of each layer's anchors.
fn positions_in(alloc: Global, layers: &[LayerIr]) -> Result<Sequence<Positions>, NoMemory>
    ensures { IfOk result (λ found. AllZip (λ positions layer. Finds positions layer.anchors) found
        layers.now) }
{
    let mut found = Sequence::from_vec(Vec::with_capacity(alloc, layers.len())?);
    for layer in layers {
        found.push(Positions::of(alloc, layer.anchors.as_slice())?)?;
    }
    Ok(found)
}

/// Those of the anchors that all have.
fn used_among(
    alloc: Global,
    found: &[Positions],
    anchors: &[Anchor],
) -> Result<Sequence<(Name, Sequence<(i16, i16)>)>, NoMemory>
    ensures { IfOk result (λ used. used ≡ flat_map (λ anchor. spec.used_if anchor.name
        (found_in anchor.name found.now)) anchors.now) }
{
    let mut used = Sequence::from_vec(Vec::with_capacity(alloc, anchors.len())?);
    for anchor in anchors {
        push_used(alloc, found, anchor, &mut used)?;
    }
    Ok(used)
}

fn push_used(
    alloc: Global,
    found: &[Positions],
    anchor: &Anchor,
    used: &mut Sequence<(Name, Sequence<(i16, i16)>)>,
) -> Result<(), NoMemory>
    ensures { OnOk result (used.new ≡ used.old
        ++ spec.used_if anchor.now.name (found_in anchor.now.name found.now)) }
{
    if let Some(positions) = positions_of(alloc, found, &anchor.name)? {
        let name = anchor.name.copy(alloc)?;
        used.push((name, positions))?;
    }
    Ok(())
}

/// Where the anchor with this name is in each layer, if all have it.
fn positions_of(
    alloc: Global,
    found: &[Positions],
    name: &Name,
) -> Result<Option<Sequence<(i16, i16)>>, NoMemory>
    ensures { IfOk result (λ positions. positions ≡ found_in name.now found.now) }
{
    let mut positions = Sequence::from_vec(Vec::with_capacity(alloc, found.len())?);
    for layer in found {
        match layer.get(name) {
            Some(position) => positions.push(position)?,
            None => return Ok(None),
        }
    }
    Ok(Some(positions))
}

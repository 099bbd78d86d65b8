ghost use Rattle.std.specs.Prelude.{◌≡◌, IfOk, OnOk};
ghost use Rattle.refusal_codes.specs.First.{noted};
ghost use Rattle.layer_shapes.specs.LayerRules.{layer_failures};
ghost use Rattle.layer_shapes.specs.LayerReading.{layer_record};
ghost use Rattle.layer_shapes.specs.ReadLayers.{IsReadLayer};

use crate::anchors::read_anchors_of;
use crate::kind::LayerKind;
use crate::shapes::read_shapes_under;
use font_ir::LayerIr;
use plist_reader::Tree;
use refusal_codes::FirstFailure;
use source_values::{NaturalOr, required_natural};
use std::alloc::{AllocError, Global};

/// What a layer of a glyph holds, read and checked in one pass over its dictionary, which is the
/// value with this number (Glyphs file format, version 3): its width in font units, its shapes in
/// 16.16, the last node stored first, and its anchors in font units. What fails of it is noted; a
/// value that fails reads as one in its range.
///
/// The error is want of memory.
#[tactic(auto, using(refusal_codes::specs::FirstLaws::noting), unfolding(crate::specs::LayerRules::layer_failures, crate::specs::LayerReading::layer_record))]
pub fn read_layer(
    alloc: Global,
    tree: &Tree,
    layer: u32,
    kind: LayerKind,
    first: &mut FirstFailure,
) -> Result<LayerIr, AllocError>
    ensures layer { IfOk result (λ read. read ≡ layer_record kind tree.now layer) }
    ensures failures { OnOk result (first.new
        ≡ noted first.old (layer_failures kind tree.now layer)) }
    ensures ranges { IfOk result IsReadLayer }
{
    let width = NaturalOr {
        low: 0,
        high: 32767,
        missing: 0,
    };
    let width = required_natural(tree, layer, b"width", width, first);
    let shapes = read_shapes_under(alloc, tree, layer, first)?;
    let anchors = read_anchors_of(alloc, tree, layer, kind, first)?;
    Ok(LayerIr {
        width: i32::from(width),
        shapes,
        anchors,
    })
}

ghost use Rattle.std.specs.Prelude.{◌≡◌, ◌++◌, [], ◌∷◌, length, None, IfOk, MatchResult};
ghost use Rattle.table_tree.specs.Trees.{Tree, spelling};
ghost use Rattle.table_tree.specs.Layouts.{layout_of, bytes_of, piece_bytes, first_above};
ghost use Rattle.table_tree.specs.Leads.{NearOffsetsLead, FarOffsetsLead};
ghost use Rattle.table_tree.specs.Views.{LaysOut, RefusesLayout, piece_of, pieces_of};

use crate::cells::{Piece, length_of, settle};
use crate::errors::LayoutError;
use crate::near::near_part;
use crate::node::Node;
use refusal_codes::NoMemory;
use std::alloc::Global;
use table_bytes::{push_uint16, push_uint32};

/// The bytes of a tree of offsets (OpenType 1.9, "Data types"): the near part of the tree, its
/// fields and behind them the near parts of the nodes that its offsets lead to, in the order of the
/// fields; then the layouts of the nodes that far offsets lead to, in the order in which these
/// offsets stand in the near part. A node that is equal to an earlier one that a near offset of the
/// same parent leads to stands once. Each offset counts from the first byte of the node that has
/// it.
///
/// The error is `Offset` exactly where an offset is greater than its width holds, and has the first
/// such, by its place in the bytes. Whatever the tree, memory can run out first.
///
/// Of any node, each near offset leads to the near part of its node, and each far offset to the
/// layout of its node. Nodes are compared by their spellings, and those with one spelling are
/// equal.
pub fn layout(alloc: Global, tree: &Node) -> Result<Vec<u8>, LayoutError>
    ensures bytes { LaysOut result (layout_of tree.now) }
    ensures near { (node : Tree) → NearOffsetsLead node }
    ensures far { (node : Tree) → FarOffsetsLead node }
    ensures equal { (a b : Tree) → spelling a ≡ spelling b → a ≡ b }
{
    laid_out(alloc, tree)
}

/// How many bytes a tree has, whatever the widths of its offsets.
pub fn length(alloc: Global, tree: &Node) -> Result<u64, NoMemory>
    ensures { IfOk result (λ n. n ≡ length (bytes_of (layout_of tree.now))) }
{
    let pieces = pieces_of(alloc, tree)?;
    length_of(pieces.as_slice())
}

/// The bytes of a tree.
fn laid_out(alloc: Global, tree: &Node) -> Result<Vec<u8>, LayoutError>
    ensures { LaysOut result (layout_of tree.now) }
{
    let pieces = pieces_of(alloc, tree)?;
    bytes_of(alloc, pieces.as_slice())
}

/// The pieces of a tree's layout.
#[tactic(auto, unfolding(crate::specs::Layouts::layout_of))]
fn pieces_of<'a>(alloc: Global, tree: &'a Node) -> Result<Vec<Piece<'a>>, NoMemory>
    ensures { IfOk result (λ pieces. pieces_of pieces.items ≡ layout_of tree.now) }
{
    let cells = near_part(alloc, tree)?;
    settle(alloc, cells.as_slice())
}

/// The bytes of pieces.
#[tactic(auto, using(crate::proofs::PieceLemmas::above_more, crate::proofs::PieceLemmas::refuses_more))]
fn bytes_of(alloc: Global, pieces: &[Piece<'_>]) -> Result<Vec<u8>, LayoutError>
    ensures { LaysOut result (pieces_of pieces.now) }
{
    let mut bytes = Vec::with_capacity(alloc, length_of(pieces)? as usize)?;
    for piece in pieces {
        push_piece(&mut bytes, piece)?;
    }
    Ok(bytes)
}

/// Appends the bytes of a piece, unless it is an offset that is greater than its width holds.
fn push_piece(bytes: &mut Vec<u8>, piece: &Piece<'_>) -> Result<(), LayoutError>
    ensures { MatchResult result (λ _. (bytes.new.items
        ≡ bytes.old.items ++ piece_bytes (piece_of piece.now))
        × (first_above (piece_of piece.now ∷ []) ≡ None))
        (λ e. RefusesLayout e (first_above (piece_of piece.now ∷ []))) }
{
    match piece {
        Piece::U8(n) => bytes.push(*n)?,
        Piece::U16(n) => push_uint16(bytes, *n)?,
        Piece::U32(n) => push_uint32(bytes, *n)?,
        Piece::Bytes(content) => bytes.extend_from_slice(content)?,
        Piece::Off16(value) => match u16::try_from(*value) {
            Ok(short) => push_uint16(bytes, short)?,
            Err(_) => return Err(LayoutError::Offset(*value)),
        },
        Piece::Off32(value) => match u32::try_from(*value) {
            Ok(long) => push_uint32(bytes, long)?,
            Err(_) => return Err(LayoutError::Offset(*value)),
        },
    }
    Ok(())
}

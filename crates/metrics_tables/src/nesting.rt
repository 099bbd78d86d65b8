//! How deep components nest.

ghost use Rattle.std.specs.Prelude.{◌≡◌, ◌<◌, ◌++◌, None, length, map, replicate, IfOk, OnOk};
ghost use Rattle.std.specs.List.{All};
ghost use Rattle.metrics_tables.specs.Nesting.{bases_of, greatest_depth};
ghost use Rattle.metrics_tables.specs.Walks.{AreBases, AreDepths, IsKnown, depth_over};
ghost use Rattle.metrics_tables.specs.Walks.{depths_after, entries_of, gid_in, known_depth};
ghost use Rattle.metrics_tables.specs.Walks.{stack_after};

use font_ir::{FlatGlyph, GlyphOrder};
use plain_lists::Sequence;
use refusal_codes::NoMemory;
use std::alloc::Global;
use std::sync::Arc;

/// What is left to do at a glyph.
#[derive(Clone, Copy)]
enum Step {
    /// Its components come first, and then itself.
    Enter(u16),
    /// Its components are done.
    Leave(u16),
}

/// The numbers of a glyph's components, found without a scan.
fn bases_of(alloc: Global, order: &GlyphOrder, glyph: &FlatGlyph) -> Result<Sequence<u16>, NoMemory>
    ensures { IfOk result (λ bases. bases ≡ bases_of order.now.names glyph.now) }
{
    let mut bases = Vec::new(alloc);
    for kept in glyph.kept.as_slice() {
        if let Some(base) = order.gid(kept.base.as_bytes()) {
            bases.push(base)?;
        }
    }
    Ok(Sequence::from_vec(bases))
}

/// The same of each glyph.
pub fn all_bases(
    alloc: Global,
    order: &GlyphOrder,
    glyphs: &[Arc<FlatGlyph>],
) -> Result<Vec<Sequence<u16>>, NoMemory>
    ensures { IfOk result (λ bases. bases.items
        ≡ map (λ glyph. bases_of order.now.names glyph.value) glyphs.now) }
{
    let mut bases = Vec::with_capacity(alloc, glyphs.len())?;
    for glyph in glyphs {
        bases.push(bases_of(alloc, order, glyph)?)?;
    }
    Ok(bases)
}

/// The depth of a glyph whose components have these depths.
fn depth_over(bases: &[u16], depths: &[Option<u16>]) -> u16
    requires within { All (λ base. base < length depths.now) bases.now }
    requires small { All (λ base. known_depth depths.now base < 65535) bases.now }
    ensures { result ≡ depth_over depths.now bases.now }
{
    let mut so_far = 0;
    for base in bases {
        so_far = so_far.max(1 + depths[*base as usize].unwrap_or(0));
    }
    so_far
}

/// Puts those components onto the stack whose depths aren't known.
fn push_entries(
    stack: &mut Vec<Step>,
    bases: &[u16],
    depths: &[Option<u16>],
) -> Result<(), NoMemory>
    requires { All (λ base. base < length depths.now) bases.now }
    ensures { OnOk result (stack.new.items
        ≡ stack.old.items ++ entries_of depths.now bases.now) }
{
    for base in bases {
        if depths[*base as usize].is_none() {
            stack.push(Step::Enter(*base))?;
        }
    }
    Ok(())
}

/// Does what is left to do at a glyph.
fn take_step(
    stack: &mut Vec<Step>,
    depths: &mut Vec<Option<u16>>,
    bases: &[Sequence<u16>],
    step: Step,
) -> Result<(), NoMemory>
    requires bases { AreBases bases.now }
    requires depths { AreDepths bases.now depths.old.items }
    requires there { gid_in step < length bases.now }
    ensures stack { OnOk result (stack.new.items
        ≡ stack_after bases.now depths.old.items stack.old.items step) }
    ensures depths { OnOk result (depths.new.items
        ≡ depths_after bases.now depths.old.items step) }
{
    match step {
        Step::Enter(gid) => {
            if depths[gid as usize].is_none() {
                stack.push(Step::Leave(gid))?;
                push_entries(stack, bases[gid as usize].as_slice(), depths.as_slice())?;
            }
        }
        Step::Leave(gid) => {
            let depth = depth_over(bases[gid as usize].as_slice(), depths.as_slice());
            depths[gid as usize] = Some(depth);
        }
    }
    Ok(())
}

/// Settles the depth of a glyph, and with it those of its components, in one pass over all of them.
fn settle(
    alloc: Global,
    depths: &mut Vec<Option<u16>>,
    bases: &[Sequence<u16>],
    gid: u16,
) -> Result<(), NoMemory>
    requires bases { AreBases bases.now }
    requires depths { AreDepths bases.now depths.old.items }
    requires there { gid < length bases.now }
    ensures depths { OnOk result (AreDepths bases.now depths.new.items) }
    ensures known { OnOk result (IsKnown depths.new.items gid) }
{
    let mut stack = vec![in alloc; Step::Enter(gid)]?;
    while let Some(step) = stack.pop() {
        take_step(&mut stack, depths, bases, step)?;
    }
    Ok(())
}

/// No depth yet for so many glyphs.
fn no_depths(alloc: Global, count: usize) -> Result<Vec<Option<u16>>, NoMemory>
    ensures { IfOk result (λ depths. depths.items ≡ replicate count None) }
{
    let mut depths = Vec::with_capacity(alloc, count)?;
    for _gid in 0..count {
        depths.push(None)?;
    }
    Ok(depths)
}

/// The greatest depth of a glyph, of which each has components of these numbers.
pub fn greatest_depth(alloc: Global, bases: &[Sequence<u16>]) -> Result<u16, NoMemory>
    requires { AreBases bases.now }
    ensures { IfOk result (λ depth. depth ≡ greatest_depth bases.now) }
{
    let mut depths = no_depths(alloc, bases.len())?;
    let mut so_far = 0;
    for gid in 0..bases.len() as u16 {
        settle(alloc, &mut depths, bases, gid)?;
        so_far = so_far.max(depths[gid as usize].unwrap_or(0));
    }
    Ok(so_far)
}

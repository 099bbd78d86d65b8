ghost use Rattle.std.specs.Prelude.{◌≡◌, ◌++◌, [], ◌∷◌, OnOk, IfOk};
ghost use Rattle.table_tree.specs.Trees.{Tree, spelled_bytes, spelling};
ghost use Rattle.table_tree.specs.TreeOf.{before};

use crate::node::{Field, Node};
use refusal_codes::NoMemory;
use std::alloc::Global;

/// The kinds of fields in a spelling; the end of a node's fields is a zero.
const END: u32 = 0;

const NUMBER: u32 = 1;

const BYTES: u32 = 2;

const NULL: u32 = 3;

const NEAR: u32 = 4;

const FAR: u32 = 5;

/// A node's spelling, by which it is compared with others.
pub fn spelling_of(alloc: Global, node: &Node) -> Result<Vec<u32>, NoMemory>
    ensures { IfOk result (λ numbers. numbers.items ≡ spelling node.now) }
{
    let mut numbers = Vec::new(alloc);
    spell(node, &mut numbers)?;
    Ok(numbers)
}

/// Appends a node's spelling.
#[cycle(spell)]
fn spell(node: &Node, numbers: &mut Vec<u32>) -> Result<(), NoMemory>
    ensures { OnOk result (numbers.new.items ≡ numbers.old.items ++ spelling node.now) }
{
    for field in node.fields() {
        spell_field(field, numbers)?;
    }
    numbers.push(END)?;
    Ok(())
}

/// Appends what a field puts before the spelling of the others.
#[cycle(spell)]
fn spell_field(field: &Field, numbers: &mut Vec<u32>) -> Result<(), NoMemory>
    ensures { OnOk result ((others : Tree)
        → numbers.new.items ++ spelling others
        ≡ numbers.old.items ++ spelling (before field.now others)) }
{
    match field {
        Field::U8(n) => numbers.extend_from_slice(&[NUMBER, 1, u32::from(*n)])?,
        Field::U16(n) => numbers.extend_from_slice(&[NUMBER, 2, u32::from(*n)])?,
        Field::U32(n) => numbers.extend_from_slice(&[NUMBER, 4, *n])?,
        Field::Bytes(content) => return spell_bytes(content.as_slice(), numbers),
        Field::Off16(child) => {
            numbers.extend_from_slice(&[NEAR, 2])?;
            return spell(child, numbers);
        }
        Field::Off32(child) => {
            numbers.extend_from_slice(&[NEAR, 4])?;
            return spell(child, numbers);
        }
        Field::Far32(child) => {
            numbers.push(FAR)?;
            return spell(child, numbers);
        }
        Field::Null16 => numbers.extend_from_slice(&[NULL, 2])?,
        Field::Null32 => numbers.extend_from_slice(&[NULL, 4])?,
    }
    Ok(())
}

/// Appends the spelling of bytes.
fn spell_bytes(content: &[u8], numbers: &mut Vec<u32>) -> Result<(), NoMemory>
    ensures { OnOk result (numbers.new.items
        ≡ numbers.old.items ++ 2 ∷ spelled_bytes content.now []) }
{
    numbers.push(BYTES)?;
    for byte in content {
        numbers.push(u32::from(*byte) + 1)?;
    }
    numbers.push(END)?;
    Ok(())
}

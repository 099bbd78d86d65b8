use font_assembly::assemble;
use font_ir::Tag;
use std::alloc::Global;
use std::sync::Arc;
use std::test::Fail;

/// A table head in which another adjustment stands, and the file of it alone: its directory, and
/// the table with its own.
const HEAD: &str = "000100000001000001020304\
    5f0f3cf5000303e8000000000000000000000000000000000000000001f402bc00000006000200010000";

const FONT: &str = "000100000001001000000000\
    68656164610a43a00000001c00000036\
    00010000000100008734c6b4\
    5f0f3cf5000303e8000000000000000000000000000000000000000001f402bc00000006000200010000\
    0000";

/// The file of this table `head` alone, where it is as long as one.
fn file_of(alloc: Global, head: Vec<u8>) -> Option<Vec<u8>> {
    if head.len() != 54 {
        return None;
    }
    match Arc::new(alloc, head) {
        Ok(head) => assemble(alloc, &[(Tag(*b"head"), head)]).ok(),
        Err(_) => None,
    }
}

#[test]
fn a_font_of_one_table_has_its_adjustment_whatever_was_there(rt: HostRuntime) -> Result<(), Fail> {
    let font = file_of(rt.alloc(), hex::decode(rt.alloc(), HEAD)?);
    assert!(rt; font == Some(hex::decode(rt.alloc(), FONT)?));
    Ok(())
}

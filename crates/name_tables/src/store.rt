ghost use Rattle.std.specs.Prelude.{◌≡◌, ℕ, ◌+◌, ◌*◌, ◌≤◌, [], ◌∷◌, ◌++◌, length, OnOk};
ghost use Rattle.std.specs.Vec.{vec_len};
ghost use Rattle.name_tables.specs.Names.{record_fields};
ghost use Rattle.name_tables.specs.Stores.{Adds, text_room};
ghost use Rattle.name_tables.specs.Texts.{named};

use crate::utf16::push_utf16;
use std::alloc::{AllocError, Global};
use table_bytes::push_uint16;

/// Windows.
const PLATFORM: u16 = 3;

/// Unicode, the characters of one unit.
const ENCODING: u16 = 1;

/// English of the United States.
const LANGUAGE: u16 = 0x409;

/// The records of some names, and their texts in UTF-16 one after another.
#[derive(Drop)]
pub struct NameStore {
    pub records: Vec<u8>,
    pub texts: Vec<u8>,
}

impl NameStore {
    /// The store without names. It takes no memory.
    pub fn new(alloc: Global) -> Self
        ensures records { result.records.items ≡ [] }
        ensures texts { result.texts.items ≡ [] }
    {
        NameStore {
            records: Vec::new(alloc),
            texts: Vec::new(alloc),
        }
    }

    /// Adds a text by its name ID. Where memory runs out, a part of it may stand there.
    pub fn push(&mut self, id: u16, text: &str) -> Result<(), AllocError>
        requires room { length self.old.texts.items + text_room ≤ 65535 }
        requires text { length text.now ≤ 300 }
        ensures { OnOk result (Adds self.old self.new (named id text.now ∷ [])) }
    {
        let offset = self.texts.len();
        push_utf16(&mut self.texts, text)?;
        let len = self.texts.len() - offset;
        push_record(&mut self.records, id, len as u16, offset as u16)?;
        Ok(())
    }
}

/// Appends the record of a text.
#[tactic(auto, unfolding(crate::specs::Names::record_fields))]
fn push_record(records: &mut Vec<u8>, id: u16, len: u16, offset: u16) -> Result<(), AllocError>
    ensures { OnOk result (records.new.items ≡ records.old.items ++ record_fields id len offset) }
{
    push_uint16(records, PLATFORM)?;
    push_uint16(records, ENCODING)?;
    push_uint16(records, LANGUAGE)?;
    push_uint16(records, id)?;
    push_uint16(records, len)?;
    push_uint16(records, offset)
}

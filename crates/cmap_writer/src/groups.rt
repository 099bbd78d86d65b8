ghost use Rattle.std.specs.Prelude.{◌≡◌, ◌+◌, ◌≤◌, ◌++◌, length, OnOk};
ghost use Rattle.std.specs.List.{All, flat_map};
ghost use Rattle.cmap_writer.specs.Subtables as spec;

use crate::runs::Run;
use refusal_codes::NoMemory;
use table_bytes::{push_uint16, push_uint32};

/// Appends a group of format 12.
fn push_group(table: &mut Vec<u8>, run: Run) -> Result<(), NoMemory>
    requires { run.first + run.more ≤ 1114111 }
    ensures { OnOk result (table.new.items ≡ table.old.items ++ spec.group_bytes run) }
{
    push_uint32(table, run.first)?;
    push_uint32(table, run.first + run.more)?;
    push_uint32(table, u32::from(run.glyph))?;
    Ok(())
}

/// Appends the groups of format 12.
fn push_groups(table: &mut Vec<u8>, runs: &[Run]) -> Result<(), NoMemory>
    requires { All (λ run. run.first + run.more ≤ 1114111) runs.now }
    ensures { OnOk result (table.new.items
        ≡ table.old.items ++ flat_map spec.group_bytes runs.now) }
{
    for run in runs {
        push_group(table, *run)?;
    }
    Ok(())
}

/// Appends the fields of format 12 before its groups.
#[tactic(auto, unfolding(crate::specs::Subtables::format_12_head))]
fn push_head(table: &mut Vec<u8>, count: u32) -> Result<(), NoMemory>
    requires { count ≤ 1114112 }
    ensures { OnOk result (table.new.items ≡ table.old.items ++ spec.format_12_head count) }
{
    push_uint16(table, 12)?;
    push_uint16(table, 0)?;
    push_uint32(table, 16 + 12 * count)?;
    push_uint32(table, 0)?;
    push_uint32(table, count)?;
    Ok(())
}

/// Appends a subtable of format 12 (OpenType 1.9, "cmap"): a group for each run.
#[tactic(auto, unfolding(crate::specs::Subtables::format_12))]
pub fn push_format_12(table: &mut Vec<u8>, runs: &[Run]) -> Result<(), NoMemory>
    requires few { length runs.now ≤ 1114112 }
    requires codes { All (λ run. run.first + run.more ≤ 1114111) runs.now }
    ensures { OnOk result (table.new.items ≡ table.old.items ++ spec.format_12 runs.now) }
{
    push_head(table, runs.len() as u32)?;
    push_groups(table, runs)
}

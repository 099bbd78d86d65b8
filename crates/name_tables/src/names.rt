ghost use Rattle.std.specs.Prelude.{◌≡◌, ◌+◌, ◌*◌, ◌≤◌, ◌++◌, length, IfOk, OnOk};
ghost use Rattle.std.specs.String.{string_bytes};
ghost use Rattle.font_ir.specs.Headers.{IsHeader};
ghost use Rattle.name_tables.specs.Names.{name_head, name_table};
ghost use Rattle.name_tables.specs.Stores.{Adds, Holds, text_room};
ghost use Rattle.name_tables.specs.Texts.{axis_names, font_names, instance_names};
ghost use Rattle.name_tables.specs.Texts.{names_of as all_names, postscript_text};
ghost use Rattle.name_tables.specs.Texts.{style_names, version_names, version_text};

use crate::axes::FIRST_AXIS_NAME;
use crate::store::NameStore;
use crate::texts::{joined, postscript_name, version_of};
use font_ir::Header;
use refusal_codes::NoMemory;
use std::alloc::{AllocError, Global};
use table_bytes::push_uint16;

/// The names that a font has besides those of its axes and instances.
const FONT_NAMES: u16 = 6;

/// Adds the family's name and the style's, and what identifies the font.
fn push_style_names(
    alloc: Global,
    names: &mut NameStore,
    header: &Header,
    version: &str,
    postscript: &str,
) -> Result<(), AllocError>
    requires header { IsHeader header.now }
    requires room { length names.old.texts.items ≤ 4 * text_room }
    requires version { version.now ≡ version_text header.now }
    requires postscript { postscript.now ≡ postscript_text header.now }
    ensures { OnOk result (Adds names.old names.new (style_names header.now)) }
{
    names.push(1, header.family.as_str())?;
    names.push(2, "Regular")?;
    let versioned = joined(alloc, version, ";")?;
    let identifier = joined(alloc, versioned.as_str(), postscript)?;
    names.push(3, identifier.as_str())?;
    Ok(())
}

/// Adds the full name, the version and the PostScript name.
fn push_version_names(
    alloc: Global,
    names: &mut NameStore,
    header: &Header,
    version: &str,
    postscript: &str,
) -> Result<(), AllocError>
    requires header { IsHeader header.now }
    requires room { length names.old.texts.items ≤ 4 * text_room }
    requires version { version.now ≡ version_text header.now }
    requires postscript { postscript.now ≡ postscript_text header.now }
    ensures { OnOk result (Adds names.old names.new (version_names header.now)) }
{
    let full_name = joined(alloc, header.family.as_str(), " Regular")?;
    names.push(4, full_name.as_str())?;
    let version_name = joined(alloc, "Version ", version)?;
    names.push(5, version_name.as_str())?;
    names.push(6, postscript)?;
    Ok(())
}

/// Adds the names by which the font goes.
fn push_font_names(alloc: Global, names: &mut NameStore, header: &Header) -> Result<(), AllocError>
    requires header { IsHeader header.now }
    requires room { length names.old.texts.items ≡ 0 }
    ensures { OnOk result (Adds names.old names.new (font_names header.now)) }
{
    let version = version_of(alloc, header)?;
    let postscript = postscript_name(alloc, header)?;
    push_style_names(alloc, names, header, version.as_str(), postscript.as_str())?;
    push_version_names(alloc, names, header, version.as_str(), postscript.as_str())?;
    Ok(())
}

/// Adds the names of the axes.
fn push_axis_names(names: &mut NameStore, header: &Header) -> Result<(), AllocError>
    requires header { IsHeader header.now }
    requires room { length names.old.texts.items ≤ 6 * text_room }
    ensures { OnOk result (Adds names.old names.new (axis_names header.now)) }
{
    let axes = header.axes.as_slice();
    for (number, axis) in axes.iter().enumerate() {
        names.push(FIRST_AXIS_NAME + number as u16, axis.name.as_str())?;
    }
    Ok(())
}

/// Adds the names of the instances.
fn push_instance_names(names: &mut NameStore, header: &Header) -> Result<(), AllocError>
    requires header { IsHeader header.now }
    requires room { length names.old.texts.items ≤ 14 * text_room }
    ensures { OnOk result (Adds names.old names.new (instance_names header.now)) }
{
    let first = FIRST_AXIS_NAME + header.axes.len() as u16;
    let instances = header.instances.as_slice();
    for (number, instance) in instances.iter().enumerate() {
        names.push(first + number as u16, instance.name.as_str())?;
    }
    Ok(())
}

/// All names of a font.
fn names_of(alloc: Global, header: &Header) -> Result<NameStore, AllocError>
    requires { IsHeader header.now }
    ensures { IfOk result (λ names. Holds names (all_names header.now)) }
{
    let mut names = NameStore::new(alloc);
    push_font_names(alloc, &mut names, header)?;
    push_axis_names(&mut names, header)?;
    push_instance_names(&mut names, header)?;
    Ok(names)
}

/// Appends the fields before the records.
#[tactic(auto, unfolding(crate::specs::Names::name_head))]
fn push_head(table: &mut Vec<u8>, count: u16) -> Result<(), AllocError>
    requires { count ≤ 5000 }
    ensures { OnOk result (table.new.items ≡ table.old.items ++ name_head count) }
{
    push_uint16(table, 0)?;
    push_uint16(table, count)?;
    push_uint16(table, 6 + 12 * count)
}

/// The table `name` (OpenType 1.9, "name"): what the font, its axes and its instances are called.
///
/// # Errors
///
/// `NoMemory` where memory runs out.
pub fn name(alloc: Global, header: &Header) -> Result<Vec<u8>, NoMemory>
    requires { IsHeader header.now }
    ensures { IfOk result (λ table. table.items ≡ name_table header.now) }
{
    let names = names_of(alloc, header)?;
    let mut table = Vec::new(alloc);
    let count = FONT_NAMES + header.axes.len() as u16 + header.instances.len() as u16;
    push_head(&mut table, count)?;
    table.extend_from_slice(names.records.as_slice())?;
    table.extend_from_slice(names.texts.as_slice())?;
    Ok(table)
}

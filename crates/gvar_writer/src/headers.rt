ghost use Rattle.std.specs.Prelude.{◌≡◌, ◌<◌, ◌≤◌, ◌++◌, length, IfSome, OnOk};
ghost use Rattle.std.specs.List.{list_all};
ghost use Rattle.gvar_writer.specs.TupleHeaders as spec;

use fixed_math::F2Dot14;
use font_ir::Region;
use refusal_codes::NoMemory;
use table_bytes::{push_int16, push_uint16};

/// The tuple has its peak in its header.
const EMBEDDED_PEAK_TUPLE: u16 = 0x8000;

/// The tuple has its region's start and end in its header.
const INTERMEDIATE_REGION: u16 = 0x4000;

/// The tuple's data begin with the points that it names.
const PRIVATE_POINT_NUMBERS: u16 = 0x2000;

/// Start, peak and end of a region on one axis.
type Side = (F2Dot14, F2Dot14, F2Dot14);

/// Appends where a region starts.
fn push_starts(bytes: &mut Vec<u8>, sides: &[Side]) -> Result<(), NoMemory>
    ensures { OnOk result (bytes.new.items ≡ bytes.old.items ++ spec.start_tuple sides.now) }
{
    for side in sides {
        push_int16(bytes, side.0.0)?;
    }
    Ok(())
}

/// Appends a region's peak.
pub fn push_peak(bytes: &mut Vec<u8>, sides: &[Side]) -> Result<(), NoMemory>
    ensures { OnOk result (bytes.new.items ≡ bytes.old.items ++ spec.peak_tuple sides.now) }
{
    for side in sides {
        push_int16(bytes, side.1.0)?;
    }
    Ok(())
}

/// Appends where a region ends.
fn push_ends(bytes: &mut Vec<u8>, sides: &[Side]) -> Result<(), NoMemory>
    ensures { OnOk result (bytes.new.items ≡ bytes.old.items ++ spec.end_tuple sides.now) }
{
    for side in sides {
        push_int16(bytes, side.2.0)?;
    }
    Ok(())
}

/// Whether two regions have one peak.
fn same_peaks(one: &[Side], other: &[Side]) -> bool
    ensures { result ≡ spec.same_peaks one.now other.now }
{
    if one.len() != other.len() {
        return false;
    }
    for (axis, side) in one.iter().enumerate() {
        if side.1.0 != other[axis].1.0 {
            return false;
        }
    }
    true
}

/// The number of a region's peak among the shared ones.
fn shared_number(shared: &[Region], region: &Region) -> Option<usize>
    ensures number { result ≡ spec.shared_number shared.now region.now }
    ensures within { IfSome result (λ number. number < length shared.now) }
{
    shared.iter().position(|other| same_peaks(other.sides.as_slice(), region.sides.as_slice()))
}

/// Whether a reader takes a region to start and to end there, on this axis, for its peak.
fn is_implied(side: Side) -> bool
    ensures { result ≡ spec.is_implied side }
{
    side.0.0 == side.1.0.min(0) && side.2.0 == side.1.0.max(0)
}

/// The same on each axis.
fn are_implied(sides: &[Side]) -> bool
    ensures { result ≡ list_all spec.is_implied sides.now }
{
    sides.iter().all(|side| is_implied(*side))
}

/// Whether a region's start and end have to be told.
fn is_intermediate(region: &Region) -> bool
    ensures { result ≡ spec.is_intermediate region.now }
{
    !are_implied(region.sides.as_slice())
}

/// The field tupleIndex of a region, whose peak has this number among the shared ones.
fn tuple_index(number: Option<usize>, intermediate: bool) -> u16
    requires { IfSome number (λ number. number < 4096) }
    ensures { result ≡ spec.tuple_index number intermediate }
{
    let peak = match number {
        Some(number) => number as u16,
        None => EMBEDDED_PEAK_TUPLE,
    };
    let ends = if intermediate { INTERMEDIATE_REGION } else { 0 };
    PRIVATE_POINT_NUMBERS + peak + ends
}

/// Appends a region's peak, unless it has a number among the shared ones.
fn push_embedded_peak(
    bytes: &mut Vec<u8>,
    number: Option<usize>,
    region: &Region,
) -> Result<(), NoMemory>
    ensures { OnOk result (bytes.new.items
        ≡ bytes.old.items ++ spec.embedded_peak number region.now) }
{
    match number {
        Some(_) => Ok(()),
        None => push_peak(bytes, region.sides.as_slice()),
    }
}

/// Appends where a region starts and ends, if that has to be told.
fn push_intermediate(
    bytes: &mut Vec<u8>,
    intermediate: bool,
    region: &Region,
) -> Result<(), NoMemory>
    ensures { OnOk result (bytes.new.items
        ≡ bytes.old.items ++ spec.intermediate_tuples intermediate region.now) }
{
    if !intermediate {
        return Ok(());
    }
    push_starts(bytes, region.sides.as_slice())?;
    push_ends(bytes, region.sides.as_slice())
}

/// Appends the header of a tuple with so many bytes of data (OpenType 1.9, "Tuple variation store",
/// "Tuple variation header").
#[tactic(auto, unfolding(crate::specs::TupleHeaders::tuple_header))]
pub fn push_header(
    bytes: &mut Vec<u8>,
    shared: &[Region],
    region: &Region,
    size: u16,
) -> Result<(), NoMemory>
    requires { length shared.now ≤ 4096 }
    ensures { OnOk result (bytes.new.items
        ≡ bytes.old.items ++ spec.tuple_header shared.now region.now size) }
{
    let number = shared_number(shared, region);
    let intermediate = is_intermediate(region);
    push_uint16(bytes, size)?;
    push_uint16(bytes, tuple_index(number, intermediate))?;
    push_embedded_peak(bytes, number, region)?;
    push_intermediate(bytes, intermediate, region)
}

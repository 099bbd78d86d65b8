ghost use Rattle.std.specs.Prelude.{◌≡◌, ◌≤◌, IfOk, codes};
ghost use Rattle.refusal_codes.specs.First.{noted, first_of};
ghost use Rattle.source_values.specs.Values.{natural_or};
ghost use Rattle.source_axes.specs.AxisReading.{axes_failures};
ghost use Rattle.source_values.specs.Asking.{optional};
ghost use Rattle.source_masters.specs.MasterReading.{units_per_em};
ghost use Rattle.glyphs_source.specs.HeaderReading.{version_failures, name_and_numbers_failures};
ghost use Rattle.glyphs_source.specs.HeaderReading.{design_failures, feature_forms_failures};
ghost use Rattle.glyphs_source.specs.HeaderReading.{top_failures, header_failures};
ghost use Rattle.glyphs_source.specs.HeaderReading.{count_failures, source_failure};

use plist_reader::Tree;
use refusal_codes::{Failure, FirstFailure, Rule};
use source_axes::{Instances, axis_numbers, note_axes, note_instance_counts, too_many_axes};
use source_masters::{
    FontParameters, Metrics, duplicate_master, no_master, note_axis_counts, note_masters,
    too_many_masters, unknown_origin,
};
use source_values::{
    Asked, EmptyDictionary, EmptyList, NameText, NaturalOr, decimal_at, is_dictionary, note_at,
    optional, optional_natural, required, required_natural,
};
use std::alloc::{AllocError, Global};

/// The numbers that a source gives of the whole font.
#[derive(Clone, Copy, Debug)]
pub struct Numbers {
    /// How many units its em has.
    pub units: u16,
    /// The first part of its version.
    pub major: u16,
    /// The second part of its version.
    pub minor: u16,
}

/// The numbers of the header, as it has them where nothing fails. Notes the local rules that the
/// header fails. The error is want of memory.
pub fn read_numbers(
    alloc: Global,
    tree: &Tree,
    first: &mut FirstFailure,
) -> Result<Numbers, AllocError>
    ensures units { IfOk result (λ numbers. numbers.units ≡ units_per_em tree.now) }
    ensures small { IfOk result (λ numbers. numbers.units ≤ 16384) }
    ensures major { IfOk result (λ numbers. numbers.major
        ≡ natural_or 0 32767 1 tree.now tree.now.top (codes "versionMajor")) }
    ensures minor { IfOk result (λ numbers. numbers.minor
        ≡ natural_or 0 999 0 tree.now tree.now.top (codes "versionMinor")) }
    ensures failures { IfOk result (λ _. first.new ≡ noted first.old (header_failures tree.now)) }
{
    if is_dictionary(tree, tree.top) {
        read_top(alloc, tree, tree.top, first)
    } else {
        note_at(tree, tree.top, Rule::WrongShape, first);
        Ok(Numbers {
            units: 16,
            major: 1,
            minor: 0,
        })
    }
}

/// What the top dictionary says of the whole font.
#[tactic(auto, using(refusal_codes::specs::FirstLaws::noting), unfolding(crate::specs::HeaderReading::top_failures))]
fn read_top(
    alloc: Global,
    tree: &Tree,
    top: u32,
    first: &mut FirstFailure,
) -> Result<Numbers, AllocError>
    requires { top ≡ tree.now.top }
    ensures units { IfOk result (λ numbers. numbers.units
        ≡ natural_or 16 16384 16 tree.now top (codes "unitsPerEm")) }
    ensures small { IfOk result (λ numbers. numbers.units ≤ 16384) }
    ensures major { IfOk result (λ numbers. numbers.major
        ≡ natural_or 0 32767 1 tree.now top (codes "versionMajor")) }
    ensures minor { IfOk result (λ numbers. numbers.minor
        ≡ natural_or 0 999 0 tree.now top (codes "versionMinor")) }
    ensures failures { IfOk result (λ _. first.new ≡ noted first.old (top_failures tree.now top)) }
{
    let numbers = read_name_and_numbers(tree, top, first);
    note_design(alloc, tree, top, first)?;
    note_feature_forms(tree, top, first);
    Ok(numbers)
}

#[tactic(auto, using(refusal_codes::specs::FirstLaws::noting), unfolding(crate::specs::HeaderReading::name_and_numbers_failures))]
fn read_name_and_numbers(tree: &Tree, top: u32, first: &mut FirstFailure) -> Numbers
    ensures units { result.units ≡ natural_or 16 16384 16 tree.now top (codes "unitsPerEm") }
    ensures small { result.units ≤ 16384 }
    ensures major { result.major ≡ natural_or 0 32767 1 tree.now top (codes "versionMajor") }
    ensures minor { result.minor ≡ natural_or 0 999 0 tree.now top (codes "versionMinor") }
    ensures failures { first.new ≡ noted first.old (name_and_numbers_failures tree.now top) }
{
    let units = NaturalOr {
        low: 16,
        high: 16384,
        missing: 16,
    };
    let major = NaturalOr {
        low: 0,
        high: 32767,
        missing: 1,
    };
    let minor = NaturalOr {
        low: 0,
        high: 999,
        missing: 0,
    };
    required(tree, top, b".formatVersion", &Version, first);
    let units = required_natural(tree, top, b"unitsPerEm", units, first);
    required(tree, top, b"familyName", &NameText, first);
    let major = optional_natural(tree, top, b"versionMajor", major, first);
    let minor = optional_natural(tree, top, b"versionMinor", minor, first);
    Numbers {
        units,
        major,
        minor,
    }
}

/// Notes what fails of the design space: axes, metrics, instances, the font's parameters, masters.
#[tactic(auto, using(refusal_codes::specs::FirstLaws::noting), unfolding(crate::specs::HeaderReading::design_failures))]
fn note_design(
    alloc: Global,
    tree: &Tree,
    top: u32,
    first: &mut FirstFailure,
) -> Result<(), AllocError>
    requires { top ≡ tree.now.top }
    ensures { IfOk result (λ _. first.new ≡ noted first.old (design_failures tree.now top)) }
{
    note_axes_under(alloc, tree, top, first)?;
    optional(tree, top, b"metrics", &Metrics, first);
    optional(tree, top, b"instances", &Instances, first);
    optional(tree, top, b"customParameters", &FontParameters, first);
    note_masters(tree, first);
    Ok(())
}

fn note_axes_under(
    alloc: Global,
    tree: &Tree,
    top: u32,
    first: &mut FirstFailure,
) -> Result<(), AllocError>
    ensures { IfOk result (λ _. first.new
        ≡ noted first.old (optional (codes "axes") axes_failures tree.now top)) }
{
    match tree.find(top, b"axes") {
        Some(number) => note_axes(alloc, tree, number, first),
        None => Ok(()),
    }
}

#[tactic(auto, using(refusal_codes::specs::FirstLaws::noting), unfolding(crate::specs::HeaderReading::feature_forms_failures))]
fn note_feature_forms(tree: &Tree, top: u32, first: &mut FirstFailure)
    ensures { first.new ≡ noted first.old (feature_forms_failures tree.now top) }
{
    optional(tree, top, b"classes", &EmptyList, first);
    optional(tree, top, b"featurePrefixes", &EmptyList, first);
    optional(tree, top, b"features", &EmptyList, first);
    optional(tree, top, b"kerningLTR", &EmptyDictionary, first);
}

/// The version of the format: 3.
#[derive(Clone, Copy)]
struct Version;

impl Asked for Version {
    ghost failures = { λ asked. version_failures };

    #[tactic(auto, unfolding(crate::specs::HeaderReading::version_failures))]
    fn note(&self, tree: &Tree, number: u32, first: &mut FirstFailure) {
        match decimal_at(tree, number) {
            None => note_at(tree, number, Rule::WrongShape, first),
            Some(version) => {
                if version.negative || version.whole != 3 || version.billionths != 0 {
                    note_at(tree, number, Rule::WrongVersion, first);
                }
            }
        }
    }
}

/// The first of the whole rules on counts, ids and the origin that fails.
#[tactic(auto, unfolding(crate::specs::HeaderReading::source_failure))]
pub fn source_failure(tree: &Tree) -> Option<Failure>
    ensures { result ≡ source_failure tree.now }
{
    if let Some(failure) = too_many_axes(tree) {
        return Some(failure);
    }
    if let Some(failure) = too_many_masters(tree) {
        return Some(failure);
    }
    if let Some(failure) = no_master(tree) {
        return Some(failure);
    }
    if let Some(failure) = duplicate_master(tree) {
        return Some(failure);
    }
    if let Some(failure) = count_failure(tree) {
        return Some(failure);
    }
    unknown_origin(tree)
}

/// The first master or kept instance, by place, that hasn't one coordinate per axis.
#[tactic(auto, using(refusal_codes::specs::FirstLaws::noting), unfolding(crate::specs::HeaderReading::count_failures))]
fn count_failure(tree: &Tree) -> Option<Failure>
    ensures { result ≡ first_of (count_failures tree.now) }
{
    let mut first = FirstFailure::new();
    let axes = axis_numbers(tree).len();
    note_axis_counts(tree, axes, &mut first);
    note_instance_counts(tree, axes, &mut first);
    first.get()
}

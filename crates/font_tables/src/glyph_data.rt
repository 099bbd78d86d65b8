ghost use Rattle.std.specs.Prelude.{◌≡◌, IfOk};
ghost use Rattle.refusal_codes.specs.Gives.{Gives};
ghost use Rattle.font_ir.specs.FlatGlyphs.{IsFlatGlyph};
ghost use Rattle.font_ir.specs.Headers.{IsHeader};
ghost use Rattle.font_ir.specs.Places.{AreGlyphPlaces};
ghost use Rattle.font_tables.specs.Variations as spec;

use font_ir::{FlatGlyph, Header, Name, locations_of, made_notdef_is_flat};
use gvar_writer::glyph_variations;
use refusal_codes::{Failure, NoMemory, ReadError, Rule, job};
use std::alloc::Global;
use variation_model::{DeltaError, Model};

/// The variation model of the header's masters, in their order.
pub fn masters_model(alloc: Global, header: &Header) -> Result<Model, NoMemory>
    requires { IsHeader header.now }
    ensures model { IfOk result (λ model. model ≡ spec.places_of header.now) }
    ensures places { AreGlyphPlaces (spec.places_of header.now) }
{
    made_notdef_is_flat();
    let places = locations_of(alloc, header.masters.as_slice())?;
    Model::new(alloc, places.as_slice())
}

/// The variation data of a glyph with this name, in a font whose masters have the model `masters`.
/// The model of the glyph's own places is `own`. A glyph that doesn't vary has no bytes.
///
/// # Errors
///
/// `Refused` exactly where a delta of a point is outside an `i16`, unless memory ran out: of the
/// job of the glyph's variations, at the glyph's place.
pub fn variations_over(
    alloc: Global,
    masters: &Model,
    own: &Model,
    name: &Name,
    glyph: &FlatGlyph,
) -> Result<Vec<u8>, ReadError>
    requires masters { AreGlyphPlaces masters.now }
    requires own { own.now ≡ glyph.now.places }
    requires flat { IsFlatGlyph glyph.now }
    ensures { Gives (λ bytes. bytes.items) result
        (spec.variations_over (spec.regions_behind masters.now) name.now glyph.now) }
{
    let shared = &masters.supports()[1..];
    match glyph_variations(alloc, shared, own, glyph) {
        Ok(bytes) => Ok(bytes),
        Err(DeltaError::TooLarge { .. }) => {
            let failure = Failure {
                rule: Rule::DeltaTooLarge,
                place: glyph.place,
            };
            Err(failure.refused(job::VARIATIONS, name.copy(alloc)?))
        }
        Err(DeltaError::NoMemory) => Err(ReadError::NoMemory),
    }
}

/// The variation data of a glyph with this name, in a font with this header: its data in the table
/// `gvar` (OpenType 1.9, "gvar", "Glyph variation data"). A glyph that doesn't vary has no bytes.
///
/// # Errors
///
/// `Refused` exactly where a delta of a point is outside an `i16`, unless memory ran out: of the
/// job of the glyph's variations, at the glyph's place.
pub fn variations(
    alloc: Global,
    header: &Header,
    name: &Name,
    glyph: &FlatGlyph,
) -> Result<Vec<u8>, ReadError>
    requires header { IsHeader header.now }
    requires flat { IsFlatGlyph glyph.now }
    ensures { Gives (λ bytes. bytes.items) result
        (spec.variations_of header.now name.now glyph.now) }
{
    let masters = masters_model(alloc, header)?;
    let own = Model::new(alloc, glyph.places.as_slice())?;
    variations_over(alloc, &masters, &own, name, glyph)
}

//! What a source's values say: texts, decimals, lists and keys of a property list, and what each
//! kind of value fails.
#![tactic(auto)]

mod asking;
mod decimals;
mod kinds;
mod naturals;
mod values;

pub use asking::{Asked, Dictionary, Each, optional, required};
pub use decimals::{Decimal, texts_spell_their_decimals};
pub use kinds::{AnyDictionary, EmptyDictionary, EmptyList, NameText, PlainText, Range, Whole};
pub use naturals::{NaturalOr, optional_natural, required_natural};
pub use values::{
    copied, decimal_at, decimal_under, is_dictionary, is_list, is_word, items_at, items_under,
    note_at, place_at, text_at, text_under,
};

// The terms of an error.
ghost use Rattle.std.specs.Prelude.{◌<◌, ◌≤◌, length};
ghost use Rattle.rs_algebra.specs.Words.{Places};
ghost use Rattle.reed_solomon.specs.Repairs.{places_of};

use field::Field;
use std::marker::PhantomData;

// A value at a place of a word.
#[derive(Clone, Copy, PartialEq)]
pub(crate) struct Term {
    pub(crate) place: u8,
    pub(crate) value: u8,
}

// An error pattern: terms in a word of `word` octets over a field, each at a place of its own.
#[derive(Drop)]
pub(crate) struct Pattern<'a, F: Field> {
    pub(crate) field: PhantomData<F>,
    pub(crate) word: usize,
    pub(crate) terms: &'a [Term],
    ghost fits: { word < F.Field.field.size },
    ghost few: { length terms.now ≤ 8 },
    ghost places: { Places word (places_of terms.now) },
}

// The value of an error at each of some places, from the syndromes.
ghost use Rattle.std.specs.Prelude.{◌≡◌, ℕ, ◌+◌, ◌<◌, ◌≤◌, List, ◌++◌, length, slice_index};
ghost use Rattle.rs_algebra.specs.Polynomials.{Elements, times_root, zeros};
ghost use Rattle.rs_algebra.specs.Words.{Missing, Places, ValueFor};
ghost use Rattle.reed_solomon.specs.Repairs.{Valued, places_of, values_of};

use crate::bounds::MOST_REPAIRS;
use crate::linear::weighed_sum;
use crate::places::{low_value, place_locator};
use crate::received::Received;
use crate::terms::{Pattern, Term};
use field::Field;
use std::marker::PhantomData;

impl<F: Field> Received<'_, F> {
    // Stays with clauses on the terms, here and in repair.rt: they are written, and a struct that lends them to write can hold no ghost field.
    // Sets the values that an error with these syndromes has if it is nowhere but at the terms' places of the word.
    pub(crate) fn error_values(&self, syndromes: &[u8], terms: &mut [Term])
        requires places { Places (length self.now.octets.now) (places_of terms.old) }
        requires most { length terms.old ≤ 8 }
        ensures places { places_of terms.new ≡ places_of terms.old }
        ensures values { Valued F.Field.field (length self.now.octets.now) syndromes.now (places_of terms.old) (values_of terms.new) }
        ensures elements { Elements F.Field.field (values_of terms.new) }
    {
        // Stays by index: each value is found from the places of all terms, which `terms.iter_mut()` would hold borrowed.
        for i in 0..terms.len() {
            let pattern = Pattern::<F> {
                field: PhantomData,
                word: self.octets.len(),
                terms,
            };
            let value = pattern.value_at(syndromes, terms[i].place);
            terms[i].value = value;
        }
    }
}

impl<F: Field> Pattern<'_, F> {
    // The value at one of the places: the syndromes weighed by a polynomial that vanishes at all the others, divided by its value here.
    fn value_at(&self, syndromes: &[u8], place: u8) -> u8
        requires among { (i : ℕ) × (i < length (places_of self.now.terms.now)) × (slice_index (places_of self.now.terms.now) i ≡ place) }
        ensures { ValueFor F.Field.field self.now.word (λ j. slice_index syndromes.now j) (places_of self.now.terms.now) place result }
    {
        // Stays a room of fixed length: nothing here allocates, and no crate is used but std.
        let mut room = [0; MOST_REPAIRS];
        let polynomial = &mut room[..self.terms.len()];
        self.vanishing_elsewhere(place, polynomial);
        let here = low_value::<F>(polynomial, place_locator::<F>(self.word, place as usize));
        F::times(weighed_sum::<F>(polynomial, syndromes), F::inverse(here))
    }

    // Writes a polynomial, lowest power first, that vanishes at the locators of all the places but one.
    fn vanishing_elsewhere(&self, place: u8, polynomial: &mut [u8])
        requires among { (i : ℕ) × (i < length (places_of self.now.terms.now)) × (slice_index (places_of self.now.terms.now) i ≡ place) }
        requires room { length self.now.terms.now ≡ length polynomial.old }
        ensures { Missing F.Field.field self.now.word place (places_of self.now.terms.now) polynomial.new }
    {
        polynomial.fill(0);
        polynomial[0] = 1;
        for other in self.terms {
            if other.place != place {
                let locator = place_locator::<F>(self.word, other.place as usize);
                times_root::<F>(polynomial, locator);
            }
        }
    }
}

// Multiplies by x + root, in place: lowest power first, with room behind the last coefficient.
// Stays beside the generator's `add_root`: there the highest power comes first, and the other of two coefficients is multiplied.
fn times_root<F: Field>(polynomial: &mut [u8], root: u8)
    ensures { (p : List ℕ) (n : ℕ) → polynomial.old ≡ p ++ zeros (n + 1) → polynomial.new ≡ times_root F.Field.field root p ++ zeros n }
{
    let mut below = 0;
    for coefficient in polynomial.iter_mut() {
        let here = *coefficient;
        *coefficient = F::times(root, here) ^ below;
        below = here;
    }
}

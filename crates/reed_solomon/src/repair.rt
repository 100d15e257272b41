// From the syndromes of a spoilt word and a locator polynomial to its message.
ghost use Rattle.std.specs.Prelude.{◌≡◌, ℕ, ◌<◌, ◌≤◌, length, slice_index};
ghost use Rattle.rs_algebra.specs.Polynomials.{Elements};
ghost use Rattle.rs_algebra.specs.Words.{Places};
ghost use Rattle.reed_solomon.specs.Repairs.{Repaired, RepairedAt, Valued, places_of, values_of};

use crate::bounds::MOST_REPAIRS;
use crate::mending::{count_nonzero, mend_message};
use crate::received::Received;
use crate::terms::{Pattern, Term};
use field::Field;
use std::marker::PhantomData;

impl<F: Field> Received<'_, F> {
    // Writes the message of a word with these syndromes, repaired at the places that the locator polynomial names. Answers how
    // many octets of the word were wrong, or nothing if such an error does not account for the syndromes. The syndromes are used up.
    pub(crate) fn repair(
        &self,
        syndromes: &mut [u8],
        locator: &[u8],
        message: &mut [u8],
    ) -> Option<usize>
        requires elements { Elements F.Field.field locator.now }
        requires some { (i : ℕ) × (0 < slice_index locator.now i) }
        requires room { length locator.now ≤ 9 }
        requires front { length message.old ≤ length self.now.octets.now }
        ensures { Repaired F.Field.field self.now.octets.now syndromes.old locator.now message.old message.new result }
    {
        // Stays a room of fixed length: nothing here allocates, and no crate is used but std.
        let mut terms = [Term { place: 0, value: 0 }; MOST_REPAIRS];
        let count = self.root_places(locator, &mut terms);
        self.repair_at(syndromes, &mut terms[..count], message)
    }

    // The same at the places of given terms, whose values are found.
    fn repair_at(
        &self,
        syndromes: &mut [u8],
        terms: &mut [Term],
        message: &mut [u8],
    ) -> Option<usize>
        requires places { Places (length self.now.octets.now) (places_of terms.old) }
        requires few { length terms.old ≤ 8 }
        requires front { length message.old ≤ length self.now.octets.now }
        ensures places { places_of terms.new ≡ places_of terms.old }
        ensures values { Valued F.Field.field (length self.now.octets.now) syndromes.old (places_of terms.old) (values_of terms.new) }
        ensures elements { Elements F.Field.field (values_of terms.new) }
        ensures answer { RepairedAt F.Field.field self.now.octets.now (places_of terms.old) (values_of terms.new) syndromes.old message.old message.new result }
    {
        self.error_values(syndromes, terms);
        let pattern = Pattern::<F> {
            field: PhantomData,
            word: self.octets.len(),
            terms,
        };
        if !pattern.accounts_for(syndromes) {
            return None;
        }
        message.copy_from_slice(&self.octets[..message.len()]);
        mend_message(message, terms);
        Some(count_nonzero(terms))
    }
}

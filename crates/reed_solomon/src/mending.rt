// Terms, each a value at a place: whether they make up the syndromes, and what they mend.
ghost use Rattle.std.specs.Prelude.{◌≡◌, ℕ, ◌<◌, true, false, length, bit_xor, slice_index};
ghost use Rattle.field.specs.Field.{raised};
ghost use Rattle.rs_algebra.specs.Polynomials.{Elements};
ghost use Rattle.rs_algebra.specs.Words.{mend, terms_at, weight};
ghost use Rattle.reed_solomon.specs.Repairs.{Passes, places_of, values_of};

use crate::linear::is_zero;
use crate::places::place_locator;
use crate::terms::{Pattern, Term};
use field::Field;

impl<F: Field> Pattern<'_, F> {
    // Whether the error has these syndromes: its own are added to them, and where it has, nothing is left.
    pub(crate) fn accounts_for(&self, syndromes: &mut [u8]) -> bool
        requires elements { Elements F.Field.field (values_of self.now.terms.now) }
        ensures passes { result ≡ true → Passes F.Field.field self.now.word (places_of self.now.terms.now) (values_of self.now.terms.now) syndromes.old }
        ensures fails { result ≡ false → Passes F.Field.field self.now.word (places_of self.now.terms.now) (values_of self.now.terms.now) syndromes.old → ⊥ }
    {
        self.add_terms(syndromes);
        is_zero(syndromes)
    }

    // Adds the syndromes of the error: one running power for each term.
    fn add_terms(&self, sums: &mut [u8])
        requires elements { Elements F.Field.field (values_of self.now.terms.now) }
        ensures { (j : ℕ) → j < length sums.new → slice_index sums.new j ≡ bit_xor (slice_index sums.old j) (terms_at F.Field.field self.now.word (places_of self.now.terms.now) (values_of self.now.terms.now) j) }
    {
        for term in self.terms {
            let locator = place_locator::<F>(self.word, term.place as usize);
            add_term::<F>(term.value, locator, sums);
        }
    }
}

// Adds value·x^j to each sum j.
fn add_term<F: Field>(value: u8, x: u8, sums: &mut [u8])
    requires { value < F.Field.field.size }
    ensures { (j : ℕ) → j < length sums.new → slice_index sums.new j ≡ bit_xor (slice_index sums.old j) (F.Field.field.times value (raised F.Field.field.times x j)) }
{
    let mut term = value;
    for sum in sums.iter_mut() {
        *sum ^= term;
        term = F::times(x, term);
    }
}

// Adds the values at the places. A place behind the end, where a word's check octets are, is passed over.
pub(crate) fn mend_message(message: &mut [u8], terms: &[Term])
    ensures { message.new ≡ mend message.old (places_of terms.now) (values_of terms.now) }
{
    for term in terms {
        let place = term.place as usize;
        // Stays by index: of what is written through `get_mut` a proof knows the length alone.
        if place < message.len() {
            message[place] ^= term.value;
        }
    }
}

// How many of the terms have a value that is not 0.
#[tactic(auto, using(crate::proofs::OneMore::weight_counted))]
pub(crate) fn count_nonzero(terms: &[Term]) -> usize
    ensures { result ≡ weight (values_of terms.now) }
{
    terms.iter().filter(|term| term.value != 0).count()
}

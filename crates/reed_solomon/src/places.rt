// The places of a word that a locator polynomial names.
ghost use Rattle.std.specs.Prelude.{◌≡◌, ℕ, ◌+◌, ◌<◌, ◌≤◌, length, take, slice_index};
ghost use Rattle.rs_algebra.specs.Polynomials.{Elements, low_at};
ghost use Rattle.rs_algebra.specs.Words.{Places, locator};
ghost use Rattle.reed_solomon.specs.Repairs.{places_of};
ghost use Rattle.reed_solomon.specs.Roots.{RootPlaces};

use crate::received::Received;
use crate::terms::Term;
use field::Field;

impl<F: Field> Received<'_, F> {
    // The places of the word at whose locators a polynomial, lowest power first and not 0, vanishes: they fill the
    // front of `terms`, in rising order, with no values yet. Returns how many there are.
    pub(crate) fn root_places(&self, locator: &[u8], terms: &mut [Term]) -> usize
        requires elements { Elements F.Field.field locator.now }
        requires some { (i : ℕ) × (0 < slice_index locator.now i) }
        requires room { length locator.now ≤ length terms.old + 1 }
        ensures few { result < length locator.now }
        ensures long { result ≤ length terms.new }
        ensures roots { RootPlaces F.Field.field (length self.now.octets.now) locator.now (length self.now.octets.now) (places_of (take result terms.new)) }
        ensures places { Places (length self.now.octets.now) (places_of (take result terms.new)) }
    {
        let word = self.octets.len();
        // Stays with a count: of what is written through a `zip` with `iter_mut` a proof knows the length alone, and a list that grows needs a heap or a crate beside std.
        let mut count = 0;
        for place in 0..word {
            if low_value::<F>(locator, place_locator::<F>(word, place)) == 0 {
                terms[count] = Term {
                    place: place as u8,
                    value: 0,
                };
                count += 1;
            }
        }
        count
    }
}

// The locator of a place of a word of `word` octets.
pub(crate) fn place_locator<F: Field>(word: usize, place: usize) -> u8
    requires fits { word < F.Field.field.size }
    requires inside { place < word }
    ensures { result ≡ locator F.Field.field word place }
{
    F::power((word - 1 - place) as u8)
}

// The value of a polynomial, lowest power first.
pub(crate) fn low_value<F: Field>(polynomial: &[u8], x: u8) -> u8
    ensures { result ≡ low_at F.Field.field polynomial.now x }
{
    polynomial
        .iter()
        .rev()
        .fold(0, |sum, coefficient| *coefficient ^ F::times(x, sum))
}

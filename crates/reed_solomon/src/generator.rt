// The generator polynomial, whose roots are the first powers of alpha.
ghost use Rattle.std.specs.Prelude.{◌≡◌, ℕ, ◌+◌, ◌≤◌, List, [], ◌∷◌, ◌++◌, take};
ghost use Rattle.field.specs.Field.{power};
ghost use Rattle.rs_algebra.specs.Polynomials.{Elements, zeros, product, generator};

use crate::bounds::MOST_COEFFICIENTS;
use field::Field;

// Multiplies by D + root, in place: highest power first, with room behind the last coefficient.
fn add_root<F: Field>(polynomial: &mut [u8], root: u8)
    ensures { (p : List ℕ) (n : ℕ) → Elements F.Field.field p → polynomial.old ≡ p ++ zeros (n + 1) → polynomial.new ≡ product F.Field.field p (1 ∷ root ∷ []) ++ zeros n }
{
    let mut before = 0;
    for coefficient in polynomial.iter_mut() {
        let here = *coefficient;
        *coefficient = here ^ F::times(root, before);
        before = here;
    }
}

// Root i.
// Stays a function: the edit `roots_from_the_next_power` must be refused at its line, and not in the answers of the loop below.
fn root<F: Field>(i: u8) -> u8
    ensures { result ≡ power F.Field.field i }
{
    F::power(i)
}

// Highest power first, in the first `check` + 1 places.
pub(crate) fn generator_polynomial<F: Field>(check: usize) -> [u8; MOST_COEFFICIENTS]
    requires { check ≤ 16 }
    ensures { take (check + 1) result ≡ generator F.Field.field check }
{
    // Stays a room of fixed length: nothing here allocates, and a slice of the length that is needed took twice as long.
    let mut polynomial = [0; MOST_COEFFICIENTS];
    polynomial[0] = 1;
    for i in 0..check as u8 {
        add_root::<F>(&mut polynomial, root::<F>(i));
    }
    polynomial
}

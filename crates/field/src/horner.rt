// The value of a polynomial, over any field.
ghost use Rattle.std.specs.Prelude.{◌≡◌};
ghost use Rattle.field.specs.Polynomials.{value_at};

use crate::field::Field;

// Coefficients from the highest power on; one product for each of them, and one that makes an element of the sum.
pub fn value_at<F: Field>(polynomial: &[u8], x: u8) -> u8
    ensures { result ≡ value_at F.Field.field polynomial.now x }
{
    horner::<F>(polynomial, x)
}

// Stays a worker of `value_at`: the edit `value_elsewhere` must be refused at that function's line, and not in the answers of this loop.
#[tactic(auto, using(crate::proofs::Facts::times_zero, crate::proofs::Facts::horner_step), unfolding(crate::specs::Polynomials::value_at))]
fn horner<F: Field>(polynomial: &[u8], x: u8) -> u8
    ensures { result ≡ value_at F.Field.field polynomial.now x }
{
    let mut sum = 0;
    for coefficient in polynomial.iter() {
        sum = F::times(x, sum) ^ *coefficient;
    }
    F::times(1, sum)
}

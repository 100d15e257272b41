// Lists over a field and their combinations.
ghost use Rattle.std.specs.Prelude.{◌≡◌, length, slice_index, ◌==◌};
ghost use Rattle.std.specs.List.{list_all};
ghost use Rattle.rs_algebra.specs.Polynomials.{plus, scaled, weighed};

use field::Field;

// Whether all octets are 0.
pub(crate) fn is_zero(octets: &[u8]) -> bool
    ensures { result ≡ list_all (λ octet. octet == 0) octets.now }
{
    octets.iter().all(|octet| *octet == 0)
}

// The sum of the numbers at the front, each times its weight; a number past the end counts as 0.
pub(crate) fn weighed_sum<F: Field>(weights: &[u8], numbers: &[u8]) -> u8
    ensures { result ≡ weighed F.Field.field weights.now (λ j. slice_index numbers.now j) 0 }
{
    weights.iter().zip(numbers).fold(0, |sum, (weight, number)| sum ^ F::times(*weight, *number))
}

// Adds `factor` times the other list.
pub(crate) fn add_multiple<F: Field>(list: &mut [u8], factor: u8, other: &[u8])
    requires { length list.old ≡ length other.now }
    ensures { list.new ≡ plus list.old (scaled F.Field.field factor other.now) }
{
    // Stays with `other[i]`: of what is written through a `zip` with `iter_mut` a proof knows the length alone.
    for (i, number) in list.iter_mut().enumerate() {
        *number ^= F::times(factor, other[i]);
    }
}

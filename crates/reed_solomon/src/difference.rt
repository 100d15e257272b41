// How far the check octets received are from those of the octets before them.
ghost use Rattle.std.specs.Prelude.{◌≡◌, length};
ghost use Rattle.rs_algebra.specs.Polynomials.{plus};
ghost use Rattle.rs_algebra.specs.Words.{check_difference};

use crate::checks::Checks;

// Adds octets, place by place.
#[tactic(auto, using(crate::proofs::Sums::sum_more, crate::proofs::Sums::sum_done))]
fn add(sum: &mut [u8], octets: &[u8])
    requires { length sum.old ≡ length octets.now }
    ensures { sum.new ≡ plus sum.old octets.now }
{
    // Stays by index: of what is written through a `zip` with `iter_mut` a proof knows the length alone. Octets need not be elements, so this is no `add_multiple`.
    for (k, octet) in octets.iter().enumerate() {
        sum[k] ^= *octet;
    }
}

// All 0 where the word is that of its first octets.
#[tactic(auto, using(std::proofs::lemmas::List::take_rest), unfolding(rs_algebra::specs::Words::check_difference))]
pub(crate) fn check_difference<C: Checks>(coder: &C, received: &[u8], difference: &mut [u8])
    requires { (length difference.old ≡ (C.numbers coder.now).check) × (length received.now ≡ (C.numbers coder.now).sizes.word) }
    ensures { difference.new ≡ check_difference C.Over.Field.field (C.numbers coder.now).sizes.frame (length difference.old) received.now }
{
    let frame = coder.numbers().sizes.frame;
    coder.check_octets(&received[..frame], difference);
    add(difference, &received[frame..]);
}

// A Reed-Solomon coder over a field. A value of this type exists only with numbers that fit each other.
ghost use Rattle.std.specs.Prelude.{◌≡◌, ◌+◌, ◌/◌, ◌%◌, ◌≤◌};

use coder::Sizes;
use std::marker::PhantomData;

#[derive(Drop)]
pub struct ReedSolomon<F> {
    pub(crate) field: PhantomData<F>,
    pub(crate) sizes: Sizes,
    // R, the check octets of a word
    pub(crate) check: usize,
    ghost word: { sizes.word ≡ sizes.frame + check },
    ghost repairs: { sizes.repairs ≡ check / 2 },
    ghost even: { (check % 2 ≡ 0) × (check ≤ 16) },
}

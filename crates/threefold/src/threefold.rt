// A threefold coder. A value of this type exists only with sizes that belong to it.
ghost use Rattle.std.specs.Prelude.{◌≡◌, ◌*◌, ◌++◌, length};
ghost use Rattle.coder.specs.Codes.{Octets};

use coder::Sizes;

mod accepted;
pub mod coding;
mod copies;

#[derive(Clone, Copy, PartialEq, Eq, Debug)]
pub struct Threefold {
    sizes: Sizes,
    ghost long: { sizes.word ≡ 3 * sizes.frame },
    ghost single: { sizes.repairs ≡ 1 },
}

// A received word of a coder as the copies in it.
#[derive(Clone, Copy)]
struct Thirds<'a> {
    coder: Threefold,
    first: &'a [u8],
    second: &'a [u8],
    third: &'a [u8],
    ghost one: { length first.now ≡ coder.sizes.frame },
    ghost two: { length second.now ≡ coder.sizes.frame },
    ghost three: { length third.now ≡ coder.sizes.frame },
    ghost octets: { Octets (first.now ++ second.now ++ third.now) },
}

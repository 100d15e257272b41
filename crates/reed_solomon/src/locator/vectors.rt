// The vectors of an elimination.
ghost use Rattle.std.specs.Prelude.{◌≤◌};

use crate::bounds::MOST_UNKNOWNS;

// `kept` vectors of `width` coefficients each, at the front of the first rows.
// Stays with lengths beside the rows: nothing here allocates, no crate is used but std, and this struct is what owns all three.
#[derive(Drop)]
pub(crate) struct Vectors {
    pub(crate) rows: [[u8; MOST_UNKNOWNS]; MOST_UNKNOWNS],
    pub(crate) width: usize,
    pub(crate) kept: usize,
    ghost fits: { width ≤ 9 },
    ghost within: { kept ≤ width },
}

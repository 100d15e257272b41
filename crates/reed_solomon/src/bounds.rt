// The lengths of the longest lists: all follow from how many octets of a word may be check octets.
use coder::sizes::MOST_CHECK;

// Coefficients of a generator polynomial.
pub(crate) const MOST_COEFFICIENTS: usize = MOST_CHECK + 1;

// Octets that are repaired, and coefficients of a locator polynomial.
pub(crate) const MOST_REPAIRS: usize = MOST_CHECK / 2;

pub(crate) const MOST_UNKNOWNS: usize = MOST_REPAIRS + 1;

// Why a request was refused. What a user sees is the number; docs/refusals.md has the list.
ghost use Rattle.std.specs.Prelude.{◌≡◌, Some, decimal};
ghost use Rattle.coder.specs.Refusals.{number_of};

use std::fmt;

#[derive(Clone, Copy, PartialEq, Eq, Debug)]
pub enum Refusal {
    // frame, check or word octets are outside the coder's range
    UnfitSizes = 1,
    // the block length is 0 or does not divide the word
    UnevenBlocks = 2,
    // the interleaver's step or its delay memory is too large
    TooDeep = 3,
    // the input is not five octets, or names no coder
    Unreadable = 4,
}

impl Refusal {
    pub fn number(self) -> u8
        ensures { result ≡ number_of self }
    {
        self as u8
    }
}

impl fmt::Display for Refusal {
    ghost output = { λ refusal. Some (decimal (number_of refusal)) };

    fn fmt<W: fmt::Write>(&self, f: &mut fmt::Formatter<W>) -> fmt::Result {
        let number = self.number();
        write!(f, "{number}")
    }
}

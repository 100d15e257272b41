// What arrives at a line place: an octet, or the mark that the demodulator lost it.
ghost use Rattle.std.specs.Prelude.{◌≡◌};
ghost use Rattle.coder.specs.Arrivals.{value_of};

// Stays an enum of its own: the project's calls name arrivals so, and `Lost` says what None would not.
#[derive(Clone, Copy, PartialEq, Eq, Debug)]
pub enum Arrival {
    Octet(u8),
    Lost,
}

impl Arrival {
    // The octet to decode: a lost one counts as 00.
    pub fn value(self) -> u8
        ensures { result ≡ value_of self }
    {
        match self {
            Arrival::Octet(octet) => octet,
            Arrival::Lost => 0,
        }
    }
}

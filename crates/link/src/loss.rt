// A word that was received and gave no frame: what lost it, and which word it was.
ghost use Rattle.std.specs.Prelude.{◌≡◌};
ghost use Rattle.link.specs.Losses.{cause_number, unreceived_number};
ghost use Rattle.link.specs.declared.loss.Unreceived.TheVariants.{Refused as NotTaken};

use crate::refused::Refused;
use coder::Undecoded;

#[derive(Clone, Copy, PartialEq, Eq, Debug)]
pub enum Cause {
    // no message was near; so many of the word's arrivals were marked lost
    Coder(usize),
    // the word before was lost by the coder, so the scrambler's earlier bits were not known
    Scrambler,
}

#[derive(Clone, Copy, PartialEq, Eq, Debug)]
pub struct Loss {
    pub cause: Cause,
    // the word's number
    pub word: usize,
}

// Why a receive handed out no frame.
#[derive(Clone, Copy, PartialEq, Eq, Debug)]
pub enum Unreceived {
    Refused(Refused),
    Lost(Loss),
}

impl From<Refused> for Unreceived {
    ghost from_gives = { λ e r. r ≡ NotTaken e };

    fn from(refused: Refused) -> Unreceived {
        Unreceived::Refused(refused)
    }
}

impl Cause {
    // Stays a match: `as` takes an enum only where no case has a value.
    pub fn number(self) -> u8
        ensures { result ≡ cause_number self }
    {
        match self {
            Cause::Coder(_) => Undecoded::Lost.number(),
            Cause::Scrambler => 9,
        }
    }
}

impl Unreceived {
    // Stays a match: `as` takes an enum only where no case has a value.
    pub fn number(self) -> u8
        ensures { result ≡ unreceived_number self }
    {
        match self {
            Unreceived::Refused(refused) => refused.number(),
            Unreceived::Lost(loss) => loss.cause.number(),
        }
    }
}

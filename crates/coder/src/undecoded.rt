// Why a received word gave no message: a refusal of the lengths, or a loss.
ghost use Rattle.std.specs.Prelude.{◌≡◌};
ghost use Rattle.coder.specs.Losses.{undecoded_number};
ghost use Rattle.coder.specs.declared.undecoded.Undecoded.TheVariants.{Unfit};

use crate::misfit::Misfit;

#[derive(Clone, Copy, PartialEq, Eq, Debug)]
pub enum Undecoded {
    Unfit(Misfit),
    // no message is within t places
    Lost,
}

impl Undecoded {
    // Stays a match: `as` takes an enum only where no case has a value.
    pub fn number(self) -> u8
        ensures { result ≡ undecoded_number self }
    {
        match self {
            Undecoded::Unfit(misfit) => misfit.number(),
            Undecoded::Lost => 8,
        }
    }
}

impl From<Misfit> for Undecoded {
    ghost from_gives = { λ misfit undecoded. undecoded ≡ Unfit misfit };

    fn from(misfit: Misfit) -> Undecoded {
        Self::Unfit(misfit)
    }
}

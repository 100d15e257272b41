// Why a call of an end was refused. docs/refusals.md has the list.
ghost use Rattle.std.specs.Prelude.{◌≡◌};
ghost use Rattle.link.specs.Refusals.{refused_number};
ghost use Rattle.link.specs.declared.refused.Refused.TheVariants.{Unfit};

use coder::Misfit;

#[derive(Clone, Copy, PartialEq, Eq, Debug)]
pub enum Refused {
    // a send or a receive past the last word of a run
    PastLastWord,
    // a fill or a drain when none remains, or a start or a close while some remain
    OutOfTurn,
    // something lent has another length than the setting says
    Unfit(Misfit),
}

impl Refused {
    // Stays a match: `as` takes an enum only where no case has a value.
    pub fn number(self) -> u8
        ensures { result ≡ refused_number self }
    {
        match self {
            Refused::PastLastWord => 10,
            Refused::OutOfTurn => 11,
            Refused::Unfit(misfit) => misfit.number(),
        }
    }
}

impl From<Misfit> for Refused {
    ghost from_gives = { λ e r. r ≡ Unfit e };

    fn from(misfit: Misfit) -> Refused {
        Refused::Unfit(misfit)
    }
}

// The coders that a setting can name, by the octet that names them.
ghost use Rattle.std.specs.Prelude.{◌≡◌};
ghost use Rattle.coder.specs.Kinds.{kind_of, sizes_of_kind};
ghost use Rattle.coder.specs.Sizes.{told};

use crate::refusal::Refusal;
use crate::sizes::Sizes;

#[derive(Clone, Copy, PartialEq, Eq, Debug)]
pub enum Kind {
    ReedSolomon,
    Threefold,
}

impl TryFrom<u8> for Kind {
    type Error = Refusal;

    ghost try_from_gives = { λ octet answer. answer ≡ kind_of octet };

    fn try_from(octet: u8) -> Result<Kind, Refusal> {
        match octet {
            0 => Ok(Kind::ReedSolomon),
            1 => Ok(Kind::Threefold),
            _ => Err(Refusal::Unreadable),
        }
    }
}

impl Kind {
    // The sizes of a coder of this kind.
    pub fn sizes(self, frame: usize, check: usize) -> Result<Sizes, Refusal>
        ensures { told result ≡ sizes_of_kind self frame check }
    {
        match self {
            Kind::ReedSolomon => Sizes::reed_solomon(frame, check),
            Kind::Threefold => Sizes::threefold(frame, check),
        }
    }
}

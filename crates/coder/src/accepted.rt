// Which sizes are accepted, coder by coder. Numbers far out of range are refused like any other.
ghost use Rattle.std.specs.Prelude.{◌≡◌};
ghost use Rattle.coder.specs.Sizes.{told, reed_solomon_sizes, threefold_sizes, any_coder_sizes};

use crate::refusal::Refusal;
use crate::sizes::{LONGEST_WORD, MOST_CHECK, Sizes};

const SHORTEST_FRAME: usize = 3;

const LONGEST_THREEFOLD: usize = LONGEST_WORD / 3;

impl Sizes {
    // Reed-Solomon with `check` check octets.
    pub fn reed_solomon(frame: usize, check: usize) -> Result<Sizes, Refusal>
        ensures { told result ≡ reed_solomon_sizes frame check }
    {
        if check > MOST_CHECK || check % 2 != 0 || frame > LONGEST_WORD {
            return Err(Refusal::UnfitSizes);
        }
        Sizes::of_coder(frame, frame + check, check / 2)
    }

    // The frame three times over; `check` is there for the sake of a common form and must be 0.
    pub fn threefold(frame: usize, check: usize) -> Result<Sizes, Refusal>
        ensures { told result ≡ threefold_sizes frame check }
    {
        if frame > LONGEST_THREEFOLD || check != 0 {
            return Err(Refusal::UnfitSizes);
        }
        Sizes::of_coder(frame, 3 * frame, 1)
    }

    // A coder of another make, by its own numbers.
    pub fn of_coder(frame: usize, word: usize, repairs: usize) -> Result<Sizes, Refusal>
        ensures { told result ≡ any_coder_sizes frame word repairs }
    {
        if frame < SHORTEST_FRAME || word < frame || word > LONGEST_WORD {
            return Err(Refusal::UnfitSizes);
        }
        if repairs > (word - 1) / 2 {
            return Err(Refusal::UnfitSizes);
        }
        Ok(Sizes {
            frame,
            word,
            repairs,
        })
    }
}

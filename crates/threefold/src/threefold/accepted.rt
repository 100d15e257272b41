// Which threefold coders there are.
ghost use Rattle.std.specs.Prelude.{◌≡◌};
ghost use Rattle.coder.specs.Sizes.{threefold_sizes};
ghost use Rattle.threefold.specs.Threefold.{told};

use super::Threefold;
use coder::{Refusal, Sizes};

impl Threefold {
    // The coder of frames of this length; `check` must be 0.
    pub fn new(frame: usize, check: usize) -> Result<Threefold, Refusal>
        ensures { told result ≡ threefold_sizes frame check }
    {
        let sizes = Sizes::threefold(frame, check)?;
        Ok(Threefold { sizes })
    }
}

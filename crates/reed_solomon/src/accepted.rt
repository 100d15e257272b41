// Which Reed-Solomon coders there are.
ghost use Rattle.std.specs.Prelude.{◌≡◌};
ghost use Rattle.reed_solomon.specs.Constructed.{told, sizes_over, Made};

use crate::reed_solomon::ReedSolomon;
use coder::{Refusal, Sizes};
use field::Field;
use std::marker::PhantomData;

impl<F: Field> ReedSolomon<F> {
    // A coder with `check` check octets behind each message of `frame` octets.
    pub fn new(frame: usize, check: usize) -> Result<Self, Refusal>
        ensures sizes { told result ≡ sizes_over F.Field.field frame check }
        ensures words { Made F.Field.field frame check result }
    {
        let sizes = Sizes::reed_solomon(frame, check)?;
        if sizes.word >= F::size() {
            return Err(Refusal::UnfitSizes);
        }
        Ok(ReedSolomon {
            field: PhantomData,
            sizes,
            check,
        })
    }
}

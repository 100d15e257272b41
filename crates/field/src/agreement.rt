// The two makes of the octet field side by side.
ghost use Rattle.std.specs.Prelude.{◌≡◌, true};
ghost use Rattle.field.specs.Samples.{ProductSample};

use crate::field::Field;
use crate::shifting::Shifting;
use crate::table::Table;

// Whether both makes have one product of a and b: they do, whatever a and b.
#[tactic(auto, unfolding(crate::specs::Binary::doubled, crate::specs::Binary::times_bits, crate::specs::Binary::reduced_times))]
pub fn products_agree(a: u8, b: u8) -> bool
    ensures always { result ≡ true }
    ensures sample { ProductSample }
{
    Shifting::times(a, b) == Table::times(a, b)
}

// The earlier bits at opening.
ghost use Rattle.std.specs.Prelude.{◌≡◌};
ghost use Rattle.scrambler.specs.Scrambler.{opening, Sample};
ghost use Rattle.scrambler.specs.States.{earlier_bits};

use super::Earlier;

const ONES: u32 = 0x7f_ffff;

impl Earlier {
    // 23 ones.
    #[tactic(auto, using(crate::proofs::Scrambling::sample, crate::proofs::States::all_set))]
    pub fn ones() -> Earlier
        ensures bits { earlier_bits result ≡ opening }
        ensures sample { Sample }
    {
        Earlier { bits: ONES }
    }
}

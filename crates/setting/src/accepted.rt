// Which settings are accepted.
ghost use Rattle.std.specs.Prelude.{◌≡◌, ◌-◌, ◌*◌, ◌%◌, ◌<◌, ◌≤◌, true, ◌&&◌, ◌==◌, nat_lt};
ghost use Rattle.coder.specs.Sizes.{parameters};
ghost use Rattle.setting.specs.Settings.{told, setting_of};

use crate::setting::Setting;
use coder::{Refusal, Sizes};

const LARGEST_STEP: usize = 255;

const MOST_MEMORY: usize = 16384;

// Whether a word can be cut into blocks of this length; one that can has no blocks longer than itself.
#[tactic(auto, using(crate::proofs::Numbers::divisor_le))]
fn cuts(block: usize, word: usize) -> bool
    ensures value { result ≡ (nat_lt 0 block && word % block == 0) }
    ensures short { result ≡ true → 0 < word → block ≤ word }
{
    block > 0 && word % block == 0
}

// M×I×(I−1), twice the elements that the branches hold.
// Stays, with `delay` below, beside the delay line's own `memory` and `delay`: neither crate rests on the other, and who asks for a setting needs no delay line.
#[tactic(auto, using(crate::proofs::Numbers::spread_below))]
fn twice_memory(block: usize, step: usize) -> usize
    requires { (0 < block) × (block ≤ 255) × (step ≤ 255) }
    ensures value { result ≡ step * block * (block - 1) }
    ensures bound { result < 16777216 }
{
    step * block * (block - 1)
}

impl Setting {
    // The setting of a coder of these sizes with block length I and step M.
    pub fn new(sizes: Sizes, block: usize, step: usize) -> Result<Setting, Refusal>
        ensures { told result ≡ setting_of (parameters sizes) block step }
    {
        if !cuts(block, sizes.word) {
            return Err(Refusal::UnevenBlocks);
        }
        if step > LARGEST_STEP {
            return Err(Refusal::TooDeep);
        }
        let twice = twice_memory(block, step);
        let memory = twice / 2;
        if memory > MOST_MEMORY {
            return Err(Refusal::TooDeep);
        }
        let parts = sizes.word / block;
        let delay = step * (block - 1);
        Ok(Setting {
            sizes,
            block,
            step,
            parts,
            memory,
            delay,
            lag: delay.div_ceil(parts),
            reach: twice + sizes.word,
        })
    }
}

// An accepted setting. A value of this type exists only with numbers that belong together.
ghost use Rattle.std.specs.Prelude.{◌≡◌, ◌*◌, ◌<◌, ◌≤◌};
ghost use Rattle.setting.specs.Relations.{memory_of, delay_of, lag_of, reach_of};

use coder::Sizes;

#[derive(Clone, Copy, PartialEq, Eq, Debug)]
pub struct Setting {
    // K, N and t
    pub sizes: Sizes,
    // I, the octets of a block
    pub block: usize,
    // M, how many blocks each branch waits longer than the one before it
    pub step: usize,
    // q, the blocks of a word
    pub parts: usize,
    // P, the elements of delay memory at each end
    pub memory: usize,
    // d, the blocks from one end to the other
    pub delay: usize,
    // w, the words from one end to the other
    pub lag: usize,
    // Z, the line places from a word's first octet to its last
    pub reach: usize,
    ghost cut: { (0 < block) × (parts * block ≡ sizes.word) },
    ghost bounded: { (step ≤ 255) × (memory ≤ 16384) },
    ghost remembers: { memory ≡ memory_of block step },
    ghost delays: { delay ≡ delay_of block step },
    ghost lags: { lag ≡ lag_of block step parts },
    ghost reaches: { reach ≡ reach_of block step sizes.word },
}

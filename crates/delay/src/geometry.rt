// The sizes that follow from a delay line's shape.
ghost use Rattle.std.specs.Prelude.{◌≡◌, ℕ, ◌*◌, ◌<◌};
ghost use Rattle.delay.specs.Runs.{Returns};
ghost use Rattle.delay.specs.Triangles.{Fills, memory_of, delay_of, rank_of};

use crate::lengths::Lengths;
use crate::triangle::Triangle;

impl Triangle {
    // P, the elements of memory that the branches take together: M×I×(I−1)÷2.
    #[tactic(auto, using(crate::proofs::Places::fills_at))]
    pub fn memory(&self) -> usize
        ensures value { result ≡ memory_of self.now }
        ensures branches { Fills self.now result }
    {
        let branches = self.block as usize;
        self.step as usize * branches * branches.saturating_sub(1) / 2
    }

    // d, the blocks that two lines in a row keep a block, where one has rising lengths and the other falling ones. What
    // waits less at one end waits the rest at the other, so it is what the longest branch waits.
    #[tactic(auto, using(crate::proofs::Delays::returns_at))]
    pub fn delay(&self) -> usize
        ensures value { result ≡ delay_of self.now }
        ensures pair { (empty : ℕ) → Returns ℕ self.now empty result }
    {
        self.step as usize * (self.block as usize).saturating_sub(1)
    }

    // How many branches lie in memory before a branch; and, the same way round, the branch before which so many lie.
    pub(crate) fn rank(&self, branch: usize) -> usize
        requires { branch < self.now.block }
        ensures value { result ≡ rank_of self.now branch }
        ensures bound { result < self.now.block }
    {
        match self.lengths {
            Lengths::Rising => branch,
            Lengths::Falling => self.block as usize - 1 - branch,
        }
    }
}

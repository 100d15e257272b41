// A delay line over memory that the caller lends.
ghost use Rattle.std.specs.Prelude.{◌≡◌, ◌+◌, ◌%◌, length, replicate};
ghost use Rattle.delay.specs.Answers.{Clears, Pushes, Through};
ghost use Rattle.delay.specs.Queues.{leaves, stays};
ghost use Rattle.delay.specs.Triangles.{memory_of, turned};

use crate::triangle::Triangle;
use coder::Misfit;
use std::mem;

// Stays a function of its own: the library's `fill` would require of every element type that its `clone` cannot fail.
fn fill<E: Copy>(memory: &mut [E], empty: E)
    ensures { memory.new ≡ replicate (length memory.old) empty }
{
    memory.fill_with(|| empty);
}

// Pushes an element through a ring: it takes the place of the oldest, which leaves.
#[tactic(auto, using(crate::proofs::Rings::passing))]
fn pass<E: Copy>(ring: &mut [E], clock: usize, entering: E) -> E
    ensures left { result ≡ leaves (turned (clock % length ring.old) ring.old) entering }
    ensures waits { turned ((clock + 1) % length ring.old) ring.new ≡ stays (turned (clock % length ring.old) ring.old) entering }
{
    if ring.is_empty() {
        return entering;
    }
    let at = clock % ring.len();
    mem::replace(&mut ring[at], entering)
}

impl Triangle {
    // Opens a line: every branch is full of the clearing element.
    #[tactic(auto, using(crate::proofs::Turns::opened))]
    pub fn clear<E: Copy>(&self, memory: &mut [E], empty: E) -> Result<(), Misfit>
        ensures { Clears E self.now empty memory.old memory.new result }
    {
        if memory.len() != self.memory() {
            return Err(Misfit::Memory);
        }
        fill(memory, empty);
        Ok(())
    }

    // Pushes a block: each element enters its branch, and what leaves the branch stands in its place. The clock is one more
    // at each block.
    pub fn push<E: Copy>(
        &self,
        clock: usize,
        memory: &mut [E],
        block: &mut [E],
    ) -> Result<(), Misfit>
        ensures { Pushes E self.now clock memory.old memory.new block.old block.new result }
    {
        if block.len() != self.block as usize {
            return Err(Misfit::Line);
        }
        if memory.len() != self.memory() {
            return Err(Misfit::Memory);
        }
        self.turn(clock, memory, block);
        Ok(())
    }

    // Goes through the branches as they lie in memory, the shortest first.
    #[tactic(auto, using(crate::proofs::Places::within))]
    fn turn<E: Copy>(&self, clock: usize, memory: &mut [E], block: &mut [E])
        requires block_len { length block.old ≡ self.now.block }
        requires memory_len { length memory.old ≡ memory_of self.now }
        ensures { Through E self.now clock memory.old memory.new block.old block.new }
    {
        // Stays by rank: memory and block are gone through in opposite orders where lengths fall, so one zip does not serve both.
        let mut start = 0;
        for rank in 0..self.block as usize {
            let branch = self.rank(rank);
            let end = start + self.step as usize * rank;
            block[branch] = pass(&mut memory[start..end], clock, block[branch]);
            start = end;
        }
    }
}

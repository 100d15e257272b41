// A word's blocks pass through a delay line, one after another, in place.
ghost use Rattle.std.specs.Prelude.{◌≡◌, ◌*◌, ◌<◌, length};
ghost use Rattle.link.specs.Passing.{line_of, Passed};

use delay::{Lengths, Triangle};
use setting::Setting;

// The sender's delay line has rising lengths, the receiver's falling ones. So many words passed before this one.
pub(crate) fn pass_word<E: Copy>(
    setting: &Setting,
    lengths: Lengths,
    before: usize,
    memory: &mut [E],
    word: &mut [E],
)
    requires before_bound { before < 16777216 }
    requires memory_len { length memory.old ≡ setting.now.memory }
    requires word_len { length word.old ≡ setting.now.sizes.word }
    ensures { Passed E (line_of setting.now lengths) setting.now.parts (before * setting.now.parts) memory.old memory.new word.old word.new }
{
    let line = Triangle {
        block: setting.block as u8,
        step: setting.step as u8,
        lengths,
    };
    let clock = before * setting.parts;
    // Stays by index: of what is written through `chunks_exact_mut` a proof knows the length alone, so the contract does not follow.
    for part in 0..setting.parts {
        let start = part * setting.block;
        let block = &mut word[start..start + setting.block];
        line.push(clock + part, memory, block).unwrap();
    }
}

// What a receiver gathers from its delay line: the first arrivals of a word wait in memory, behind the delay line, until the rest has come.
ghost use Rattle.std.specs.Prelude.{◌≡◌, ◌+◌, ◌-◌, ◌*◌, ◌<◌, ◌≤◌, ◌++◌, length, take, drop};
ghost use Rattle.runs.specs.Receivers as receivers;
ghost use Rattle.setting.specs.Settings.{plan};
ghost use Rattle.link.specs.Gathering.{Gathered};

use crate::passing::pass_word;
use coder::Arrival;
use coder::sizes::LONGEST_WORD;
use delay::Lengths;
use setting::Setting;

// The arrivals of memory that a receiver takes: those of the delay line, and a word.
pub(crate) fn memory_length(setting: &Setting) -> usize
    ensures { result ≡ setting.now.memory + setting.now.sizes.word }
{
    setting.memory + setting.sizes.word
}

// How many arrivals of a word come from the delay line before a call that completes it.
fn kept(setting: &Setting) -> usize
    ensures value { result ≡ receivers.kept (plan setting.now) setting.now.lag }
    ensures bound { result ≤ setting.now.sizes.word }
{
    (setting.lag * setting.parts - setting.delay) * setting.block
}

// The last arrivals change places with those gathered before, which come first then.
fn exchange(kept: usize, gathered: &mut [Arrival], word: &mut [Arrival])
    requires { (kept ≤ length word.old) × (length gathered.old ≡ length word.old) }
    ensures completes { word.new ≡ take kept gathered.old ++ take (length word.old - kept) word.old }
    ensures gathers { take kept gathered.new ≡ drop (length word.old - kept) word.old }
{
    word.rotate_right(kept);
    word[..kept].swap_with_slice(&mut gathered[..kept]);
}

// A word of arrivals enters the delay line; a word is completed by what leaves, and the next one begun. The word comes with marks after it.
pub(crate) fn next_word(
    setting: &Setting,
    calls: usize,
    memory: &mut [Arrival],
    line: &[Arrival],
) -> [Arrival; LONGEST_WORD]
    requires memory_len { length memory.old ≡ setting.now.memory + setting.now.sizes.word }
    requires line_len { length line.now ≡ setting.now.sizes.word }
    requires calls_bound { calls < 16777216 }
    ensures { Gathered (plan setting.now) (calls * setting.now.parts) memory.old memory.new line.now (take setting.now.sizes.word result) }
{
    // Stays a room of fixed length: nothing here allocates, and no crate is used but std.
    let mut room = [Arrival::Lost; LONGEST_WORD];
    let word = &mut room[..line.len()];
    word.copy_from_slice(line);
    let waiting = &mut memory[..setting.memory];
    pass_word(setting, Lengths::Falling, calls, waiting, word);
    exchange(kept(setting), &mut memory[setting.memory..], word);
    room
}

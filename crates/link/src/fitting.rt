// Whether a call is taken: where in the run it comes, and whether the coder and what is lent have the setting's sizes.
ghost use Rattle.std.specs.Prelude.{◌≡◌, ◌&&◌, ◌==◌};
ghost use Rattle.link.specs.Refusals.{memory_answer, told, turn_answer, word_answer};
ghost use Rattle.setting.specs.Settings.{plan};

use crate::refused::Refused;
use coder::{Coder, Misfit};
use setting::Setting;

// The words of a run.
const MOST_WORDS: usize = 1000000;

// The coder's frames, and how many octets it repairs.
// Stays with setting and coder apart, here and in limit.rt: a state owns the setting and a host lends the coder, so a pair would be made anew in each call.
pub(crate) fn frames_fit<C: Coder>(setting: &Setting, coder: &C) -> bool
    ensures { result ≡ ((C.Coder.code coder.now).sizes.frame == setting.now.sizes.frame && (C.Coder.code coder.now).sizes.repairs == setting.now.sizes.repairs) }
{
    let sizes = coder.sizes();
    sizes.frame == setting.sizes.frame && sizes.repairs == setting.sizes.repairs
}

// The coder's words.
pub(crate) fn words_fit<C: Coder>(setting: &Setting, coder: &C) -> bool
    ensures { result ≡ ((C.Coder.code coder.now).sizes.word == setting.now.sizes.word) }
{
    coder.sizes().word == setting.sizes.word
}

// Refusal 7, the last that a call tests.
pub(crate) fn memory_fits<E>(memory: &[E], room: usize) -> Result<(), Refused>
    ensures { told result ≡ memory_answer room memory.now }
{
    if memory.len() != room {
        return Err(Misfit::Memory.into());
    }
    Ok(())
}

// A send or a receive, but for its memory: refusals 10, 5 and 6.
pub(crate) fn word_taken<C: Coder, E>(
    setting: &Setting,
    coder: &C,
    words: usize,
    frame: &[u8],
    line: &[E],
) -> Result<(), Refused>
    ensures { told result ≡ word_answer (plan setting.now) (C.Coder.code coder.now) words frame.now line.now }
{
    if words >= MOST_WORDS {
        return Err(Refused::PastLastWord);
    }
    if frame.len() != setting.sizes.frame || !frames_fit(setting, coder) {
        return Err(Misfit::Frame.into());
    }
    if line.len() != setting.sizes.word || !words_fit(setting, coder) {
        return Err(Misfit::Line.into());
    }
    Ok(())
}

// A drain or a fill: refusals 11, 6 and 7.
pub(crate) fn turn_taken<E>(
    setting: &Setting,
    turns: usize,
    line: &[E],
    memory: &[E],
    room: usize,
) -> Result<(), Refused>
    ensures { told result ≡ turn_answer (plan setting.now) turns room memory.now line.now }
{
    if turns >= setting.lag {
        return Err(Refused::OutOfTurn);
    }
    if line.len() != setting.sizes.word {
        return Err(Misfit::Line.into());
    }
    memory_fits(memory, room)
}

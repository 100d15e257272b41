// The calls of a sender while it sends.
ghost use Rattle.std.specs.Prelude.{◌≡◌, Ok};
ghost use Rattle.link.specs.Senders.{Ends, Opens, Sends, sending};
ghost use Rattle.runs.specs.Senders.{Sent, send_answer};
ghost use Rattle.setting.specs.Settings.{plan};

use crate::coding::encode_frame;
use crate::fitting::{memory_fits, word_taken};
use crate::passing::pass_word;
use crate::refused::Refused;
use crate::sender::{Draining, Sending};
use coder::Coder;
use delay::Lengths;
use scrambler::Earlier;
use setting::Setting;

impl Sending {
    // Opens a sender over its memory, which is cleared.
    pub fn open(setting: Setting, memory: &mut [u8]) -> Result<Sending, Refused>
        ensures { Opens setting memory.old memory.new result }
    {
        memory_fits(memory, setting.memory)?;
        memory.fill(0);
        Ok(Sending {
            setting,
            earlier: Earlier::ones(),
            words: 0,
        })
    }

    // Takes a frame, and writes N octets for the line.
    pub fn send<C: Coder>(
        &mut self,
        coder: &C,
        memory: &mut [u8],
        frame: &[u8],
        line: &mut [u8],
    ) -> Result<(), Refused>
        ensures { Sends (C.Coder.code coder.now) self.old self.new memory.old memory.new frame.now line.old line.new result }
    {
        word_taken(&self.setting, coder, self.words, frame, line)?;
        memory_fits(memory, self.setting.memory)?;
        self.send_word(coder, memory, frame, line);
        Ok(())
    }

    // Where everything fits: the frame becomes a word, and the word enters the interleaver.
    // Stays with the four that `send` is lent: a struct of them would be made there and taken apart here, and nowhere else.
    fn send_word<C: Coder>(&mut self, coder: &C, memory: &mut [u8], frame: &[u8], line: &mut [u8])
        requires { send_answer (plan self.old.setting) (C.Coder.code coder.now) (sending self.old) memory.old frame.now line.old ≡ Ok tt }
        ensures setting { self.new.setting ≡ self.old.setting }
        ensures sent { Sent (plan self.old.setting) (C.Coder.code coder.now) (sending self.old) (sending self.new) memory.old memory.new frame.now line.new }
    {
        encode_frame(coder, &mut self.earlier, frame, line);
        pass_word(&self.setting, Lengths::Rising, self.words, memory, line);
        self.words += 1;
    }

    // Ends the run of frames: what still waits has yet to be drained.
    pub fn end(self) -> Draining
        ensures { Ends self result }
    {
        Draining {
            setting: self.setting,
            words: self.words,
            drained: 0,
        }
    }
}

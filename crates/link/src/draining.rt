// The calls of a sender after its end.
ghost use Rattle.std.specs.Prelude.{◌≡◌, ◌+◌, ◌<◌};
ghost use Rattle.link.specs.Senders.{Closes, Drains};

use crate::fitting::turn_taken;
use crate::given_back::GivenBack;
use crate::passing::pass_word;
use crate::refused::Refused;
use crate::sender::Draining;
use delay::Lengths;

impl Draining {
    // Writes N more octets for the line, while some still wait.
    pub fn drain(&mut self, memory: &mut [u8], line: &mut [u8]) -> Result<(), Refused>
        ensures { Drains self.old self.new memory.old memory.new line.old line.new result }
    {
        let room = self.setting.memory;
        turn_taken(&self.setting, self.drained, line, memory, room)?;
        line.fill(0);
        let entered = self.words + self.drained;
        pass_word(&self.setting, Lengths::Rising, entered, memory, line);
        self.drained += 1;
        Ok(())
    }

    // Closes the sender when nothing waits any more; before that its state comes back.
    pub fn close(self) -> Result<(), GivenBack<Draining>>
        ensures { Closes self result }
    {
        if self.drained < self.setting.lag {
            return Err(GivenBack::out_of_turn(self));
        }
        Ok(())
    }
}

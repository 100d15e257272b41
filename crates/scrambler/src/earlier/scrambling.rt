// Messages scrambled and descrambled in place.
ghost use Rattle.std.specs.Prelude.{◌≡◌};
ghost use Rattle.scrambler.specs.Laws.{Receiving, Sending};
ghost use Rattle.scrambler.specs.Scrambler.{after, descrambled, scrambled};
ghost use Rattle.scrambler.specs.States.{earlier_bits};

use super::Earlier;

impl Earlier {
    // Scrambles a message where it stands. The bits sent become the earlier bits of the next message.
    #[tactic(auto, using(crate::proofs::Loops::send_begun, crate::proofs::Loops::send_more, crate::proofs::Loops::all_sent, crate::proofs::Loops::sent_later, crate::proofs::Loops::sent_laws), unfolding(crate::specs::States::earlier_bits))]
    pub fn scramble(&mut self, octets: &mut [u8])
        ensures sent { octets.new ≡ scrambled (earlier_bits self.old) octets.old }
        ensures later { earlier_bits self.new ≡ after (earlier_bits self.old) octets.new }
        ensures laws { Sending (earlier_bits self.old) (earlier_bits self.new) octets.old octets.new }
    {
        for octet in octets.iter_mut() {
            let sent = self.mixed(*octet);
            *self = self.followed_by(sent);
            *octet = sent;
        }
    }

    // Gives the message back where the received octets stand. The bits received become the earlier bits of the next message.
    #[tactic(auto, using(crate::proofs::Loops::take_begun, crate::proofs::Loops::take_more, crate::proofs::Loops::all_taken, crate::proofs::Loops::taken_later, crate::proofs::Loops::taken_laws), unfolding(crate::specs::States::earlier_bits))]
    pub fn descramble(&mut self, octets: &mut [u8])
        ensures given { octets.new ≡ descrambled (earlier_bits self.old) octets.old }
        ensures later { earlier_bits self.new ≡ after (earlier_bits self.old) octets.old }
        ensures laws { Receiving (earlier_bits self.old) (earlier_bits self.new) octets.old octets.new }
    {
        // Stays a loop beside the sender's: a shared one would take a closure that picks the octet sent, for one line's difference.
        for octet in octets.iter_mut() {
            let given = self.mixed(*octet);
            *self = self.followed_by(*octet);
            *octet = given;
        }
    }
}

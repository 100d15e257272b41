// Eight bits at a time: x(n−18) and x(n−23) of a whole octet are earlier bits.
ghost use Rattle.std.specs.Prelude.{◌≡◌, ◌*◌, ◌/◌, ◌^◌, bit_and, bit_or, bit_xor};

use super::Earlier;

impl Earlier {
    // The sum of each bit of the next octet with the bits 18 and 23 before it. For its first bit these are bits 5 and 0.
    pub(super) fn mixed(self, octet: u8) -> u8
        ensures { result ≡ bit_xor octet (bit_and (bit_xor (self.bits / 2 ^ 5) self.bits) 255) }
    {
        let taps = ((self.bits >> 5) ^ self.bits) & 0xff;
        octet ^ (taps as u8)
    }

    // The earlier bits when this octet has gone over the line.
    #[tactic(auto, using(crate::proofs::Steps::on_below))]
    pub(super) fn followed_by(self, sent: u8) -> Earlier
        ensures { result.bits ≡ bit_or (self.bits / 2 ^ 8) (sent * 2 ^ 15) }
    {
        Earlier {
            bits: (self.bits >> 8) | ((sent as u32) << 15),
        }
    }
}

// The check octets of a message, by a register that is one number: its first octet is the highest.
ghost use Rattle.std.specs.Prelude.{◌≡◌, ℕ, ◌/◌, ◌^◌, ◌≤◌, List, length, bit_xor};
ghost use Rattle.coder.specs.Codes.{Octets};
ghost use Rattle.field.specs.Binary.{octets};
ghost use Rattle.rs_algebra.specs.Words.{check_of};
ghost use Rattle.reed_solomon.specs.Rows.{packed, fed_back};

use crate::checks::Checks;
use crate::reed_solomon::ReedSolomon;
use crate::rows::row_coder::RowCoder;
use field::Table;

// The highest octet.
fn top(register: u128) -> u8
    ensures { result ≡ register / 2 ^ 120 }
{
    (register >> 120) as u8
}

// What moves out of the register, with an octet of the message added.
fn feedback(register: u128, octet: u8) -> u8
    ensures { result ≡ bit_xor (register / 2 ^ 120) octet }
{
    top(register) ^ octet
}

// Writes as many octets as there is room for, from the highest down.
// Stays a loop: all 16 octets by `to_be_bytes` and a copy of some took short words twice as long.
fn unpack(register: u128, out: &mut [u8])
    ensures { (xs : List ℕ) → Octets xs → length xs ≤ 16 → length xs ≡ length out.old → register ≡ packed 16 xs → out.new ≡ xs }
{
    let mut left = register;
    for octet in out.iter_mut() {
        *octet = top(left);
        left <<= 8;
    }
}

impl RowCoder {
    // One octet of the message: the register moves up one place, and the row of what is fed back is added.
    fn feed(&self, register: u128, octet: u8) -> u128
        ensures { result ≡ fed_back self.now.rows register octet }
    {
        let back = feedback(register, octet);
        register << 8 ^ self.rows[back as usize]
    }

    // The register after a message.
    fn register_of(&self, message: &[u8]) -> u128
        ensures { result ≡ packed 16 (check_of octets self.now.plain.check message.now) }
    {
        message
            .iter()
            .fold(0, |register, octet| self.feed(register, *octet))
    }
}

impl Checks for RowCoder {
    type Over = Table;

    ghost numbers = { λ s. s.plain };

    fn numbers(&self) -> &ReedSolomon<Table> {
        &self.plain
    }

    fn check_octets(&self, message: &[u8], out: &mut [u8]) {
        unpack(self.register_of(message), out);
    }
}

// The last 23 bits on the line, which both ends keep.
ghost use Rattle.std.specs.Prelude.{◌<◌};

mod octets;
mod opening;
mod scrambling;

#[derive(Clone, Copy, PartialEq, Eq, Debug)]
pub struct Earlier {
    // bit 0 is the oldest
    bits: u32,
    ghost held: { bits < 8388608 },
}

// The shape of a delay line. Any numbers are one.
use crate::lengths::Lengths;

#[derive(Clone, Copy, PartialEq, Eq, Debug)]
pub struct Triangle {
    // I, the elements of a block, each of which has a branch
    pub block: u8,
    // M, how many blocks each branch waits longer than the one next to it
    pub step: u8,
    pub lengths: Lengths,
}

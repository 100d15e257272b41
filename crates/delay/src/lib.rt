// The delay line of a convolutional interleaver: a block's elements wait in branches of rising or of falling length.
#![tactic(auto)]

pub mod geometry;
pub mod lengths;
pub mod line;
pub mod triangle;

pub use lengths::Lengths;
pub use triangle::Triangle;

#[cfg(test)]
mod tests;

// The self-synchronising scrambler of the line: each sent bit is the sum of a message bit and two bits sent before.
#![tactic(auto)]

pub mod earlier;

pub use earlier::Earlier;

#[cfg(test)]
mod tests;

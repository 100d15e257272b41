// The threefold coder: the message three times over, which repairs one octet of a word.
#![tactic(auto)]

pub mod threefold;

pub use threefold::Threefold;

#[cfg(test)]
mod tests;

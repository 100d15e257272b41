// What an installer asks and reads: five octets name a setting, and a line of text says what the unit does with it.
#![tactic(auto)]

pub mod answer;
pub mod report;
pub mod text;

pub use report::Report;

#[cfg(test)]
mod tests;

// Reed-Solomon coders over any field.
#![tactic(auto)]

pub mod accepted;
mod bounds;
mod checks;
mod coding;
mod decoding;
mod difference;
mod generator;
mod linear;
mod locator;
mod mending;
pub mod over_octets;
mod places;
mod received;
pub mod reed_solomon;
mod register;
mod repair;
pub mod rows;
mod syndromes;
mod terms;
mod values;

pub use reed_solomon::ReedSolomon;
pub use rows::row_coder::RowCoder;

#[cfg(test)]
mod tests;
#[cfg(test)]
mod tests_values;

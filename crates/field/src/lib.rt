// Finite fields: what a field promises, and the octets as a field in two makes.
#![tactic(auto)]

pub mod agreement;
pub mod field;
pub mod horner;
pub mod octet_field;
pub mod shifting;
pub mod table;

pub use field::Field;
pub use horner::value_at;
pub use octet_field::OctetField;
pub use shifting::Shifting;
pub use table::Table;

#[cfg(test)]
mod tests;

// A Reed-Solomon coder over octets with one table row for each octet fed back.
pub mod accepted;
mod filling;
mod register;
pub mod row_coder;
pub mod words;

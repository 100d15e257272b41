// What every coder has in common: the sizes of its frames and words, what arrives for it, and the refusals with their numbers.
#![tactic(auto)]

pub mod accepted;
pub mod arrival;
pub mod coder;
pub mod fitting;
pub mod kind;
pub mod misfit;
pub mod refusal;
pub mod sizes;
pub mod undecoded;

pub use arrival::Arrival;
pub use coder::Coder;
pub use kind::Kind;
pub use misfit::Misfit;
pub use refusal::Refusal;
pub use sizes::Sizes;
pub use undecoded::Undecoded;

// The two ends of the line: the calls that a host makes, and the burst limit that they keep.
#![tactic(auto)]

mod coding;
pub mod draining;
pub mod filling;
mod fitting;
mod gathering;
pub mod given_back;
pub mod limit;
pub mod loss;
mod passing;
mod reading;
pub mod receiver;
pub mod refused;
pub mod running;
pub mod sender;
pub mod sending;

pub use given_back::GivenBack;
pub use limit::burst_limit;
pub use loss::{Cause, Loss, Unreceived};
pub use receiver::{Filling, Running};
pub use refused::Refused;
pub use sender::{Draining, Sending};

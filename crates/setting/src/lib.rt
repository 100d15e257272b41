// A setting of a line unit: how words are cut into blocks and interleaved, and the burst that it rides out.
#![tactic(auto)]

pub mod accepted;
pub mod burst;
pub mod formulas;
pub mod setting;

pub use setting::Setting;

//! Trades that are generated from a seed, line by line, and the count of the lines of an answer to them. The definitions stand
//! in `specs/`.
#![tactic(auto)]

mod counting;
mod line;
mod pieces;
mod sampling;

pub use counting::LineCounts;
pub use line::{SampleLine, Trade};
pub use sampling::Sample;

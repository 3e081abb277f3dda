//! Aggregates of bags of ints, as ints come and go.
#![tactic(auto)]

mod aggregate;
mod bag;
mod count;
mod extremes;
mod generic;
mod sum;

pub use aggregate::Aggregate;
pub use count::Count;
pub use extremes::{End, Extreme, Greatest, Highest, Least, Lowest};
pub use generic::{alone, replaced};
pub use sum::Sum;

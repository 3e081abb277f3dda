//! The operator of an Anti.
#![tactic(auto)]

mod anti;
mod free_times;
mod sides;
mod sweep;

pub use anti::{Anti, new_anti};
pub use sides::AntiSides;

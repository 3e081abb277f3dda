//! The operator of a Join.
#![tactic(auto)]

mod few;
mod join;
mod live_pairs;
mod lives;
mod pairs;
mod settling;
mod sides;
mod step;
mod sweep;

pub use join::{Join, new_join};
pub use sides::JoinSides;

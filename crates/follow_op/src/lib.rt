//! The operator of a Follow.
#![tactic(auto)]

mod follow;
mod operating;
mod rows;
mod sides;

pub use follow::Follow;

//! Shards: one node of a plan at work as several operators side by side, each with the edges of its keys.
#![tactic(auto)]

mod fork;
mod gate;
mod gather;
mod laws;
mod loading;
mod saving;
mod shard;
mod sharded;
mod step;

pub use gate::{Gate, OpenGate};
pub use sharded::Sharded;

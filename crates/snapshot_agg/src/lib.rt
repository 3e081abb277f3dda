//! The operator of a Group.
#![tactic(auto)]

mod emitting;
mod grouped;
mod groups;
mod intervals;
mod laws;
mod lives;
mod loading;
mod operating;
mod passes;
mod queue;
mod row_queue;
mod saving;
mod state;
mod sweep;
mod totals;
mod waiting;

pub use grouped::Grouped;
pub use laws::groups_stand_for_their_node;

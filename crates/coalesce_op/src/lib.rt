//! The operator of a Coalesce.
#![tactic(auto)]

mod coalesce;
mod side;
mod sweep;

pub use coalesce::{Coalesce, new_coalesce};
pub use side::CoalesceSide;

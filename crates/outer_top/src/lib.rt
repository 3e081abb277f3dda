//! The operator of a Top.
#![tactic(auto)]

mod groups;
mod keys;
mod ranked;
mod saving;
mod side;
mod sweep;
mod top;
mod tops;

pub use ranked::{Ranked, tops_are_found_key_by_key};
pub use side::TopSide;
pub use top::{Top, new_top};

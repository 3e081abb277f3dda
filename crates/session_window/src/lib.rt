//! The operator of a Session.
#![tactic(auto)]

mod one_session;
mod open_rows;
mod saving;
mod session;
mod sessions;
mod side;
mod times;

pub use session::{Session, new_session};
pub use side::SessionSide;

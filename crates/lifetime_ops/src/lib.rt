//! The operators that change lifetimes: of a Delay, a Hop, a Duration, a Mean and an Extend.
#![tactic(auto)]

mod alter_lifetime;
mod change;
mod extend;
mod extending;
mod mean;
mod operating;

pub use alter_lifetime::AlterLifetime;
pub use change::Change;
pub use extend::ExtendLifetime;

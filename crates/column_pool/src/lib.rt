//! Columns of cells of one kind, and pools that lend columns out and take them back.
#![tactic(auto)]

mod bit;
mod cell;
mod column;
mod pool;

pub use bit::Bit;
pub use cell::{Cell, same_cell};
pub use column::Column;
pub use pool::Pool;

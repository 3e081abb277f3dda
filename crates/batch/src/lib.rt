//! Batches of edges in columns, and the pools that lend the columns out.
#![tactic(auto)]

mod batch;
mod columns;
mod making;
mod payload;
mod places;
mod pools;

pub use batch::{Batch, Full};
pub use payload::Payload;
pub use pools::Pools;

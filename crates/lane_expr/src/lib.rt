//! Kernels: expressions compiled once, and computed over the rows of batches, in blocks of 64 numbers or places: each operation
//! works on whole vectors, and writes its results in place.
#![tactic(auto)]

mod block;
mod compare;
mod compile;
mod divisor;
mod hash;
mod kernel;
mod lane;
mod laws;
mod maps;
mod numbers;
mod places;
mod registers;
mod step;
mod words;

pub use hash::hash_keys;
pub use kernel::Kernel;
pub use laws::kernels_keep_their_expression;
pub use step::Step;

/// How many numbers a block has.
pub(crate) const BLOCK: usize = 64;

// How many lanes are compared at once for their order. With as many the machine code is the fastest of
// those that were measured.
const ORDERED: usize = 4;

// The same for equality.
const EQUAL: usize = 16;

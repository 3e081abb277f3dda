//! Wires, from which bytes are read and to which they are written, and the bytes that were read cut into lines.
#![tactic(auto)]

mod cutter;
mod laws;
mod memory;
mod sending;
mod standard;
mod wire;

pub use cutter::{Block, Cut, Line, LineCutter};
pub use laws::{
    answers_tell_lines, blocks_are_lines, bytes_are_their_lines, pieces_make_no_difference,
    refusals_stay, rest_is_last_line,
};
pub use memory::{MemoryWire, WireStep};
pub use sending::send;
pub use standard::{ErrWire, StdWire};
pub use wire::{ReadFailed, Wire, WriteFailed};

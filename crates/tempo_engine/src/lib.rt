//! A plan at work over lines of input: what is written for each line, and the first fault. The definitions stand in `specs/`.
#![tactic(auto)]

mod block;
mod engine;
mod epoch;
mod fault;
mod freezing;
mod frozen_engine;
mod kept;
mod laws;
mod named;
mod parts;
mod stored;
mod table;

pub use block::FedBlock;
pub use engine::{Engine, Options};
pub use fault::EngineFault;
pub use frozen_engine::ThawFault;
pub use ingress::slice_end;
pub use laws::{answers_of_lines_stand, what_fits_is_a_state};

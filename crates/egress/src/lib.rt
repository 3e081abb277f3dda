//! Output while the input goes on: the changes of rows, instant by instant, from the edges that come. The definitions
//! stand in `specs/`; each function of a module of laws does nothing, and its clauses are laws of them.
#![tactic(auto)]

mod edges;
mod egress;
mod instant_laws;
mod loading;
mod moves;
mod open_rows;
mod order;
mod output_laws;
mod saving;
mod singles;
mod sweep;
mod waiting;

pub use egress::Egress;
pub use instant_laws::{
    a_sweep_goes_from_instant_to_instant, an_instant_shows_the_rows_it_touches,
    edges_of_an_instant_move_rows, quiet_instants_keep_what_is_open,
};
pub use output_laws::outputs_read_longer_tables;

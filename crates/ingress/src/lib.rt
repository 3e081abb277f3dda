//! Admission at work: the bounds and the marks of streams, the punctuations that they make due, and the edges that are held until
//! one of these releases them. What lines mean is defined in `admission`.
#![tactic(auto)]

mod admitting;
mod by_rank;
mod entering;
mod held_laws;
mod held_streams;
mod ingress;
mod ingress_laws;
mod list_slices;
mod loading;
mod opens;
mod releasing;
mod saving;
mod slicing;
mod waiting;
mod watermarks;

pub use held_laws::{given_edges_stand, held_edges_are_given_in_order, held_edges_follow_the_rows};
pub use ingress::{Ingress, Refusal};
pub use ingress_laws::{
    event_times_stay, fixed_parts_stay, kept_lines_stay_in_longer_tables, lines_fit_their_streams,
    released_edges_stand_read,
};
pub use list_slices::slice_end;

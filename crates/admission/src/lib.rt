//! What lines of input mean: which of them are admitted, the rows that they give, the punctuations that become due, the first
//! fault, and the text that is written for them. The definitions stand in `specs/`; the functions here do nothing, and their
//! clauses are laws of the definitions.
#![tactic(auto)]

mod admission_laws;
mod policy;
mod text_laws;

pub use admission_laws::{
    admitted_entries_leave_what_is_known, bounds_are_greatest, entries_change_their_stream_alone,
    lines_say_entries, only_kept_lines_make_events,
};
pub use policy::{Admitted, Lateness, Policy};
pub use text_laws::{
    lines_without_fault_are_admitted, nothing_follows_a_fault, punctuations_rise, rows_are_final,
    text_grows_at_punctuations, text_is_final,
};

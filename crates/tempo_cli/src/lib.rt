//! What the program `tempo` does: from the words of its command line and the bytes that come in to the bytes that go out, the
//! notes and the status; and, of runs that keep checkpoints while their input goes on, the file of their state. The definitions
//! stand in `specs/`.
#![tactic(auto)]

mod answer;
mod answering;
mod freezing;
mod holding;
mod keeping;
mod kept_laws;
mod kept_running;
mod kept_status;
mod laws;
mod notes;
mod reading;
mod resuming;
mod running;
mod sampling;
mod starting;
mod status;

pub use kept_laws::{every_crash_is_recovered, every_line_counts_once, what_is_kept_is_read_back};
pub use kept_running::run_kept;
pub use kept_status::KeptStatus;
pub use laws::{
    both_runs_write_all, resumed_runs_are_final, runs_are_complete, runs_in_two_write_as_one,
    words_ask_for_one_job,
};
pub use notes::note;
pub use running::run;
pub use status::Status;

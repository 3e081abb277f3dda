//! What every sweep over edges does with its sides: new edges are pending until they are due, those that are due are cut at the
//! instants, and what is emitted becomes a list. `Swept` is the operator of any `Sweep`: what those that sweep have in common.
#![tactic(auto)]

mod answer;
mod endings;
mod instants;
mod operating;
mod pairs;
mod saving;
mod starts;
mod sweep;
mod swept;
mod taking;
mod waiting;

pub use answer::list_of;
pub use instants::{first_instant, next_instant, rest};
pub use pairs::{pair_cells, pair_kinds};
pub use saving::{
    are_rows, are_starts, can_wait, kept_count, load_rows, load_waiting, save_block, save_rows,
    save_waiting,
};
pub use starts::put_starts;
pub use sweep::Sweep;
pub use swept::Swept;
pub use taking::{let_go, take_in, take_into};
pub use waiting::{put_all, put_edge, put_singles, take_due};

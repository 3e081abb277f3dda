//! The laws on which every sweep over edges stands: how a list in order is cut at one instant, what is told of an instant,
//! and how what is told and what is kept goes from instant to instant and from step to step. The definitions stand in
//! `specs/`; each function does nothing, and its clauses are laws of them.
#![tactic(auto)]

mod answer_laws;
mod follow_laws;
mod group_laws;
mod instant_laws;
mod join_laws;
mod keep_laws;
mod life_laws;
mod queue_laws;

pub use answer_laws::{
    answers_grow, answers_stay_in_order, moves_tell_the_news, news_are_told_in_parts,
    rows_are_told_in_order, rows_follow_edge_by_edge,
};
pub use follow_laws::{intervals_tell_ahead, next_rows_are_matched};
pub use group_laws::{
    a_group_goes_from_instant_to_instant, a_group_keeps_its_rows, a_group_tells_an_instant,
    keys_are_told_edge_by_edge, keys_are_told_in_order, one_key_changes_a_sum, runs_tell_a_stretch,
};
pub use instant_laws::{edges_of_one_instant_come_first, sides_go_on_to_the_next_instant};
pub use join_laws::{
    a_join_goes_from_instant_to_instant, a_join_keeps_its_rows, a_join_tells_an_instant,
    open_pairs_are_pairs_of_open_rows, pairs_are_told_row_by_row,
};
pub use keep_laws::kept_rows_stay_right;
pub use life_laws::{
    a_clip_tells_an_instant, an_anti_join_tells_an_instant, antis_tell_an_instant,
    clips_tell_an_instant, open_sessions_follow, sessions_end_at_a_gap, sessions_tell_an_instant,
    starts_alone_are_enough,
};
pub use queue_laws::{edges_are_moves, open_rows_are_queues, queues_stay, shown_rows_are_moves};

//! Laws of what plans mean, for those who run them: when groups are undefined, how late times get, how much a node may keep, how
//! wide rows are, which rows an anti-join meets, and what a left join is; that nodes over cells, in shards and step by step are
//! nodes over rows; what operators that know a new lifetime at its start answer, and what shards are together. The definitions
//! stand in `specs/`; each function here does nothing, and its clauses are a law of them.
#![tactic(auto)]

mod held_laws;
mod join_laws;
mod key_laws;
mod life_laws;
mod map_laws;
mod reading_laws;
mod select_laws;
mod shard_laws;
mod standing_laws;
mod step_laws;
mod through_laws;
mod times_laws;
mod undefined_laws;
mod width_laws;

pub use held_laws::reaching_counts;
pub use join_laws::{
    antis_meet_one_row_a_key, groups_of_keys_have_one_a_key, left_joins_have_the_rows,
    one_a_key_is_read_back,
};
pub use key_laws::{nodes_by_shards, shards_keep_what_the_node_keeps};
pub use life_laws::{
    early_edges_are_answered_and_later_ones_carried, lives_are_told_at_their_starts,
};
pub use map_laws::{
    groups_follow_replaced_rows, lives_do_not_depend_on_rows, pairs_follow_replaced_rows,
    runs_follow_replaced_rows,
};
pub use reading_laws::{
    nodes_commute_with_readings, nodes_commute_with_tables, nodes_commute_with_texts_of_places,
};
pub use select_laws::{selected_edges_stand_read, tested_edges_stand_read};
pub use shard_laws::{
    answers_of_shards_add_up, shards_are_undefined_together, shards_have_histories,
    shards_keep_as_much, shards_stand_together,
};
pub use standing_laws::{
    answers_stand_read, longer_tables_read_the_same, places_stay_in_the_table,
    sides_may_be_what_they_stand_for, standing_edges_show_the_rows, standing_edges_stand_read,
};
pub use step_laws::{
    nothing_is_kept_at_first, steps_keep_what_they_tell, steps_may_tell_ends_ahead,
    what_is_kept_stays_in_longer_tables, what_is_told_stands_for_the_node,
};
pub use through_laws::nodes_stand_read_after_their_children;
pub use times_laws::{nodes_move_times, times_stay_within_reach};
pub use undefined_laws::{
    first_undefined_is, groups_are_undefined, overflow_is, undefined_at_is, undefined_is_final,
    undefined_nodes_are_alike,
};
pub use width_laws::rows_have_the_width;

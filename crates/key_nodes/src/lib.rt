//! What a Group, a Join, an Anti, a Session, a Clip, a Coalesce, a Top and a Follow make of events: the definitions stand
//! in `specs/`, for rows of any type; each function here does nothing, and its clauses are a law of them.
#![tactic(auto)]

mod anti_laws;
mod coalesced_laws;
mod group_laws;
mod run_laws;
mod session_laws;
mod shard_laws;

pub use anti_laws::{antis_are_causal, antis_have_lives, antis_have_the_rows};
pub use coalesced_laws::{
    coalesced_events_are_causal, coalesced_events_have_lives, coalesced_events_have_the_rows,
    followed_events_are_causal, followed_events_are_next, followed_events_have_lives,
    tops_are_causal, tops_have_the_rows,
};
pub use group_laws::{
    groups_are_causal, groups_have_lives, groups_have_the_rows, rows_of_a_key_give_a_group_row,
};
pub use run_laws::{
    runs_are_maximal, runs_depend_on_earlier_rows, runs_have_lives, runs_have_the_rows,
};
pub use session_laws::{
    clips_are_causal, clips_end_at_the_least, clips_have_lives, sessions_are_causal,
    sessions_end_at_the_least, sessions_have_lives,
};
pub use shard_laws::{
    antis_by_shards, clips_by_shards, groups_by_shards, joins_by_shards, sessions_by_shards,
};

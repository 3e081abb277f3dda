//! Plans of queries: the expressions of their tests, their nodes, what each node means, and the changes of its rows from
//! instant to instant, with the laws of all of these.
#![tactic(auto)]

mod agg;
mod arith_laws;
mod changes_laws;
mod closing_laws;
mod expr;
mod fault;
mod laws;
mod life_laws;
mod limits;
mod lists;
mod node;
mod over_nodes;
mod plan;
mod plan_laws;

pub use agg::Agg;
pub use arith_laws::{
    arithmetic_wraps, comparisons_agree, connectives_are_logical, division_is_euclidean,
};
pub use changes_laws::{
    changes_come_in_parts, ends_name_first_open_start, lines_count_rows, lines_follow_rows,
    lines_stand_in_order, quiet_instants_change_nothing, same_rows_same_changes,
};
pub use closing_laws::{closings_rise, events_are_final, nodes_read_longer_lists};
pub use expr::{ArithOp, CompareOp, Expr, ExprNode};
pub use fault::{QueryError, QueryFault};
pub use laws::{
    aggregates_are, anti_is, clip_is, coalesce_is, delay_is, duration_is, events_have_lives,
    extend_is, follow_is, group_is, hop_is, join_is, lives_change, mean_is, means_are,
    nodes_are_causal, nodes_are_causal_over, nodes_have_no_order, result_is, select_is, session_is,
    snapshots_agree, snapshots_are_final, source_is, top_is, undefined_groups_have_no_order,
    union_is, value_is, where_is,
};
pub use life_laws::{
    joins_are_causal, joins_have_the_rows, lives_are_causal, moved_events_have_the_rows,
};
pub use limits::{MOST_COLUMNS, MOST_NODES, MOST_REACH, level_over, reach_over};
pub use lists::{AggList, ExprList, Key, NodeList, SchemaList, StreamList};
pub use node::Node;
pub use over_nodes::{closes, event_level, reach};
pub use plan::Plan;
pub use plan_laws::{levels_tell_events, plans_are_sound};

//! What lists of edges say of events: when a list may come, which events it tells of, and when it tells of given events
//! all that is known below a time; and the code that puts edges in order and tells whether they are. The definitions stand
//! in `specs/`; each function of a module of laws does nothing, and its clauses are a law of them.
#![tactic(auto)]

mod history_laws;
mod made_laws;
mod open_laws;
mod order;
mod side_laws;
mod standing_laws;
mod telling_laws;

pub use history_laws::{
    edges_below_are_a_history, events_are_unique, events_have_lives, first_edges_are_a_history,
    histories_have_their_events, later_edges_leave_what_is_known, lists_are_ordered_as_histories,
    more_edges_give_more_events, none_fails_where_all_pass, order_is_by_rank,
};
pub use made_laws::{
    both_lists_stand_for_both, order_of_edges_is_free, paired_edges_have_events,
    replaced_edges_stand_for_replaced_events, tested_edges_stand_for_tested_events,
};
pub use open_laws::{
    edges_of_an_instant_change_the_open_rows, ends_may_be_told_ahead, kept_rows_are_bounded,
    open_rows_follow_news, single_edges_are_news, waiting_edges_become_due,
    waiting_starts_become_due,
};
pub use order::{in_order, keeps_order};
pub use side_laws::{
    lists_are_taken_in_turn, new_edges_are_retained, new_edges_are_retained_under_a_test,
    retained_events_reach, retained_for_a_later_time,
};
pub use standing_laws::{
    edges_stand_for_their_own_events, forms_of_standing_agree, standing_depends_on_known_events,
    standing_edges_have_the_rows, standing_holds_below_earlier_times,
};
pub use telling_laws::{
    known_events_have_the_same_news, news_comes_between, news_comes_in_parts, news_is_told,
    nothing_is_told_at_first, told_edges_are_a_history,
};

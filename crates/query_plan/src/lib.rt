//! The planner: what the names of a query stand for over the columns of a schema, the plan of a query, or its first fault; a plan as
//! text; and when a plan may be cut by one column of each stream, so that each part of the rows is computed by itself.
#![tactic(auto)]

mod checks;
mod choosing;
mod cut_places;
mod draft;
mod groups;
mod joins;
mod laws;
mod names;
mod outer;
mod part_laws;
mod plan_text;
mod planning;
mod schemas;
mod sides;
mod steps;
mod told;
mod types;

pub use choosing::{CutsFault, MOST_CHOICES, cuts, first_uncut, may_be_cut};
pub use laws::{faults_are_told_in_order, plans_keep_their_rules};
pub use part_laws::{
    choices_are_numbered, each_node_is_cut, parts_are_undefined_together, parts_have_their_events,
    parts_have_their_rows,
};
pub use plan_text::explain;
pub use planning::plan;
pub use told::cut_text;

//! A plan at work: all its nodes take one step at each punctuation, in order of number, those with a key in shards.
#![tactic(auto)]

mod any_operator;
mod closings;
mod dataflow;
mod fault;
mod laws;
mod making;
mod readers;
mod reading;
mod saving;
mod sharding;
mod stage;
mod steps;

pub use dataflow::Dataflow;
pub use fault::PlanFault;
pub use laws::{
    answers_have_their_places, answers_stand, overflows_stay, plans_flow_on_with_longer_tables,
    plans_keep_at_most, row_stages_keep_nothing, stages_keep_at_most,
};
pub use stage::Stage;

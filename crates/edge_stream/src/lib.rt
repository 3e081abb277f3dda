//! Lists of edges in order, kept in batches; how an operator carries edges from step to step; and `Operator`, the trait of the
//! nodes of a plan at work.
#![tactic(auto)]

mod carried;
mod cells;
mod counted;
mod cursor;
mod cut;
mod entries;
mod generic;
mod last;
mod laws;
mod list;
mod operator;
mod rest;
mod saved;
mod shards;
mod starts;
mod whole;

pub use carried::{put_last, take_below};
pub use cursor::Cursor;
pub use entries::{
    are_of_parts, edges_of_part, is_edge_part, is_stored_as, load_part, save_edges, save_part,
    stores,
};
pub use generic::step_once;
pub use laws::batches_hold_the_places_of_their_list;
pub use list::{EdgeList, Refused};
pub use operator::Operator;
pub use saved::{LoadFault, PartRow, Saved, SavedEntry, StepFault};
pub use shards::shard_of_row;

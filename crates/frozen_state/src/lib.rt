//! What an engine keeps, frozen to entries, and what is known of their form before they are read.
#![tactic(auto)]

mod form;
mod frozen;
mod laws;
mod owner;

pub use form::{PartForm, part_forms, shards_of_node};
pub use frozen::{Frozen, FrozenPart};
pub use laws::parts_are_apart;
pub use owner::{Owner, is_owner};

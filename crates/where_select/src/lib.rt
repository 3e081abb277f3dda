//! Filters and projections of batches, which are computed by kernels, and what computes a Source, a Where or a Select over lists
//! of edges.
#![tactic(auto)]

mod filter;
mod laws;
mod making;
mod project;
mod row_stage;
mod stage_laws;

pub use filter::Filter;
pub use laws::{
    filtered_edges_are, filtered_edges_keep_order, projected_edges_are, projected_edges_keep_order,
};
pub use making::{column_kinds, read_kinds};
pub use project::{NoColumn, Project};
pub use row_stage::RowStage;
pub use stage_laws::{made_edges_stand_read, stages_keep_their_node};

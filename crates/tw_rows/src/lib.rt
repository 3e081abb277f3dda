//! Times, values, rows and events: what every crate of tempo speaks of.
#![tactic(auto)]

mod cells;
mod edge;
mod kind;
mod known_laws;
mod label;
mod life;
mod memory;
mod row;
mod schema;
mod texts;
mod time;

pub use cells::{
    Cells, Datum, SHORT_ROW, cells_keep_their_row, mix_words, mixed_words, same_cells,
    same_cells_are_equal, to_cells, to_datum,
};
pub use edge::{Edge, HeldRow};
pub use kind::{CellKind, Kind, cell_of};
pub use known_laws::{known_events_are_alike, totals_grow_item_by_item};
pub use label::Label;
pub use life::{Life, floor_to, in_life};
pub use memory::Memory;
pub use row::{Row, Value, cmp_row};
pub use schema::{ColumnDef, Schema, StreamDef};
pub use texts::TextTable;
pub use time::Time;

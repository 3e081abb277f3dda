//! Lines: one line of input to one entry, or to the first cause by which the line is bad; and how a value, a time and an event are
//! spelled in a line of output, appended to one growing buffer.
#![tactic(auto)]

mod entry;
mod field;
mod fields;
mod form;
mod intervals;
mod laws;
mod line;
mod number;
mod number_text;
mod output_line;
mod quotes;
mod read;
mod record;
mod rows;
mod value;

pub use entry::{BadLine, Entry, RowFault, Said};
pub use field::{push_datum, push_text, push_time};
pub use fields::Fields;
pub use form::Form;
pub use laws::{
    entries_are_within, events_are_printed, lines_are_fields, lines_say_what_they_spell,
    printed_records_spell_their_fields,
};
pub use number::{read_number, read_places, read_whole};
pub use number_text::push_number;
pub use output_line::{push_end_line, push_punctuation, push_start_line};
pub use read::read_cells;
pub use rows::read_row;

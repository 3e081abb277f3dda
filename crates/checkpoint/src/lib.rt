//! Checkpoints: the text of what an engine was frozen to, written line by line and read back.
#![tactic(auto)]

mod entry;
mod fields;
mod form;
mod head;
mod laws;
mod line_laws;
mod owner;
mod places;
mod progress;
mod putting;
mod reader;
mod reading;
mod text;
mod values;
mod writing;

pub use form::Form;
pub use laws::{lines_are_short, no_text_goes_on, one_text_for_each};
pub use line_laws::{each_line_is_short, lines_say_what_was_written};
pub use places::{push_input_line, push_output_line, read_input_line, read_output_line};
pub use reader::{Reader, Taken};
pub use reading::{ReadingStage, TakeFault};
pub use values::formed_has_text;
pub use writing::{Place, write_entries, write_line};

//! The words of tempo's command line, read by `clap`.
#![tactic(auto)]

mod laws;
mod options;
mod texts;
mod words;

pub use laws::{commands_have_words, taken_words_spell_a_command, words_spell_one_command};
pub use texts::as_texts;
pub use words::{CommandLine, Keeping, Mode, WordsFault, read_words};

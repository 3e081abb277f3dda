//! Query texts: their words, their grammar, and the query that a text spells, or the first cause by which it spells none.
#![tactic(auto)]

mod choose;
mod cursor;
mod expression;
mod fault;
mod grammar_laws;
mod kind;
mod laws;
mod lex;
mod pipe;
mod query;
mod stack;
mod stop;
mod symbol;
mod text;
mod tree;
mod word;
mod word_laws;

pub use fault::{Fault, first_fault};
pub use grammar_laws::{
    queries_have_no_fault, texts_have_one_answer, tokens_are_sound, tokens_spell_one_query,
};
pub use laws::{texts_have_one_fault, texts_spell_one_query};
pub use lex::words;
pub use query::{
    AggFun, AggList, Item, ItemList, Let, LetList, NameList, Pipe, Query, QueryAgg, QueryStep,
    StepList, TreeList,
};
pub use text::parse;
pub use tree::{Tree, TreeNode};
pub use word::{Sign, Spot, Word};
pub use word_laws::{
    bytes_are_one_word, one_word_is_taken, spots_keep_their_form, texts_fall_into_words,
    words_are_longest,
};

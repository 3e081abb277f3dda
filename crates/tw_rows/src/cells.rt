// Data, and rows of them.
ghost use Rattle.std.specs.Prelude.{◌≡◌, ◌≤◌, ◌↔◌, ℕ, pos, List, ◌++◌, IsTrue, IsOk, IfOk, OnOk, OnErr, length, take};
ghost use Rattle.std.specs.Cmp.{partial_equiv_from_equiv};
ghost use Rattle.std.specs.Hash as fed;
ghost use Rattle.std.specs.Hash.{same_Alike};
ghost use Rattle.tw_rows.specs.Kinds.{value_kind, cell_kind_of};
ghost use Rattle.tw_rows.specs.Texts.{BeginsWith};
ghost use Rattle.tw_rows.specs.Cells.{datum_kind, IsPlaced, ArePlaced, read_datum, read_cells, with_value, with_row};
ghost use Rattle.tw_rows.specs.SameCells.{same_cells as same, same_cells-Decides, same_cells_equiv};
ghost use Rattle.tw_rows.specs.declared.cells.Datum.{Datum};
ghost use Rattle.tw_rows.specs.Words.{word_of, mixed, word_of_cells, datum_eq-Decides};

use crate::kind::CellKind;
use crate::memory::Memory;
use crate::row::{Row, Value};
use crate::texts::TextTable;
use smallvec::SmallVec;
use std::alloc::{AllocError, Global};
use std::hash::{Hash, Hasher};
use std::marker::Model;

/// A value as cells hold it: a text is its place in the table of texts.
#[derive(Clone, Copy, Debug, PartialEq, Eq)]
pub enum Datum {
    Int(i64),
    Bool(bool),
    Text(u64),
}

/// A datum is hashed as its word.
impl Hash for Datum {
    ghost hash_input = { λ d. fed.u64 (word_of d) };

    ghost respects_eq = { (same_Alike (λ d. fed.u64 (word_of d)) datum_eq-Decides).fed };

    fn hash<H: Hasher>(&self, state: &mut H) {
        self.word().hash(state);
    }
}

/// The int 0, with which unused room for cells is filled.
impl Default for Datum {
    ghost is_default = { λ d. d ≡ Datum.Int (pos 0) };

    fn default() -> Datum {
        Datum::Int(0)
    }
}

impl Datum {
    /// How the datum is stored.
    pub fn cell_kind(self) -> CellKind
        ensures { result ≡ datum_kind self }
    {
        match self {
            Datum::Int(_) => CellKind::Whole,
            Datum::Bool(_) => CellKind::Bit,
            Datum::Text(_) => CellKind::Place,
        }
    }

    /// The datum as 64 bits: an int's, 0 or 1 for a flag, the place of a text.
    pub fn word(self) -> u64
        ensures { result ≡ word_of self }
    {
        match self {
            Datum::Int(number) => number.cast_unsigned(),
            Datum::Bool(flag) => u64::from(flag),
            Datum::Text(place) => place,
        }
    }
}

/// A row of at most so many cells takes no memory of its own.
pub const SHORT_ROW: usize = 4;

/// A row of data, in the order of the columns.
pub struct Cells {
    data: SmallVec<Datum, SHORT_ROW>,
}

// By hand, so that crates that let one go cite this and not the destructors of its parts.
impl Drop for Cells {
    fn drop(self) {
        let Cells { data: _data } = self;
    }
}

impl Model for Cells {
    ghost use Rattle.std.specs.Prelude.{List};
    ghost use Rattle.tw_rows.specs.declared.cells.Datum.{Datum as Item};

    ghost Value = { List Item };

    ghost view = { λ c. c.data.items };
}

impl Cells {
    /// The cells with these data, which are moved and not copied.
    pub fn new(cells: SmallVec<Datum, SHORT_ROW>) -> Cells
        ensures { result ≡ cells.items }
    {
        Cells { data: cells }
    }

    /// A copy of these data as cells. Memory is taken only for more than 4.
    pub fn from_slice(alloc: Global, items: &[Datum]) -> Result<Cells, Memory>
        ensures ok { IfOk result (λ cells. cells ≡ items.now) }
        ensures succeeds { length items.now ≤ 4 → IsOk result }
    {
        Ok(Cells {
            data: SmallVec::from_slice(alloc, items)?,
        })
    }

    /// The data in the order of the columns.
    pub fn items(&self) -> &[Datum]
        ensures { result.now ≡ self.now }
    {
        self.data.as_slice()
    }
}

/// A copy is the same row. None of at most 4 cells fails.
impl Clone for Cells {
    ghost is_clone = { λ cells copy. copy ≡ cells };

    ghost is_infallible = { λ cells. length cells ≤ 4 };

    fn clone(&self) -> Result<Cells, AllocError> {
        Ok(Cells {
            data: SmallVec::from_slice(*self.data.allocator(), self.items())?,
        })
    }
}

impl PartialEq for Cells {
    ghost eq = { same };

    ghost laws = { partial_equiv_from_equiv same_cells_equiv };

    #[tactic(auto, using(crate::proofs::CellEquality::cells_eq_same))]
    fn eq(&self, other: &Cells) -> bool {
        self.items() == other.items()
    }
}

impl Eq for Cells {
    ghost laws = { same_cells_equiv };
}

/// Cells are hashed as one word, since the cells of a map are of the same columns: each cell's word is mixed in.
impl Hash for Cells {
    ghost hash_input = { λ cells. fed.u64 (word_of_cells cells) };

    ghost respects_eq = { (same_Alike (λ cells. fed.u64 (word_of_cells cells)) same_cells-Decides).fed };

    fn hash<H: Hasher>(&self, state: &mut H) {
        mixed_words(self.items()).hash(state);
    }
}

/// What words are multiplied by as they are mixed: the prime of the FNV hash of 64 bits.
const FACTOR: u64 = 1099511628211;

/// The word of the cells: those of their data, mixed in one after the other. Equal cells have equal words, and data that
/// are apart mostly have words that are apart: so a word is compared before the cells are.
pub fn mixed_words(cells: &[Datum]) -> u64
    ensures { result ≡ word_of_cells cells.now }
{
    let mut words = 0;
    for datum in cells {
        words = mix_words(words, datum.word());
    }
    words
}

/// The words once one more is mixed in, as the FNV hash of 64 bits mixes a byte.
pub fn mix_words(words: u64, word: u64) -> u64
    ensures { result ≡ mixed words word }
{
    (words ^ word).wrapping_mul(FACTOR)
}

/// Whether the cells are the same, as `==` has it.
pub fn same_cells(a: &Cells, b: &Cells) -> bool
    ensures test { result ≡ same a.now b.now }
    ensures same { IsTrue result ↔ (a.now ≡ b.now) }
{
    a == b
}

/// The datum of a value. Its text is in the table then.
pub fn to_datum(value: &Value, texts: &mut TextTable) -> Result<Datum, Memory>
    ensures read { IfOk result (λ datum. read_datum texts.new datum ≡ value.now) }
    ensures placed { IfOk result (λ datum. IsPlaced texts.new datum) }
    ensures table { OnOk result (texts.new ≡ with_value texts.old value.now) }
    ensures err { OnErr result (texts.new ≡ texts.old) }
{
    Ok(match value {
        Value::Int(number) => Datum::Int(*number),
        Value::Bool(flag) => Datum::Bool(*flag),
        Value::Text(text) => Datum::Text(texts.intern(text.as_str())?),
    })
}

/// The cells of a row. Its texts are in the table then; after a refusal those of the values so far.
pub fn to_cells(alloc: Global, row: &Row, texts: &mut TextTable) -> Result<Cells, Memory>
    ensures read { IfOk result (λ cells. read_cells texts.new cells ≡ row.now) }
    ensures placed { IfOk result (λ cells. ArePlaced texts.new cells) }
    ensures table { OnOk result (texts.new ≡ with_row texts.old row.now) }
    ensures err { OnErr result ((n : ℕ) × (texts.new ≡ with_row texts.old (take n row.now))) }
    ensures begins { BeginsWith texts.new texts.old }
{
    let mut data = SmallVec::new(alloc);
    for value in row.values() {
        data.push(to_datum(value, texts)?)?;
    }
    Ok(Cells::new(data))
}

/// Cells stand for the same row for good: where texts come after those of a table, each datum keeps its place and its value.
/// A datum is stored as values of its kind are.
pub fn cells_keep_their_row()
    ensures placed { (texts more : List (List ℕ)) (cells : List Datum) → ArePlaced texts cells →
        ArePlaced (texts ++ more) cells }
    ensures read { (texts more : List (List ℕ)) (cells : List Datum) → ArePlaced texts cells →
        read_cells (texts ++ more) cells ≡ read_cells texts cells }
    ensures stored { (texts : List (List ℕ)) (datum : Datum) →
        datum_kind datum ≡ cell_kind_of (value_kind (read_datum texts datum)) }
{}

/// The test of cells is true exactly where they are the same.
pub fn same_cells_are_equal()
    ensures { (a b : List Datum) → IsTrue (same a b) ↔ (a ≡ b) }
{}

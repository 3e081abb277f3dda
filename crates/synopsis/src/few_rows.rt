// A few open rows in a list, looked at one by one.
ghost use Rattle.std.specs.Prelude.{◌≡◌, ◌<◌, ◌++◌, ◌∷◌, [], List, length, drop, cond, OnOk, IfSome, IfNone};
ghost use Rattle.tw_rows.specs.declared.cells.Datum.{Datum};
ghost use Rattle.tw_rows.specs.SameCells.{same_cells as same};
ghost use Rattle.tw_rows.specs.Words.{word_of_cells};
ghost use Rattle.edge_stream.specs.Entries.{entries_of};
ghost use Rattle.sweep_laws.specs.Saving.{starts_of};
ghost use Rattle.synopsis.specs.Queued.{queue_of};
ghost use Rattle.synopsis.specs.Marked.{is_marked, held_rows, AreMarked, HasNone, IsFirst};

use edge_stream::Saved;
use std::alloc::Global;
use std::marker::Model;
use tw_rows::{Cells, Memory, Time, mixed_words, same_cells};

// How many rows are few: so many words are looked at sooner than a map.
const FEW: usize = 16;

/// A row with its start, and the word of its cells, by which most other rows are told from it.
#[derive(Drop)]
pub(crate) struct MarkedRow {
    pub(crate) word: u64,
    pub(crate) cells: Cells,
    pub(crate) start: Time,
}

/// A few rows, those of equal cells in the order of their starts. Contracts see them without their words.
#[derive(Drop)]
pub(crate) struct FewRows {
    rows: Vec<MarkedRow>,
}

impl Model for FewRows {
    ghost use Rattle.std.specs.Prelude.{List};
    ghost use Rattle.tw_rows.specs.declared.edge.HeldRow.{HeldRow};
    ghost use Rattle.synopsis.specs.Marked.{held_rows, AreMarked};

    ghost Value = { List HeldRow };

    ghost view = { λ f. held_rows f.rows.items };

    ghost invariant = { λ f. AreMarked f.rows.items };
}

// Whether the row has these cells, whose word is given.
fn is_row(row: &MarkedRow, word: u64, cells: &Cells) -> bool
    ensures { is_marked row.now → word ≡ word_of_cells cells.now →
        result ≡ same cells.now row.now.cells }
{
    row.word == word && same_cells(cells, &row.cells)
}

// The place of the first row of these cells.
fn place_of(rows: &[MarkedRow], cells: &Cells) -> Option<usize>
    ensures within { IfSome result (λ i. i < length rows.now) }
    ensures first { IfSome result (λ i. AreMarked rows.now → IsFirst cells.now rows.now i) }
    ensures none { IfNone result (AreMarked rows.now → HasNone cells.now rows.now) }
{
    let word = mixed_words(cells.items());
    for i in 0..rows.len() {
        if is_row(&rows[i], word, cells) {
            return Some(i);
        }
    }
    None
}

// Adds an entry of a row.
fn save_row(saved: &mut Saved, part: u64, row: &MarkedRow) -> Result<(), Memory>
    ensures { OnOk result (saved.new ≡ saved.old ++ entries_of part
        (starts_of (record { cells = row.now.cells; start = row.now.start } ∷ []))) }
{
    saved.push_cells(part, row.start, Time::bounds().1, &row.cells)?;
    Ok(())
}

// Adds an entry of each row.
fn save_rows(saved: &mut Saved, part: u64, rows: &[MarkedRow]) -> Result<(), Memory>
    ensures { OnOk result (saved.new ≡ saved.old ++ entries_of part
        (starts_of (held_rows rows.now))) }
{
    for row in rows {
        save_row(saved, part, row)?;
    }
    Ok(())
}

impl FewRows {
    /// No row.
    pub(crate) fn new(alloc: Global) -> FewRows
        ensures { result ≡ [] }
    {
        FewRows {
            rows: Vec::new(alloc),
        }
    }

    /// How many rows there are.
    pub(crate) fn len(&self) -> usize
        ensures { result ≡ length self.now }
    {
        self.rows.len()
    }

    /// Whether there are fewer rows than are looked at one by one.
    pub(crate) fn has_room(&self) -> bool {
        self.rows.len() < FEW
    }

    /// Puts a row last.
    pub(crate) fn push(&mut self, cells: &Cells, start: Time) -> Result<(), Memory>
        ensures { OnOk result (self.new ≡ self.old
            ++ record { cells = cells.now; start = start } ∷ []) }
    {
        let word = mixed_words(cells.items());
        let kept = cells.clone()?;
        self.rows.push(MarkedRow {
            word,
            cells: kept,
            start,
        })?;
        Ok(())
    }

    /// Takes the first row of these cells out, and gives its start.
    #[tactic(auto, using(crate::proofs::MarkedRows::marked_less))]
    pub(crate) fn take(&mut self, cells: &Cells) -> Option<Time>
        ensures first { IfSome result (λ start. queue_of self.old cells.now
            ≡ start ∷ drop 1 (queue_of self.old cells.now)) }
        ensures rest { IfSome result (λ start. (c : List Datum) → queue_of self.new c
            ≡ cond (same cells.now c) (drop 1 (queue_of self.old c)) (queue_of self.old c)) }
        ensures none { IfNone result (queue_of self.old cells.now ≡ []) }
        ensures kept { IfNone result (self.new ≡ self.old) }
    {
        let Some(place) = place_of(self.rows.as_slice(), cells) else {
            return None;
        };
        let row = self.rows.remove(place);
        Some(row.start)
    }

    /// Adds an entry of that part for the start of each row.
    pub(crate) fn save(&self, saved: &mut Saved, part: u64) -> Result<(), Memory>
        ensures { OnOk result (saved.new ≡ saved.old ++ entries_of part (starts_of self.now)) }
    {
        save_rows(saved, part, self.rows.as_slice())
    }
}

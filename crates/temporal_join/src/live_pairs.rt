// The pairs of rows with the few rows of the other side.
ghost use Rattle.std.specs.Prelude.{◌≡◌, ◌≤◌, ◌<◌, ◌+◌, ℕ, suc, [], ◌∷◌, ◌++◌, min, map, filter, length, cond, IsTrue, ◌↔◌, not, true, OnOk, IfOk};
ghost use Rattle.tw_rows.specs.Bag.{total};
ghost use Rattle.tw_rows.specs.Instant.{inf};
ghost use Rattle.tw_rows.specs.Words.{word_of_cells};
ghost use Rattle.tw_rows.specs.declared.edge.HeldRow.{HeldRow};
ghost use Rattle.edge_history.specs.Order.{failing};
ghost use Rattle.synopsis.specs.Held.{key_of as key_data, is_of_key};
ghost use Rattle.sweep_laws.specs.Moves.{Adds, told_at};
ghost use Rattle.temporal_join.specs.Lives.{row_of, life_rows, ends_at, is_begun};

use crate::lives::{Life, Lives};
use crate::pairs::{Pairing, cell_at, key_of, other_time};
use smallvec::SmallVec;
use std::alloc::Global;
use std::mem::replace;
use synopsis::lone_key;
use tw_rows::{Cells, Datum, Edge, Memory, Time, mixed_words};

// Of one datum and another, as a call of its own, whose clause the loop cites.
fn same_datum(a: Datum, b: Datum) -> bool
    ensures { IsTrue result ↔ (a ≡ b) }
{
    a == b
}

// The word of the key of a row.
fn word_of(alloc: Global, columns: &[usize], cells: &[Datum]) -> Result<u64, Memory>
    ensures { IfOk result (λ word. word ≡ word_of_cells (key_data columns.now cells.now)) }
{
    // A key of one column needs no copy.
    if let Some(key) = lone_key(columns, cells) {
        return Ok(mixed_words(key));
    }
    let key = key_of(alloc, columns, cells)?;
    Ok(mixed_words(key.as_slice()))
}

// Whether a row has the data of another in its key columns.
fn same_key(own: &[usize], cells: &[Datum], columns: &[usize], row: &[Datum]) -> bool
    ensures { (start : ℕ) → result ≡ is_of_key columns.now (key_data own.now cells.now)
        (record { cells = row.now; start = start }) }
{
    if columns.len() != own.len() {
        return false;
    }
    for i in 0..columns.len() {
        if !same_datum(cell_at(row, columns[i]), cell_at(cells, own[i])) {
            return false;
        }
    }
    true
}

// The same, where the words of both keys are known: these are compared first.
#[inline(always)]
fn is_partner(word: u64, own: &[usize], cells: &[Datum], columns: &[usize], other: &Life) -> bool
    ensures { word ≡ word_of_cells (key_data own.now cells.now) →
        other.now.word ≡ word_of_cells (key_data columns.now other.now.edge.cells) →
        result ≡ is_of_key columns.now (key_data own.now cells.now) (row_of other.now) }
{
    if other.word != word {
        return false;
    }
    same_key(own, cells, columns, other.edge.cells.items())
}

impl<'a> Pairing<'a> {
    ghost use Rattle.temporal_join.specs.Pairing.{own_key, other_key, pair_with, told_pairs, EndsTold, StartsTold};

    // Emits the start or the end of each pair of a row whose key has that word.
    fn tell_lives(
        &self,
        answer: &mut Vec<Edge>,
        starts: bool,
        cells: &[Datum],
        start: Time,
        word: u64,
        others: &Lives,
    ) -> Result<(), Memory>
        ensures { OnOk result (word ≡ word_of_cells (key_data (own_key self.now) cells.now) →
            answer.new.items ≡ answer.old.items ++ map
            (λ y. told_at starts self.now.at (pair_with self.now
            (record { cells = cells.now; start = start }) y)) (filter (is_of_key others.now.columns
            (key_data (own_key self.now) cells.now)) (life_rows others.now.lives))) }
    {
        let lives = others.lives();
        for other in lives {
            self.tell_partner(answer, starts, cells, start, word, others.columns(), other)?;
        }
        Ok(())
    }

    // Emits the start or the end of the pair of a row with another, if that has its key.
    #[inline(always)]
    fn tell_partner(
        &self,
        answer: &mut Vec<Edge>,
        starts: bool,
        cells: &[Datum],
        start: Time,
        word: u64,
        columns: &[usize],
        other: &Life,
    ) -> Result<(), Memory>
        ensures { OnOk result (word ≡ word_of_cells (key_data (own_key self.now) cells.now) →
            other.now.word ≡ word_of_cells (key_data columns.now other.now.edge.cells) →
            answer.new.items ≡ answer.old.items ++ cond (is_of_key columns.now
            (key_data (own_key self.now) cells.now) (row_of other.now)) (told_at starts self.now.at
            (pair_with self.now (record { cells = cells.now; start = start }) (row_of other.now))
            ∷ []) []) }
    {
        if !is_partner(word, self.key(), cells, columns, other) {
            return Ok(());
        }
        self.tell_one(answer, starts, cells, start, other)?;
        Ok(())
    }

    // Emits the start or the end of the pair of two rows.
    fn tell_one(
        &self,
        answer: &mut Vec<Edge>,
        starts: bool,
        cells: &[Datum],
        start: Time,
        other: &Life,
    ) -> Result<(), Memory>
        ensures { OnOk result (answer.new.items ≡ answer.old.items ++
            told_at starts self.now.at (pair_with self.now
            (record { cells = cells.now; start = start }) (row_of other.now)) ∷ []) }
    {
        let edge = &other.edge;
        answer.push(Edge {
            sync: self.at,
            other: other_time(starts, start, edge.sync),
            cells: self.cells(cells, edge.cells.items())?,
        })?;
        Ok(())
    }

    /// Takes out the rows of one side that end at the instant, and emits the ends of their pairs.
    pub(crate) fn end_lives(
        &self,
        own: &mut Lives,
        others: &Lives,
        answer: &mut Vec<Edge>,
    ) -> Result<(), Memory>
        ensures told { OnOk result (EndsTold self.now own.old own.new others.now
            answer.old.items answer.new.items) }
        ensures gone { OnOk result
            (failing (λ l. not (ends_at self.now.at l)) own.new.lives ≡ 0) }
        ensures columns { own.new.columns ≡ own.old.columns }
    {
        while let Some(life) = own.pop_end(self.at) {
            let edge = &life.edge;
            self.tell_lives(
                answer,
                false,
                edge.cells.items(),
                edge.sync,
                life.word,
                others,
            )?;
        }
        Ok(())
    }

    // Emits the starts of the pairs of a row that starts, and puts it in: its cells move out of the edge.
    fn start_life(
        &self,
        own: &mut Lives,
        others: &Lives,
        answer: &mut Vec<Edge>,
        edge: &mut Edge,
    ) -> Result<(), Memory>
        requires { is_begun self.now.at edge.old ≡ true }
        ensures told { OnOk result (StartsTold self.now own.old own.new others.now
            (edge.old ∷ []) answer.old.items answer.new.items) }
        ensures gone { OnOk result
            (failing (λ l. not (ends_at self.now.at l)) own.old.lives ≡ 0 →
            failing (λ l. not (ends_at self.now.at l)) own.new.lives ≡ 0) }
        ensures columns { own.new.columns ≡ own.old.columns }
    {
        let word = word_of(self.alloc, own.columns(), edge.cells.items())?;
        self.tell_lives(answer, true, edge.cells.items(), edge.sync, word, others)?;
        let none = Cells::new(SmallVec::new(self.alloc));
        let start = Edge {
            sync: edge.sync,
            other: edge.other,
            cells: replace(&mut edge.cells, none),
        };
        own.add(start, word)?;
        Ok(())
    }

    /// Puts in the rows of one side that start, and emits the starts of their pairs.
    pub(crate) fn start_lives(
        &self,
        own: &mut Lives,
        others: &Lives,
        answer: &mut Vec<Edge>,
        now: &mut [Edge],
    ) -> Result<(), Memory>
        requires { failing (is_begun self.now.at) now.old ≡ 0 }
        ensures told { OnOk result (StartsTold self.now own.old own.new others.now
            now.old answer.old.items answer.new.items) }
        ensures gone { OnOk result
            (failing (λ l. not (ends_at self.now.at l)) own.old.lives ≡ 0 →
            failing (λ l. not (ends_at self.now.at l)) own.new.lives ≡ 0) }
        ensures columns { own.new.columns ≡ own.old.columns }
    {
        for edge in now.iter_mut() {
            self.start_life(own, others, answer, edge)?;
        }
        Ok(())
    }
}

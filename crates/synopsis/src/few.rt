// A few rows in a list, those of a key side by side.
ghost use Rattle.std.specs.Prelude.{◌≡◌, ◌↔◌, ◌≤◌, ◌<◌, ◌+◌, [], ℕ, IsTrue, true, false};
ghost use Rattle.std.specs.Prelude.{IfOk, IfSome, IfNone, OnOk, OnErr, filter, map, take, drop, length};
ghost use Rattle.std.specs.List.{insert};
ghost use Rattle.std.specs.Vec.{vec_len, vec_capacity};
ghost use Rattle.tw_rows.specs.Bag.{total};
ghost use Rattle.tw_rows.specs.Words.{word_of_cells};
ghost use Rattle.tw_rows.specs.declared.edge.HeldRow.{HeldRow};
ghost use Rattle.edge_history.specs.Order.{many};
ghost use Rattle.edge_history.specs.Opens.{is_held};
ghost use Rattle.synopsis.specs.Held.{IsPlace, key_of, is_of_key};
ghost use Rattle.synopsis.specs.Few.{key_word, NonePass, AllPass, IsOver, StandsHere, MayFill};

use crate::bucket::is_row;
use crate::key_room::cell_at;
use std::alloc::Global;
use std::marker::Model;
use tw_rows::{Cells, Datum, HeldRow, Memory, Time, mixed_words};

/// Rows in a list. Those with the same data in the key columns stand side by side; they are found by a walk.
pub struct Few {
    columns: Vec<usize>,
    rows: Vec<HeldRow>,
    // Beside each row the word of its key, which is compared before the key itself.
    words: Vec<u64>,
}

// By hand, so that crates that let one go cite this and not the destructors of its parts.
impl Drop for Few {
    fn drop(self) {
        let Few {
            columns: _columns,
            rows: _rows,
            words: _words,
        } = self;
    }
}

impl Model for Few {
    ghost use Rattle.synopsis.specs.Few.{FewRows, AreFew};

    ghost Value = { FewRows };

    ghost view = { λ f. record { columns = f.columns.items; rows = f.rows.items } };

    ghost invariant = { λ f. AreFew f.columns.items f.rows.items f.words.items };
}

// Of one datum and another, as a call of its own, whose clause the loop cites.
fn same_datum(a: Datum, b: Datum) -> bool
    ensures { IsTrue result ↔ (a ≡ b) }
{
    a == b
}

// Whether the row has the data of the key in the key columns.
fn has_key(row: &HeldRow, columns: &[usize], key: &[Datum]) -> bool
    ensures { result ≡ is_of_key columns.now key.now row.now }
{
    if columns.len() != key.len() {
        return false;
    }
    for i in 0..columns.len() {
        if !same_datum(cell_at(row.cells.items(), columns[i]), key[i]) {
            return false;
        }
    }
    true
}

// The same, where the words of both keys are known: these are compared first.
#[inline(always)]
fn is_found(row: &HeldRow, own: u64, columns: &[usize], key: &[Datum], word: u64) -> bool
    requires own { own ≡ key_word columns.now row.now }
    requires word { word ≡ word_of_cells key.now }
    ensures { result ≡ is_of_key columns.now key.now row.now }
{
    if own != word {
        return false;
    }
    has_key(row, columns, key)
}

// The place of the first row with that key. Where there is none, the place behind the last row.
fn first_with(rows: &[HeldRow], words: &[u64], columns: &[usize], key: &[Datum], word: u64) -> usize
    requires words { words.now ≡ map (key_word columns.now) rows.now }
    requires word { word ≡ word_of_cells key.now }
    ensures within { result ≤ length rows.now }
    ensures before { NonePass (is_of_key columns.now key.now) (take result rows.now) }
    ensures here { StandsHere (is_of_key columns.now key.now) (drop result rows.now) }
{
    for i in 0..rows.len() {
        if is_found(&rows[i], words[i], columns, key, word) {
            return i;
        }
    }
    rows.len()
}

// How many rows with that key the list begins with.
fn count_with(rest: &[HeldRow], columns: &[usize], key: &[Datum]) -> usize
    ensures within { result ≤ length rest.now }
    ensures all { AllPass (is_of_key columns.now key.now) (take result rest.now) }
    ensures next { IsOver (is_of_key columns.now key.now) (drop result rest.now) }
{
    for i in 0..rest.len() {
        if !has_key(&rest[i], columns, key) {
            return i;
        }
    }
    rest.len()
}

// A place of the row.
fn place_of(rows: &[HeldRow], cells: &[Datum], start: Time) -> Option<usize>
    ensures found { IfSome result (IsPlace cells.now start rows.now) }
    ensures none { IfNone result (many (is_held cells.now start) rows.now ≡ 0) }
{
    for i in 0..rows.len() {
        if is_row(&rows[i], cells, start) {
            return Some(i);
        }
    }
    None
}

// Puts an item at the place. There is room for it, and mostly the place is the end, where no other item moves.
fn put_at<T: Drop>(list: &mut Vec<T>, place: usize, item: T)
    requires within { place ≤ vec_len list.old }
    requires room { vec_len list.old < vec_capacity list.old }
    ensures items { list.new.items ≡ insert list.old.items place item }
    ensures capacity { vec_capacity list.old ≤ vec_capacity list.new }
{
    if place == list.len() {
        let pushed = list.push(item).is_ok();
        prove!(pushed);
        return;
    }
    let stands = list.insert(place, item).is_ok();
    prove!(stands);
}

// Whether the last row may take the place of that one, by their words. Where at most one row stands behind it nothing is gained.
#[inline(always)]
fn may_fill(words: &[u64], place: usize) -> bool
    requires within { place < length words.now }
    ensures { result ≡ true → MayFill words.now place }
{
    let last = words.len() - 1;
    place + 1 < last
        && words[last - 1] != words[last]
        && (place == 0 || words[place - 1] != words[place + 1])
}

impl Few {
    /// No rows, by these key columns.
    pub fn new(alloc: Global, columns: &[usize]) -> Result<Few, Memory>
        ensures columns { IfOk result (λ f. f.columns ≡ columns.now) }
        ensures rows { IfOk result (λ f. f.rows ≡ []) }
    {
        Ok(Few {
            columns: Vec::from_slice(alloc, columns)?,
            rows: Vec::new(alloc),
            words: Vec::new(alloc),
        })
    }

    /// All rows.
    pub fn rows(&self) -> &[HeldRow]
        ensures { result.now ≡ self.now.rows }
    {
        self.rows.as_slice()
    }

    /// The rows of a key.
    pub fn rows_with(&self, key: &[Datum]) -> &[HeldRow]
        ensures { result.now ≡ filter (is_of_key self.now.columns key.now) self.now.rows }
    {
        let rows = self.rows.as_slice();
        let columns = self.columns.as_slice();
        let first = first_with(rows, self.words.as_slice(), columns, key, mixed_words(key));
        let count = count_with(&rows[first..], columns, key);
        &rows[first..first + count]
    }

    /// Puts in a row of that key. Out of memory nothing changes.
    pub fn put(&mut self, key: &[Datum], cells: Cells, start: Time) -> Result<(), Memory>
        requires { key.now ≡ key_of self.old.columns cells }
        ensures ok { OnOk result ((w : HeldRow → ℕ) → total w self.new.rows ≡ total w self.old.rows
            + w (record { cells = cells; start = start })) }
        ensures err { OnErr result (self.new.rows ≡ self.old.rows) }
        ensures columns { self.new.columns ≡ self.old.columns }
    {
        let word = mixed_words(key);
        let place = first_with(
            self.rows.as_slice(),
            self.words.as_slice(),
            self.columns.as_slice(),
            key,
            word,
        );
        self.rows.reserve(1)?;
        self.words.reserve(1)?;
        put_at(&mut self.words, place, word);
        put_at(&mut self.rows, place, HeldRow { cells, start });
        Ok(())
    }

    /// Takes out a row with these cells that began then, if there is one.
    pub fn take(&mut self, cells: &[Datum], start: Time) -> bool
        ensures taken { result ≡ true → (w : HeldRow → ℕ) → total w self.old.rows
            ≡ total w self.new.rows + w (record { cells = cells.now; start = start }) }
        ensures none { result ≡ false → many (is_held cells.now start) self.old.rows ≡ 0 }
        ensures unchanged { result ≡ false → self.new ≡ self.old }
        ensures columns { self.new.columns ≡ self.old.columns }
    {
        let Some(place) = place_of(self.rows.as_slice(), cells, start) else {
            return false;
        };
        // The last row moves, and not all those behind, where the rows of each key stay side by side.
        if may_fill(self.words.as_slice(), place) {
            self.words.swap_remove(place);
            self.rows.swap_remove(place);
            return true;
        }
        self.words.remove(place);
        self.rows.remove(place);
        true
    }

    /// Lets all rows go, and keeps their room.
    pub fn clear(&mut self)
        ensures rows { self.new.rows ≡ [] }
        ensures columns { self.new.columns ≡ self.old.columns }
    {
        self.rows.clear();
        self.words.clear();
    }
}

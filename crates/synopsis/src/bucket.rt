// The rows of one key, and once they are many an index of them.
ghost use Rattle.std.specs.Prelude.{◌≡◌, ◌+◌, ◌≤◌, ◌<◌, ◌++◌, ◌∷◌, [], ℕ, true, false, OnOk};
ghost use Rattle.std.specs.Prelude.{OnErr, IfOk, IfSome, IfNone, IsPermutation, length, get_or};
ghost use Rattle.std.specs.Vec.{vec_capacity};
ghost use Rattle.tw_rows.specs.Bag.{total};
ghost use Rattle.tw_rows.specs.declared.edge.HeldRow.{HeldRow};
ghost use Rattle.edge_history.specs.Order.{many};
ghost use Rattle.edge_history.specs.Opens.{is_held};
ghost use Rattle.synopsis.specs.Held.{IsPlace};
ghost use Rattle.synopsis.specs.Marks.{Fits};

use crate::marks::Marks;
use crate::word_hasher::WordHasher;
use std::alloc::Global;
use std::hash::{BuildHasher, BuildHasherDefault};
use std::marker::Model;
use tw_rows::{Cells, Datum, HeldRow, Memory, Time};

// The hash of a row, by which an index has its mark.
fn hash_of(cells: &[Datum], start: Time) -> u64 {
    BuildHasherDefault::<WordHasher>::default().hash_one((cells, start.word()))
}

// An index of these rows.
fn marks_of(alloc: Global, rows: &[HeldRow]) -> Result<Marks, Memory> {
    let mut marks = Marks::new(alloc);
    for row in rows {
        marks.push(hash_of(row.cells.items(), row.start))?;
    }
    Ok(marks)
}

// The index with the mark of the row that comes next. Where there is none it is made once there are many rows.
fn next_marked(
    alloc: Global,
    marks: Option<Box<Marks>>,
    rows: &[HeldRow],
    cells: &[Datum],
    start: Time,
) -> Result<Option<Box<Marks>>, Memory> {
    let mut marks = match marks {
        Some(marks) => marks,
        None if rows.len() >= MANY => Box::new(alloc, marks_of(alloc, rows)?)?,
        None => return Ok(None),
    };
    marks.push(hash_of(cells, start))?;
    Ok(Some(marks))
}

// The index, where it is that of so many rows. Another is let go, so that no mark outlives its row.
fn fitting(marks: Option<Box<Marks>>, rows: usize) -> Option<Box<Marks>>
    ensures { IfSome result (λ m. Fits rows m.value) }
{
    let marks = marks?;
    if marks.fits(rows) { Some(marks) } else { None }
}

// Whether the row has these cells and this start.
pub(crate) fn is_row(row: &HeldRow, cells: &[Datum], start: Time) -> bool
    ensures { result ≡ is_held cells.now start row.now }
{
    row.start == start && row.cells.items() == cells
}

// Among fewer rows than these one is found by a walk.
const MANY: usize = 32;

// The memory of so many rows is worth keeping for other rows.
const FEW: usize = 8;

/// Rows, in no order, each found by its cells and its start.
pub struct Bucket {
    rows: Vec<HeldRow>,
    // There since the rows were many, if it is not to be made anew with the next row.
    marks: Option<Box<Marks>>,
}

// By hand, so that crates that let one go cite this and not the destructors of its parts.
impl Drop for Bucket {
    fn drop(self) {
        let Bucket {
            rows: _rows,
            marks: _marks,
        } = self;
    }
}

impl Model for Bucket {
    ghost use Rattle.std.specs.Prelude.{List, IfSome, length};
    ghost use Rattle.tw_rows.specs.declared.edge.HeldRow.{HeldRow as Item};
    ghost use Rattle.synopsis.specs.Marks.{Fits};

    ghost Value = { List Item };

    ghost view = { λ b. b.rows.items };

    ghost invariant = { λ b. IfSome b.marks (λ m. Fits (length b.rows.items) m.value) };
}

impl Bucket {
    /// A row alone, in the memory of a list.
    pub fn of_one(mut rows: Vec<HeldRow>, cells: Cells, start: Time) -> Result<Bucket, Memory>
        ensures { IfOk result (λ b.
            b ≡ rows.items ++ record { cells = cells; start = start } ∷ []) }
    {
        rows.push(HeldRow { cells, start })?;
        Ok(Bucket { rows, marks: None })
    }

    /// The memory of its rows, where it is that of a few and there is no index. Its rows have no say: who takes it clears it.
    pub fn small_room(self) -> Option<Vec<HeldRow>>
        ensures { IfSome result (λ rows. vec_capacity rows ≤ 8) }
    {
        let Bucket { rows, marks } = self;
        if marks.is_none() && rows.capacity() <= FEW {
            Some(rows)
        } else {
            None
        }
    }

    /// The rows, side by side.
    pub fn rows(&self) -> &[HeldRow]
        ensures { result.now ≡ self.now }
    {
        self.rows.as_slice()
    }

    /// Puts in a row, as the last.
    pub fn add(&mut self, alloc: Global, cells: Cells, start: Time) -> Result<(), Memory>
        ensures ok { OnOk result (self.new ≡ self.old
            ++ record { cells = cells; start = start } ∷ []) }
        ensures err { OnErr result (self.new ≡ self.old) }
    {
        // Where there is no room the index is gone.
        let marks = self.marks.take();
        let marks = next_marked(alloc, marks, self.rows.as_slice(), cells.items(), start)?;
        self.rows.push(HeldRow { cells, start })?;
        self.marks = fitting(marks, self.rows.len());
        Ok(())
    }

    // A place of the row, as the index has it.
    pub(crate) fn guess(&self, cells: &[Datum], start: Time) -> Option<usize>
        ensures found { IfSome result (IsPlace cells.now start self.now) }
    {
        let Some(marks) = &self.marks else {
            return None;
        };
        let hash = hash_of(cells, start);
        for number in (0..marks.count(hash)).rev() {
            let place = marks.place(hash, number)?;
            if is_row(self.rows.get(place)?, cells, start) {
                return Some(place);
            }
        }
        None
    }

    // A place of the row, by a walk of all rows.
    fn walk(&self, cells: &[Datum], start: Time) -> Option<usize>
        ensures found { IfSome result (IsPlace cells.now start self.now) }
        ensures none { IfNone result (many (is_held cells.now start) self.now ≡ 0) }
    {
        for i in 0..self.rows.len() {
            if is_row(&self.rows[i], cells, start) {
                return Some(i);
            }
        }
        None
    }

    // A place of the row. The walk is for an index that lost it.
    fn find(&self, cells: &[Datum], start: Time) -> Option<usize>
        ensures found { IfSome result (IsPlace cells.now start self.now) }
        ensures none { IfNone result (many (is_held cells.now start) self.now ≡ 0) }
    {
        match self.guess(cells, start) {
            Some(i) => Some(i),
            None => self.walk(cells, start),
        }
    }

    // Takes the mark of the row that is to go, and tells its place then: it has changed places with the row whose mark it is.
    fn unmarked(
        &mut self,
        marks: &mut Option<Box<Marks>>,
        place: usize,
        cells: &[Datum],
        start: Time,
    ) -> usize
        requires within { place < length self.old }
        ensures within { result < length self.new }
        ensures same { IsPermutation self.old self.new }
        ensures moved { (d : HeldRow) → get_or self.new result d ≡ get_or self.old place d }
    {
        let Some(marks) = marks else {
            return place;
        };
        match marks.take(hash_of(cells, start)) {
            Some(last) if last < self.rows.len() => {
                self.rows.as_mut_slice().swap(place, last);
                last
            }
            _ => place,
        }
    }

    /// Takes out a row with these cells that began then, if there is one; the last row moves into the gap.
    pub fn take(&mut self, cells: &[Datum], start: Time) -> bool
        ensures taken { result ≡ true → (w : HeldRow → ℕ) → total w self.old ≡ total w self.new
            + w (record { cells = cells.now; start = start }) }
        ensures none { result ≡ false → many (is_held cells.now start) self.old ≡ 0 }
        ensures unchanged { result ≡ false → self.new ≡ self.old }
    {
        let Some(i) = self.find(cells, start) else {
            return false;
        };
        let mut marks = self.marks.take();
        let place = self.unmarked(&mut marks, i, cells, start);
        self.rows.swap_remove(place);
        self.marks = fitting(marks, self.rows.len());
        true
    }
}

// The pairs of the rows of two sides.
ghost use Rattle.std.specs.Prelude.{◌≡◌, ◌++◌, ◌∷◌, [], max, map, true, false, cond, OnOk, IfOk};
ghost use Rattle.tw_rows.specs.Instant.{inf};
ghost use Rattle.tw_rows.specs.declared.edge.HeldRow.{HeldRow};
ghost use Rattle.edge_history.specs.Opens.{ended_of, started_of, ended_rows, started_rows};
ghost use Rattle.plan_model.specs.Keys.{paired_row};
ghost use Rattle.sweep_laws.specs.Changes.{TakeIn, GiveUp, NoMore};
ghost use Rattle.sweep_laws.specs.Moves.{Adds, told_at, HoldsEnded};
ghost use Rattle.synopsis.specs.Held.{key_of as key_data, cell_or_zero};

use smallvec::SmallVec;
use std::alloc::Global;
use std::mem::replace;
use sweep_sides::pair_cells;
use synopsis::{HeldRow, Synopsis, lone_key};
use tw_rows::{Cells, Datum, Edge, Memory, Time};

/// How rows of one side are paired with those of the other at an instant: left rows, or right ones where `right` is set.
#[derive(Drop)]
pub(crate) struct Pairing<'a> {
    pub(crate) alloc: Global,
    pub(crate) left_key: &'a [usize],
    pub(crate) right_key: &'a [usize],
    pub(crate) right: bool,
    pub(crate) at: Time,
}

// The datum of a row in a column.
pub(crate) fn cell_at(cells: &[Datum], column: usize) -> Datum
    ensures { result ≡ cell_or_zero cells.now column }
{
    cells.get(column).copied().unwrap_or(Datum::Int(0))
}

// The data of a row in key columns.
pub(crate) fn key_of(
    alloc: Global,
    key: &[usize],
    cells: &[Datum],
) -> Result<SmallVec<Datum, 4>, Memory>
    ensures { IfOk result (λ k. k.items ≡ key_data key.now cells.now) }
{
    let mut data = SmallVec::<Datum, 4>::new(alloc);
    for i in 0..key.len() {
        data.push(cell_at(cells, key[i]))?;
    }
    Ok(data)
}

// The other time of the edge of a pair: infinity at its start, and at its end the later start of its rows.
pub(crate) fn other_time(starts: bool, a: Time, b: Time) -> Time
    ensures { result ≡ cond starts inf (max a b) }
{
    if starts {
        return Time::bounds().1;
    }
    if a < b { b } else { a }
}

impl<'a> Pairing<'a> {
    ghost use Rattle.temporal_join.specs.Pairing.{own_key, other_key, pair_with, told_pairs, TellsPairs};

    // The row of a pair.
    pub(crate) fn cells(&self, cells: &[Datum], other: &[Datum]) -> Result<Cells, Memory>
        ensures { IfOk result (λ row. row
            ≡ cond self.now.right (paired_row self.now.right_key.now other.now cells.now)
            (paired_row self.now.right_key.now cells.now other.now)) }
    {
        if self.right {
            pair_cells(self.alloc, self.right_key, other, cells)
        } else {
            pair_cells(self.alloc, self.right_key, cells, other)
        }
    }

    // Emits the start or the end of the pair of a row with each of some rows of the other side.
    fn tell(
        &self,
        answer: &mut Vec<Edge>,
        starts: bool,
        cells: &[Datum],
        start: Time,
        others: &[HeldRow],
    ) -> Result<(), Memory>
        ensures { OnOk result (answer.new.items ≡ answer.old.items ++ map
            (λ y. told_at starts self.now.at (pair_with self.now
            (record { cells = cells.now; start = start }) y)) others.now) }
    {
        for other in others {
            answer.push(Edge {
                sync: self.at,
                other: other_time(starts, start, other.start),
                cells: self.cells(cells, other.cells.items())?,
            })?;
        }
        Ok(())
    }

    // The key columns of the side of the rows.
    pub(crate) fn key(&self) -> &[usize]
        ensures { result.now ≡ own_key self.now }
    {
        if self.right {
            self.right_key
        } else {
            self.left_key
        }
    }

    // Emits the start or the end of each pair of a row, whose key is copied.
    fn tell_by_copy(
        &self,
        answer: &mut Vec<Edge>,
        starts: bool,
        cells: &[Datum],
        start: Time,
        others: &Synopsis,
    ) -> Result<(), Memory>
        ensures { OnOk result (TellsPairs self.now others.now starts
            (record { cells = cells.now; start = start } ∷ []) answer.old.items answer.new.items) }
    {
        let key = key_of(self.alloc, self.key(), cells)?;
        self.tell(answer, starts, cells, start, others.rows_of(key.as_slice()))?;
        Ok(())
    }

    // Emits the start or the end of each pair of a row: with those rows of the other side that have its key.
    #[inline(always)]
    fn tell_row(
        &self,
        answer: &mut Vec<Edge>,
        starts: bool,
        cells: &[Datum],
        start: Time,
        others: &Synopsis,
    ) -> Result<(), Memory>
        ensures { OnOk result (TellsPairs self.now others.now starts
            (record { cells = cells.now; start = start } ∷ []) answer.old.items answer.new.items) }
    {
        // A key of one column needs no copy.
        let Some(key) = lone_key(self.key(), cells) else {
            self.tell_by_copy(answer, starts, cells, start, others)?;
            return Ok(());
        };
        let partners = others.rows_of(key);
        // Mostly there are none.
        if partners.is_empty() {
            return Ok(());
        }
        self.tell(answer, starts, cells, start, partners)?;
        Ok(())
    }

    // Takes out the row that an end edge ends, and emits the ends of its pairs.
    #[inline(always)]
    fn end_one(
        &self,
        rows: &mut Synopsis,
        others: &Synopsis,
        answer: &mut Vec<Edge>,
        edge: &Edge,
    ) -> Result<(), Memory>
        ensures ended { OnOk result (HoldsEnded edge.now rows.old.rows →
            GiveUp rows.old.rows rows.new.rows (ended_of edge.now)) }
        ensures fewer { OnOk result (NoMore rows.old.rows rows.new.rows) }
        ensures told { OnOk result (others.now.key ≡ other_key self.now →
            HoldsEnded edge.now rows.old.rows → Adds answer.old.items answer.new.items
            (told_pairs self.now false (ended_of edge.now) others.now.rows)) }
        ensures key { rows.new.key ≡ rows.old.key }
    {
        if !edge.is_end() {
            return Ok(());
        }
        let cells = edge.cells.items();
        if !rows.take(cells, edge.other) {
            return Ok(());
        }
        self.tell_row(answer, false, cells, edge.other, others)?;
        Ok(())
    }

    /// Takes out the rows of one side that end, and emits the ends of their pairs. Of many instants one side has no edges.
    #[inline(always)]
    pub(crate) fn end_rows(
        &self,
        rows: &mut Synopsis,
        others: &Synopsis,
        answer: &mut Vec<Edge>,
        now: &[Edge],
    ) -> Result<(), Memory>
        ensures ended { OnOk result (NoMore rows.old.rows (ended_rows now.now) →
            GiveUp rows.old.rows rows.new.rows (ended_rows now.now)) }
        ensures fewer { OnOk result (NoMore rows.old.rows rows.new.rows) }
        ensures told { OnOk result (others.now.key ≡ other_key self.now →
            NoMore rows.old.rows (ended_rows now.now) → Adds answer.old.items answer.new.items
            (told_pairs self.now false (ended_rows now.now) others.now.rows)) }
        ensures key { rows.new.key ≡ rows.old.key }
    {
        for edge in now {
            self.end_one(rows, others, answer, edge)?;
        }
        Ok(())
    }

    // Emits the starts of the pairs of the row that a start edge starts, and puts it in: its cells move out of the edge.
    #[inline(always)]
    fn start_one(
        &self,
        rows: &mut Synopsis,
        others: &Synopsis,
        answer: &mut Vec<Edge>,
        edge: &mut Edge,
    ) -> Result<(), Memory>
        ensures started { OnOk result (TakeIn rows.old.rows rows.new.rows (started_of edge.old)) }
        ensures told { OnOk result (TellsPairs self.now others.now true
            (started_of edge.old) answer.old.items answer.new.items) }
        ensures key { rows.new.key ≡ rows.old.key }
    {
        if edge.is_end() {
            return Ok(());
        }
        self.tell_row(answer, true, edge.cells.items(), edge.sync, others)?;
        let none = Cells::new(SmallVec::new(self.alloc));
        rows.add(replace(&mut edge.cells, none), edge.sync)?;
        Ok(())
    }

    /// Puts in the rows of one side that start, and emits the starts of their pairs. Of many instants one side has no edges.
    #[inline(always)]
    pub(crate) fn start_rows(
        &self,
        rows: &mut Synopsis,
        others: &Synopsis,
        answer: &mut Vec<Edge>,
        now: &mut [Edge],
    ) -> Result<(), Memory>
        ensures started { OnOk result (TakeIn rows.old.rows rows.new.rows (started_rows now.old)) }
        ensures told { OnOk result (TellsPairs self.now others.now true
            (started_rows now.old) answer.old.items answer.new.items) }
        ensures key { rows.new.key ≡ rows.old.key }
    {
        for edge in now.iter_mut() {
            self.start_one(rows, others, answer, edge)?;
        }
        Ok(())
    }
}

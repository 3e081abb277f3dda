// The rows of a Group that are alive: in a line while they end in the order in which they came, and from the first end out of
// turn on found by their cells and starts.
ghost use Rattle.std.specs.Prelude.{◌≡◌, ◌+◌, ◌≤◌, ◌∷◌, ◌++◌, true, false, [], List, map, length, IfOk, OnOk, OnErr};
ghost use Rattle.tw_rows.specs.Bag.{SameBag};
ghost use Rattle.tw_rows.specs.declared.edge.HeldRow.{HeldRow};
ghost use Rattle.edge_history.specs.Order.{many};
ghost use Rattle.edge_history.specs.Opens.{is_held};
ghost use Rattle.edge_stream.specs.Entries.{entries_of};
ghost use Rattle.sweep_laws.specs.Saving.{starts_of};
ghost use Rattle.snapshot_agg.specs.Changing.{Gains, GainTogether, StayTogether, row_since};

use crate::saving::save_line;
use edge_stream::Saved;
use std::alloc::Global;
use std::collections::VecDeque;
use std::marker::Model;
use sweep_sides::save_rows;
use synopsis::Synopsis;
use tw_rows::{Cells, Datum, HeldRow, Memory, Time};

// Rows that are alive, each with its start.
#[derive(Drop)]
pub(crate) struct RowQueue {
    // Rows mostly end in the order in which they came, as those of windows do: they stand in a line here, and one that ends
    // is first looked for at its front.
    line: VecDeque<HeldRow>,
    // Once a row ends out of turn all rows come in here, where each is found by its cells and its start, until none is left.
    found: Synopsis,
    count: usize,
}

impl Model for RowQueue {
    ghost use Rattle.std.specs.Prelude.{◌≡◌, ◌++◌, length};
    ghost use Rattle.snapshot_agg.specs.AliveRows.{AliveRows};

    ghost Value = { AliveRows };

    ghost view = { λ l. record { rows = l.found.rows ++ l.line.items } };

    ghost invariant = { λ l. l.count ≡ length (l.found.rows ++ l.line.items) };
}

// Whether the row has these cells and this start.
fn is_row(row: &HeldRow, cells: &[Datum], start: Time) -> bool
    ensures { result ≡ is_held cells.now start row.now }
{
    row.start == start && row.cells.items() == cells
}

// Whether a row with these cells that began then stands first.
fn is_first(line: &VecDeque<HeldRow>, cells: &[Datum], start: Time) -> bool
    ensures { result ≡ true → (rest : List HeldRow)
        × (line.now.items ≡ row_since cells.now start ∷ rest) }
{
    match line.front() {
        Some(row) => is_row(row, cells, start),
        None => false,
    }
}

// Puts a row to the others. Running out of memory changes nothing.
fn put(
    line: &mut VecDeque<HeldRow>,
    found: &mut Synopsis,
    cells: Cells,
    start: Time,
) -> Result<(), Memory>
    ensures ok { OnOk result (GainTogether found.old.rows line.old.items
        found.new.rows line.new.items (row_since cells start)) }
    ensures err { OnErr result (StayTogether found.old.rows line.old.items
        found.new.rows line.new.items) }
{
    if found.len() > 0 {
        found.add(cells, start)?;
        return Ok(());
    }
    line.push_back(HeldRow { cells, start })?;
    Ok(())
}

// Brings the rows of the line to those that are found by their cells. Running out of memory loses none.
fn find_all(line: &mut VecDeque<HeldRow>, found: &mut Synopsis) -> Result<(), Memory>
    ensures same { StayTogether found.old.rows line.old.items found.new.rows line.new.items }
    ensures all { OnOk result (line.new.items ≡ []) }
{
    while let Some(row) = line.front() {
        let cells = row.cells.clone()?;
        let start = row.start;
        found.add(cells, start)?;
        line.pop_front();
    }
    Ok(())
}

// One less, if one was taken.
fn without(count: usize, taken: bool) -> usize
    requires { taken ≡ true → 1 ≤ count }
    ensures less { taken ≡ true → result + 1 ≡ count }
    ensures same { taken ≡ false → result ≡ count }
{
    if taken {
        return count - 1;
    }
    count
}

impl RowQueue {
    // No rows. Those that are found are found by these key columns.
    pub(crate) fn new(alloc: Global, key: &[usize]) -> Result<RowQueue, Memory>
        ensures { IfOk result (λ l. l.rows ≡ []) }
    {
        let found = Synopsis::new(alloc, key)?;
        Ok(RowQueue {
            line: VecDeque::new(alloc),
            found,
            count: 0,
        })
    }

    // Puts in a row.
    pub(crate) fn add(&mut self, cells: Cells, start: Time) -> Result<(), Memory>
        ensures { OnOk result (Gains self.old.rows self.new.rows (row_since cells start)) }
    {
        // A count that no longer fits is answered as out of memory.
        let Some(count) = self.count.checked_add(1) else {
            return Err(Memory);
        };
        put(&mut self.line, &mut self.found, cells, start)?;
        self.count = count;
        Ok(())
    }

    // Takes out a row with these cells that began then, if there is one, and answers whether there was.
    pub(crate) fn take(&mut self, cells: &[Datum], start: Time) -> Result<bool, Memory>
        ensures taken { IfOk result (λ taken. taken ≡ true →
            Gains self.new.rows self.old.rows (row_since cells.now start)) }
        ensures none { IfOk result (λ taken. taken ≡ false →
            many (is_held cells.now start) self.old.rows ≡ 0) }
        ensures same { IfOk result (λ taken. taken ≡ false → SameBag self.old.rows self.new.rows) }
    {
        if is_first(&self.line, cells, start) {
            self.line.pop_front();
            self.count -= 1;
            return Ok(true);
        }
        find_all(&mut self.line, &mut self.found)?;
        let taken = self.found.take(cells, start);
        self.count = without(self.count, taken);
        Ok(taken)
    }

    // How many rows there are.
    pub(crate) fn len(&self) -> usize
        ensures { result ≡ length self.now.rows }
    {
        self.count
    }

    // Adds the rows as entries of that part, each as its start.
    pub(crate) fn save(&self, saved: &mut Saved, part: u64) -> Result<(), Memory>
        ensures { OnOk result (saved.new ≡ saved.old ++ entries_of part (starts_of self.now.rows)) }
    {
        save_rows(saved, part, &self.found)?;
        save_line(saved, part, &self.line)?;
        Ok(())
    }
}

// The `impl Sweep` of an Anti: how its sides take new edges in, and their state saved and loaded.
ghost use Rattle.std.specs.Prelude.{◌≡◌, ◌≤◌, ◌++◌, ◌↔◌, IsTrue, ℕ, All, map, List, OnOk, OnErr, IfOk, IfErr};
ghost use Rattle.tw_rows.specs.Bag.{SameBag};
ghost use Rattle.tw_rows.specs.Cells.{datum_kind};
ghost use Rattle.tw_rows.specs.Kinds.{cell_kind_of};
ghost use Rattle.tw_rows.specs.Instant.{inf};
ghost use Rattle.tw_rows.specs.declared.edge.Edge.{Edge};
ghost use Rattle.tw_rows.specs.declared.kind.CellKind.{CellKind};
ghost use Rattle.edge_history.specs.Order.{failing, is_from, IsHistory};
ghost use Rattle.edge_history.specs.History.{of};
ghost use Rattle.edge_history.specs.Balance.{news};
ghost use Rattle.edge_stream.specs.Listing.{cells_of};
ghost use Rattle.edge_stream.specs.Entries.{part_of};
ghost use Rattle.sweep_sides.specs.Waiting.{queued};
ghost use Rattle.sweep_laws.specs.Saving.{rows_of};
ghost use Rattle.anti_join.specs.AntiJoined.{antis};
ghost use Rattle.anti_join.specs.Rows.{SameKeys, AreByKey};
ghost use Rattle.anti_join.specs.Times.{HaveOneTime};
ghost use Rattle.anti_join.specs.States.{AntiStored};

use crate::free_times::FreeTimes;
use crate::sweep::AntiRows;
use edge_stream::{EdgeList, LoadFault, PartRow, Saved, are_of_parts, edges_of_part};
use end_queue::EndQueue;
use std::alloc::Global;
use sweep_sides::{
    Sweep, are_rows, can_wait, kept_count, load_rows, load_waiting, save_rows, save_waiting,
    take_in,
};
use tw_rows::{Edge, Kind, Memory, Time};

/// The rows of both sides that are alive, and the pending edges of both sides.
pub struct AntiSides {
    pub(crate) rows: AntiRows,
    pub(crate) left_waiting: EndQueue,
    pub(crate) right_waiting: EndQueue,
}

// By hand, so that its users cite this and not the destructors of its parts.
impl Drop for AntiSides {
    fn drop(self) {
        let AntiSides {
            rows: _rows,
            left_waiting: _left_waiting,
            right_waiting: _right_waiting,
        } = self;
    }
}

// The times of that part, of keys in these columns.
fn load_times(
    alloc: Global,
    saved: &Saved,
    part: u64,
    key: &[usize],
) -> Result<FreeTimes, LoadFault>
    ensures key { IfOk result (λ f. f.key ≡ key.now) }
    ensures rows { IfOk result (λ f. SameBag f.rows (rows_of (part_of part saved.now))) }
    ensures single { OnOk result (HaveOneTime key.now (part_of part saved.now)) }
    ensures refused { IfErr result (λ fault. fault ≡ LoadFault.NotState →
        HaveOneTime key.now (part_of part saved.now) → ⊥) }
{
    let edges = edges_of_part(alloc, saved, part)?;
    FreeTimes::of_starts(alloc, key, &edges)
}

// Whether saved entries can be the state of an anti-join whose sides are closed up to a time, with columns of these kinds, but
// for keys with two times.
fn is_stored(saved: &Saved, left_kinds: &[Kind], right_kinds: &[Kind], to: Time) -> bool
    ensures { IsTrue result ↔ AntiStored (map cell_kind_of left_kinds.now)
        (map cell_kind_of right_kinds.now) to saved.now }
{
    if !are_of_parts(saved, 5) {
        return false;
    }
    if !are_rows(saved, 0, left_kinds, to) {
        return false;
    }
    if !are_rows(saved, 1, right_kinds, to) {
        return false;
    }
    if !can_wait(saved, 2, left_kinds, to) {
        return false;
    }
    if !can_wait(saved, 3, right_kinds, to) {
        return false;
    }
    are_rows(saved, 4, left_kinds, to)
}

impl AntiSides {
    ghost use Rattle.anti_join.specs.States.{AreSides};

    // Takes up the rows, the edges and the times that were saved. A fault changes nothing.
    fn take_up(&mut self, saved: &Saved) -> Result<(), LoadFault>
        ensures left { OnOk result (SameBag self.new.rows.left.rows
            (rows_of (part_of 0 saved.now))) }
        ensures right { OnOk result (SameBag self.new.rows.right.rows
            (rows_of (part_of 1 saved.now))) }
        ensures left_waiting { OnOk result (SameBag (queued self.new.left_waiting)
            (part_of 2 saved.now)) }
        ensures right_waiting { OnOk result (SameBag (queued self.new.right_waiting)
            (part_of 3 saved.now)) }
        ensures times { OnOk result (SameBag self.new.rows.times.rows
            (rows_of (part_of 4 saved.now))) }
        ensures by { OnOk result (AreByKey self.new.rows) }
        ensures sides { OnOk result ((left_kinds right_kinds : List CellKind) (to : ℕ) →
            AntiStored left_kinds right_kinds to saved.now →
            AreSides left_kinds right_kinds to self.new) }
        ensures single { OnOk result (HaveOneTime self.old.rows.left_key.columns
            (part_of 4 saved.now)) }
        ensures refused { IfErr result (λ fault. fault ≡ LoadFault.NotState →
            HaveOneTime self.old.rows.left_key.columns (part_of 4 saved.now) → ⊥) }
        ensures err { OnErr result (self.new ≡ self.old) }
        ensures left_key { self.new.rows.left_key ≡ self.old.rows.left_key }
        ensures right_key { self.new.rows.right_key ≡ self.old.rows.right_key }
    {
        let alloc = self.rows.alloc;
        let left_key = self.rows.left_key.columns();
        let right_key = self.rows.right_key.columns();
        let times = load_times(alloc, saved, 4, left_key)?;
        let left = load_rows(alloc, saved, 0, left_key)?;
        let right = load_rows(alloc, saved, 1, right_key)?;
        let left_waiting = load_waiting(alloc, saved, 2)?;
        let right_waiting = load_waiting(alloc, saved, 3)?;
        self.rows.left = left;
        self.rows.right = right;
        self.rows.times = times;
        self.left_waiting = left_waiting;
        self.right_waiting = right_waiting;
        Ok(())
    }
}

impl Sweep for AntiSides {
    ghost use Rattle.anti_join.specs.States.{SidesKeep, SidesFit, IsEmpty, AntiSound};
    ghost use Rattle.anti_join.specs.Operating.{anti_node, anti_entries, anti_row, Resumes};

    ghost node = { anti_node };

    ghost keeps = { SidesKeep };

    ghost fits = { SidesFit };

    ghost is_empty = { IsEmpty };

    ghost entries = { anti_entries };

    ghost sound = { λ s l r to saved. AntiSound s.rows.left.key l r to saved };

    ghost stored = { λ s l r to saved. AntiStored l r to saved };

    ghost resumes = { Resumes };

    ghost row_of_part = { anti_row };

    fn closes(&self, left_to: Time, right_to: Time) -> Time {
        left_to.min(right_to)
    }

    fn advance(
        &mut self,
        left: &EdgeList,
        right: &EdgeList,
        _from: Time,
        to: Time,
    ) -> Result<Vec<Edge>, Memory> {
        let left_due = take_in(&mut self.left_waiting, self.rows.alloc, left, to)?;
        let right_due = take_in(&mut self.right_waiting, self.rows.alloc, right, to)?;
        let mut answer = Vec::new(self.rows.alloc);
        self.rows
            .sweep(&mut answer, left_due.as_slice(), right_due.as_slice())?;
        // Its call tells the proof that no key has two times.
        let _ = self.rows.times.len();
        Ok(answer)
    }

    fn held(&self) -> u64 {
        let left = kept_count(&self.rows.left, &self.left_waiting);
        let right = kept_count(&self.rows.right, &self.right_waiting);
        let rows = left.saturating_add(right);
        let times = self.rows.times.len() as u64;
        rows.saturating_add(times)
    }

    fn save(&self) -> Result<Saved, Memory> {
        let alloc = self.rows.alloc;
        let mut saved = Saved::new(alloc);
        save_rows(&mut saved, 0, &self.rows.left)?;
        save_rows(&mut saved, 1, &self.rows.right)?;
        save_waiting(alloc, &mut saved, 2, &self.left_waiting)?;
        save_waiting(alloc, &mut saved, 3, &self.right_waiting)?;
        save_rows(&mut saved, 4, self.rows.times.rows())?;
        // Its call tells the proof that no key has two times.
        let _ = self.rows.times.len();
        Ok(saved)
    }

    fn load(
        &mut self,
        saved: &Saved,
        left_kinds: &[Kind],
        right_kinds: &[Kind],
        to: Time,
    ) -> Result<(), LoadFault> {
        if !is_stored(saved, left_kinds, right_kinds, to) {
            return Err(LoadFault::NotState);
        }
        self.take_up(saved)?;
        // Its call tells the proof that no key has two times.
        let _ = self.rows.times.len();
        Ok(())
    }

    fn part_row(part: u64) -> Option<PartRow> {
        match part {
            0 | 2 | 4 => Some(PartRow::Left),
            1 | 3 => Some(PartRow::Right),
            _ => None,
        }
    }

    fn laws() {}
}

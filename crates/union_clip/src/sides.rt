// The `impl Sweep` of a Clip: how its sides take new edges in, and their state saved and loaded.
ghost use Rattle.std.specs.Prelude.{◌≡◌, ◌≤◌, ◌++◌, ◌↔◌, IsTrue, ℕ, All, map, List, OnOk, OnErr, IfOk};
ghost use Rattle.tw_rows.specs.Bag.{SameBag};
ghost use Rattle.tw_rows.specs.Cells.{datum_kind};
ghost use Rattle.tw_rows.specs.Kinds.{cell_kind_of};
ghost use Rattle.tw_rows.specs.Instant.{inf};
ghost use Rattle.tw_rows.specs.declared.edge.Edge.{Edge};
ghost use Rattle.tw_rows.specs.declared.kind.CellKind.{CellKind};
ghost use Rattle.edge_history.specs.Order.{failing, is_from, IsHistory};
ghost use Rattle.edge_history.specs.History.{of};
ghost use Rattle.edge_history.specs.Balance.{news};
ghost use Rattle.edge_stream.specs.Listing.{cells_of};
ghost use Rattle.edge_stream.specs.Entries.{part_of};
ghost use Rattle.sweep_sides.specs.Waiting.{queued};
ghost use Rattle.sweep_laws.specs.Saving.{rows_of};
ghost use Rattle.union_clip.specs.Clipped.{clips};
ghost use Rattle.union_clip.specs.Keys.{SameKeys};
ghost use Rattle.union_clip.specs.States.{ClipSound};

use crate::sweep::ClipRows;
use edge_stream::{EdgeList, LoadFault, PartRow, Saved, are_of_parts};
use end_queue::EndQueue;
use sweep_sides::{
    Sweep, are_rows, are_starts, can_wait, kept_count, load_rows, load_waiting, put_all,
    put_starts, save_rows, save_waiting, take_due,
};
use tw_rows::{Edge, Kind, Memory, Time};

/// The left rows that are open and not clipped, the pending left edges, and the pending right starts.
pub struct ClipSides {
    pub(crate) rows: ClipRows,
    pub(crate) left_key: Vec<usize>,
    pub(crate) left_waiting: EndQueue,
    pub(crate) right_waiting: EndQueue,
}

// By hand, so that its users cite this and not the destructors of its parts.
impl Drop for ClipSides {
    fn drop(self) {
        let ClipSides {
            rows: _rows,
            left_key: _left_key,
            left_waiting: _left_waiting,
            right_waiting: _right_waiting,
        } = self;
    }
}

impl ClipSides {
    ghost use Rattle.union_clip.specs.States.{AreSides};

    // Takes up the rows and the edges that were saved. Out of memory nothing changes.
    fn take_up(&mut self, saved: &Saved) -> Result<(), Memory>
        ensures rows { OnOk result (SameBag self.new.rows.left.rows
            (rows_of (part_of 0 saved.now))) }
        ensures left_waiting { OnOk result (SameBag (queued self.new.left_waiting)
            (part_of 1 saved.now)) }
        ensures right_waiting { OnOk result (SameBag (queued self.new.right_waiting)
            (part_of 2 saved.now)) }
        ensures sides { OnOk result ((left_kinds right_kinds : List CellKind) (to : ℕ) →
            ClipSound left_kinds right_kinds to saved.now →
            AreSides left_kinds right_kinds to self.new) }
        ensures err { OnErr result (self.new ≡ self.old) }
        ensures left_key { OnOk result (self.new.rows.left.key ≡ self.old.left_key.items) }
        ensures right_key { self.new.rows.right_key ≡ self.old.rows.right_key }
    {
        let alloc = self.rows.alloc;
        let left = load_rows(alloc, saved, 0, &self.left_key)?;
        let left_waiting = load_waiting(alloc, saved, 1)?;
        let right_waiting = load_waiting(alloc, saved, 2)?;
        self.rows.left = left;
        self.left_waiting = left_waiting;
        self.right_waiting = right_waiting;
        Ok(())
    }
}

// Whether saved entries can be the state of a clip whose sides are closed up to a time, with columns of these kinds.
fn is_sound(saved: &Saved, left_kinds: &[Kind], right_kinds: &[Kind], to: Time) -> bool
    ensures { IsTrue result ↔ ClipSound (map cell_kind_of left_kinds.now)
        (map cell_kind_of right_kinds.now) to saved.now }
{
    if !are_of_parts(saved, 3) {
        return false;
    }
    if !are_rows(saved, 0, left_kinds, to) {
        return false;
    }
    if !can_wait(saved, 1, left_kinds, to) {
        return false;
    }
    if !can_wait(saved, 2, right_kinds, to) {
        return false;
    }
    are_starts(saved, 2)
}

impl Sweep for ClipSides {
    ghost use Rattle.std.specs.Prelude.{IfErr};
    ghost use Rattle.edge_stream.specs.declared.saved.SavedEntry.{SavedEntry};
    ghost use Rattle.union_clip.specs.States.{SidesKeep, AreSides, IsEmpty};
    ghost use Rattle.union_clip.specs.Operating.{clip_node, clip_entries, clip_row, Resumes};

    ghost node = { clip_node };

    ghost keeps = { SidesKeep };

    ghost fits = { AreSides };

    ghost is_empty = { IsEmpty };

    ghost entries = { clip_entries };

    ghost sound = { λ s l r to saved. ClipSound l r to saved };

    ghost stored = { λ s l r to saved. ClipSound l r to saved };

    ghost resumes = { Resumes };

    ghost row_of_part = { clip_row };

    fn closes(&self, left_to: Time, right_to: Time) -> Time {
        left_to.min(right_to)
    }

    fn advance(
        &mut self,
        left: &EdgeList,
        right: &EdgeList,
        _from: Time,
        to: Time,
    ) -> Result<Vec<Edge>, Memory> {
        put_all(&mut self.left_waiting, left)?;
        put_starts(&mut self.right_waiting, right)?;
        let left_due = take_due(&mut self.left_waiting, self.rows.alloc, to)?;
        let right_due = take_due(&mut self.right_waiting, self.rows.alloc, to)?;
        let mut answer = Vec::new(self.rows.alloc);
        self.rows
            .sweep(&mut answer, left_due.as_slice(), right_due.as_slice())?;
        Ok(answer)
    }

    fn held(&self) -> u64 {
        let left = kept_count(&self.rows.left, &self.left_waiting);
        left.saturating_add(self.right_waiting.len() as u64)
    }

    fn save(&self) -> Result<Saved, Memory> {
        let alloc = self.rows.alloc;
        let mut saved = Saved::new(alloc);
        save_rows(&mut saved, 0, &self.rows.left)?;
        save_waiting(alloc, &mut saved, 1, &self.left_waiting)?;
        save_waiting(alloc, &mut saved, 2, &self.right_waiting)?;
        Ok(saved)
    }

    fn load(
        &mut self,
        saved: &Saved,
        left_kinds: &[Kind],
        right_kinds: &[Kind],
        to: Time,
    ) -> Result<(), LoadFault> {
        if !is_sound(saved, left_kinds, right_kinds, to) {
            return Err(LoadFault::NotState);
        }
        self.take_up(saved)?;
        Ok(())
    }

    fn part_row(part: u64) -> Option<PartRow> {
        match part {
            0 | 1 => Some(PartRow::Left),
            2 => Some(PartRow::Right),
            _ => None,
        }
    }

    fn laws() {}
}

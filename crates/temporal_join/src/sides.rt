// The `impl Sweep` of a Join: how its sides take new edges in, and their state saved and loaded.
ghost use Rattle.std.specs.Prelude.{◌≡◌, ◌≤◌, ◌+◌, ◌-◌, ◌^◌, min, length, ◌++◌, ◌↔◌, IsTrue, ℕ, All, map, List, OnOk, OnErr, IfOk};
ghost use Rattle.tw_rows.specs.Bag.{SameBag};
ghost use Rattle.tw_rows.specs.Cells.{datum_kind};
ghost use Rattle.tw_rows.specs.Kinds.{cell_kind_of};
ghost use Rattle.tw_rows.specs.Instant.{inf};
ghost use Rattle.tw_rows.specs.declared.edge.Edge.{Edge};
ghost use Rattle.tw_rows.specs.declared.kind.CellKind.{CellKind};
ghost use Rattle.edge_history.specs.Order.{failing, is_from, IsHistory};
ghost use Rattle.edge_history.specs.History.{of};
ghost use Rattle.edge_history.specs.Balance.{news};
ghost use Rattle.edge_stream.specs.Listing.{cells_of};
ghost use Rattle.temporal_join.specs.Joined.{joins};
ghost use Rattle.edge_stream.specs.Entries.{part_of};
ghost use Rattle.sweep_sides.specs.Waiting.{queued};
ghost use Rattle.sweep_laws.specs.Saving.{rows_of};
ghost use Rattle.temporal_join.specs.Kept.{SameKeys, AreByKey};
ghost use Rattle.temporal_join.specs.Lives.{life_rows, life_waits};
ghost use Rattle.temporal_join.specs.States.{JoinSound};

use crate::few::JoinLives;
use crate::lives::Lives;
use crate::settling::{count_ends, save_side_rows, save_side_waiting};
use crate::sweep::JoinRows;
use edge_stream::{EdgeList, LoadFault, PartRow, Saved, are_of_parts};
use end_queue::EndQueue;
use sweep_sides::{Sweep, are_rows, can_wait, kept_count, load_rows, load_waiting};
use tw_rows::{Edge, Kind, Memory, Time};

/// The rows of both sides that are alive, and the pending edges of both sides.
pub struct JoinSides {
    pub(crate) rows: JoinRows,
    pub(crate) left_waiting: EndQueue,
    pub(crate) right_waiting: EndQueue,
    // Room for the edges that are due in a step, kept from one to the next: a large list that is made and let go at each step
    // is given back to the system each time. What stands in them has no say.
    pub(crate) left_due: Vec<Edge>,
    pub(crate) right_due: Vec<Edge>,
    // Rows with their ends. While they are few, all rows stand here, and none by their keys.
    pub(crate) few: JoinLives,
}

// By hand, so that its users cite this and not the destructors of its parts.
impl Drop for JoinSides {
    fn drop(self) {
        let JoinSides {
            rows: _rows,
            left_waiting: _left_waiting,
            right_waiting: _right_waiting,
            left_due: _left_due,
            right_due: _right_due,
            few: _few,
        } = self;
    }
}

impl JoinSides {
    ghost use Rattle.temporal_join.specs.States.{AreSides, AreKeyed, IsEmpty, left_rows, right_rows, left_pending, right_pending};

    // Takes up the rows and the edges that were saved. Out of memory nothing changes.
    fn take_up(&mut self, saved: &Saved) -> Result<(), Memory>
        ensures left { OnOk result (IsEmpty self.old → SameBag (left_rows self.new)
            (rows_of (part_of 0 saved.now))) }
        ensures right { OnOk result (IsEmpty self.old → SameBag (right_rows self.new)
            (rows_of (part_of 1 saved.now))) }
        ensures left_waiting { OnOk result (IsEmpty self.old →
            SameBag (queued (left_pending self.new)) (part_of 2 saved.now)) }
        ensures right_waiting { OnOk result (IsEmpty self.old →
            SameBag (queued (right_pending self.new)) (part_of 3 saved.now)) }
        ensures by { OnOk result (IsEmpty self.old → AreKeyed self.new) }
        ensures sides { OnOk result (IsEmpty self.old →
            (left_kinds right_kinds : List CellKind) (to : ℕ) →
            JoinSound left_kinds right_kinds to saved.now →
            AreSides left_kinds right_kinds to self.new) }
        ensures err { OnErr result (self.new ≡ self.old) }
        ensures left_key { self.new.rows.left_key ≡ self.old.rows.left_key }
        ensures right_key { self.new.rows.right_key ≡ self.old.rows.right_key }
    {
        let alloc = self.rows.alloc;
        let left = load_rows(alloc, saved, 0, self.rows.left_key.as_slice())?;
        let right = load_rows(alloc, saved, 1, self.rows.right_key.as_slice())?;
        let left_waiting = load_waiting(alloc, saved, 2)?;
        let right_waiting = load_waiting(alloc, saved, 3)?;
        self.rows.left = left;
        self.rows.right = right;
        self.left_waiting = left_waiting;
        self.right_waiting = right_waiting;
        Ok(())
    }
}

// Whether saved entries can be the state of a join whose sides are closed up to a time, with columns of these kinds.
fn is_sound(saved: &Saved, left_kinds: &[Kind], right_kinds: &[Kind], to: Time) -> bool
    ensures { IsTrue result ↔ JoinSound (map cell_kind_of left_kinds.now)
        (map cell_kind_of right_kinds.now) to saved.now }
{
    if !are_of_parts(saved, 4) {
        return false;
    }
    if !are_rows(saved, 0, left_kinds, to) {
        return false;
    }
    if !are_rows(saved, 1, right_kinds, to) {
        return false;
    }
    if !can_wait(saved, 2, left_kinds, to) {
        return false;
    }
    can_wait(saved, 3, right_kinds, to)
}

// How many rows with ends there are and ends are known, or the greatest number that there is room for.
fn few_count(lives: &Lives) -> u64
    ensures { result ≡ min (length (life_rows lives.now.lives)
        + length (life_waits lives.now.lives)) (2 ^ 64 - 1) }
{
    let rows = lives.lives();
    (rows.len() as u64).saturating_add(count_ends(rows) as u64)
}

impl Sweep for JoinSides {
    ghost use Rattle.temporal_join.specs.States.{SidesKeep, AreSides, IsEmpty};
    ghost use Rattle.temporal_join.specs.Operating.{join_node, join_entries, join_row, Resumes};

    ghost node = { join_node };

    ghost keeps = { SidesKeep };

    ghost fits = { AreSides };

    ghost is_empty = { IsEmpty };

    ghost entries = { join_entries };

    ghost sound = { λ s l r to saved. JoinSound l r to saved };

    ghost stored = { λ s l r to saved. JoinSound l r to saved };

    ghost resumes = { Resumes };

    ghost row_of_part = { join_row };

    fn closes(&self, left_to: Time, right_to: Time) -> Time {
        left_to.min(right_to)
    }

    fn advance(
        &mut self,
        left: &EdgeList,
        right: &EdgeList,
        from: Time,
        to: Time,
    ) -> Result<Vec<Edge>, Memory> {
        let mut answer = Vec::new(self.rows.alloc);
        self.step(&mut answer, left, right, from, to)?;
        Ok(answer)
    }

    fn held(&self) -> u64 {
        let left = kept_count(&self.rows.left, &self.left_waiting);
        let right = kept_count(&self.rows.right, &self.right_waiting);
        let few_left = few_count(&self.few.left);
        let few_right = few_count(&self.few.right);
        left.saturating_add(few_left)
            .saturating_add(right)
            .saturating_add(few_right)
    }

    fn save(&self) -> Result<Saved, Memory> {
        let alloc = self.rows.alloc;
        let mut saved = Saved::with_capacity(alloc, self.held() as usize)?;
        let few = &self.few;
        save_side_rows(alloc, &mut saved, 0, &self.rows.left, &few.left)?;
        save_side_rows(alloc, &mut saved, 1, &self.rows.right, &few.right)?;
        save_side_waiting(alloc, &mut saved, 2, &self.left_waiting, &few.left)?;
        save_side_waiting(alloc, &mut saved, 3, &self.right_waiting, &few.right)?;
        Ok(saved)
    }

    fn load(
        &mut self,
        saved: &Saved,
        left_kinds: &[Kind],
        right_kinds: &[Kind],
        to: Time,
    ) -> Result<(), LoadFault> {
        if !is_sound(saved, left_kinds, right_kinds, to) {
            return Err(LoadFault::NotState);
        }
        self.take_up(saved)?;
        Ok(())
    }

    fn part_row(part: u64) -> Option<PartRow> {
        match part {
            0 | 2 => Some(PartRow::Left),
            1 | 3 => Some(PartRow::Right),
            _ => None,
        }
    }

    fn laws() {}
}

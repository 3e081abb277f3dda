// The `impl Sweep` of a Coalesce: how its side takes new edges in, and its state saved and loaded.
ghost use Rattle.std.specs.Prelude.{◌≡◌, ◌↔◌, IsTrue, ℕ, map, List, IfOk};
ghost use Rattle.tw_rows.specs.Bag.{SameBag};
ghost use Rattle.tw_rows.specs.Kinds.{cell_kind_of};
ghost use Rattle.tw_rows.specs.declared.cells.Datum.{Datum};
ghost use Rattle.tw_rows.specs.declared.kind.CellKind.{CellKind};
ghost use Rattle.edge_stream.specs.Entries.{part_of};
ghost use Rattle.synopsis.specs.Queued.{queue_of};
ghost use Rattle.sweep_sides.specs.Waiting.{queued};
ghost use Rattle.sweep_sides.specs.Sides.{IsSide};
ghost use Rattle.sweep_laws.specs.Saving.{rows_of};
ghost use Rattle.coalesce_op.specs.States.{CoalesceSound};

use crate::sweep::tell_due;
use edge_stream::{EdgeList, LoadFault, PartRow, Saved, are_of_parts};
use end_queue::EndQueue;
use std::alloc::Global;
use sweep_sides::{Sweep, are_rows, can_wait, load_waiting, save_waiting, take_in};
use synopsis::RowQueues;
use tw_rows::{Edge, Kind, Memory, Time};

/// The starts that were emitted and have no end yet, and the pending edges of the child.
pub struct CoalesceSide {
    pub(crate) alloc: Global,
    pub(crate) queues: RowQueues,
    pub(crate) waiting: EndQueue,
}

// By hand, so that its users cite this and not the destructors of its parts.
impl Drop for CoalesceSide {
    fn drop(self) {
        let CoalesceSide {
            alloc: _,
            queues: _queues,
            waiting: _waiting,
        } = self;
    }
}

// The open starts of the part 0, and the edges of the part 1 as they wait.
fn load_side(alloc: Global, saved: &Saved) -> Result<CoalesceSide, Memory>
    ensures queues { IfOk result (λ s. (c : List Datum) →
        queue_of s.queues c ≡ queue_of (rows_of (part_of 0 saved.now)) c) }
    ensures waiting { IfOk result (λ s. SameBag (queued s.waiting) (part_of 1 saved.now)) }
    ensures side { IfOk result (λ s. (kinds : List CellKind) (to : ℕ) →
        CoalesceSound kinds to saved.now → IsSide kinds to s.queues s.waiting) }
{
    Ok(CoalesceSide {
        alloc,
        queues: RowQueues::load(alloc, saved, 0)?,
        waiting: load_waiting(alloc, saved, 1)?,
    })
}

// Whether saved entries can be the state of a Coalesce whose side is closed up to a time, with columns of these kinds.
fn is_sound(saved: &Saved, kinds: &[Kind], to: Time) -> bool
    ensures { IsTrue result ↔ CoalesceSound (map cell_kind_of kinds.now) to saved.now }
{
    if !are_of_parts(saved, 2) {
        return false;
    }
    if !are_rows(saved, 0, kinds, to) {
        return false;
    }
    can_wait(saved, 1, kinds, to)
}

impl Sweep for CoalesceSide {
    ghost use Rattle.coalesce_op.specs.States.{SideKeeps, IsEmpty};
    ghost use Rattle.coalesce_op.specs.Operating.{coalesce_node, coalesce_entries, coalesce_row, Resumes};

    ghost node = { coalesce_node };

    ghost keeps = { λ s to hl hr out. SideKeeps s to hl out };

    ghost fits = { λ l r to s. IsSide l to s.queues s.waiting };

    ghost is_empty = { IsEmpty };

    ghost entries = { coalesce_entries };

    ghost sound = { λ s l r to saved. CoalesceSound l to saved };

    ghost stored = { λ s l r to saved. CoalesceSound l to saved };

    ghost resumes = { λ s saved to hl hr out. Resumes saved to hl out };

    ghost row_of_part = { coalesce_row };

    fn closes(&self, left_to: Time, _right_to: Time) -> Time {
        left_to
    }

    fn advance(
        &mut self,
        left: &EdgeList,
        _right: &EdgeList,
        _from: Time,
        to: Time,
    ) -> Result<Vec<Edge>, Memory> {
        let due = take_in(&mut self.waiting, self.alloc, left, to)?;
        let told = tell_due(&mut self.queues, due)?;
        Ok(told)
    }

    fn held(&self) -> u64 {
        let waiting = self.waiting.len() as u64;
        self.queues.len().saturating_add(waiting)
    }

    fn save(&self) -> Result<Saved, Memory> {
        let mut saved = Saved::new(self.alloc);
        self.queues.save(&mut saved, 0)?;
        save_waiting(self.alloc, &mut saved, 1, &self.waiting)?;
        Ok(saved)
    }

    fn load(
        &mut self,
        saved: &Saved,
        left_kinds: &[Kind],
        _right_kinds: &[Kind],
        to: Time,
    ) -> Result<(), LoadFault> {
        if !is_sound(saved, left_kinds, to) {
            return Err(LoadFault::NotState);
        }
        // Its call tells the proof that it is a time.
        let _ = to.word();
        let side = load_side(self.alloc, saved)?;
        *self = side;
        Ok(())
    }

    fn part_row(part: u64) -> Option<PartRow> {
        if part < 2 { Some(PartRow::Left) } else { None }
    }

    fn laws() {}
}

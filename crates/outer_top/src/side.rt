// The `impl Sweep` of a Top: how its side takes new edges in, and its state saved and loaded.
ghost use Rattle.std.specs.Prelude.{◌≤◌};

use crate::saving::{is_sound, load_side, row_count, save_keys};
use crate::sweep::sweep;
use crate::tops::Tops;
use edge_stream::{EdgeList, LoadFault, PartRow, Saved};
use end_queue::EndQueue;
use std::alloc::Global;
use sweep_sides::{Sweep, save_waiting, take_in};
use synopsis::RowQueues;
use tw_rows::{Edge, Kind, Memory, Time};

/// The rows that are alive, the open starts of those that are shown, and the pending edges of the child.
pub struct TopSide {
    pub(crate) alloc: Global,
    pub(crate) tops: Tops,
    pub(crate) queues: RowQueues,
    pub(crate) waiting: EndQueue,
    ghost some: { 1 ≤ tops.most },
}

// By hand, so that its users cite this and not the destructors of its parts.
impl Drop for TopSide {
    fn drop(self) {
        let TopSide {
            alloc: _,
            tops: _tops,
            queues: _queues,
            waiting: _waiting,
        } = self;
    }
}

impl Sweep for TopSide {
    ghost use Rattle.outer_top.specs.Sides.{SideKeeps, SideFits, IsEmpty};
    ghost use Rattle.outer_top.specs.States.{TopSound};
    ghost use Rattle.outer_top.specs.Operating.{top_node, top_entries, top_row, Resumes};

    ghost node = { top_node };

    ghost keeps = { λ s to hl hr out. SideKeeps s to hl out };

    ghost fits = { λ l r to s. SideFits l to s };

    ghost is_empty = { IsEmpty };

    ghost entries = { top_entries };

    ghost sound = { λ s l r to saved. TopSound l to saved };

    ghost stored = { λ s l r to saved. TopSound l to saved };

    ghost resumes = { λ s saved to hl hr out. Resumes s saved to hl out };

    ghost row_of_part = { top_row };

    fn closes(&self, left_to: Time, _right_to: Time) -> Time {
        left_to
    }

    fn advance(
        &mut self,
        left: &EdgeList,
        _right: &EdgeList,
        _from: Time,
        to: Time,
    ) -> Result<Vec<Edge>, Memory> {
        let due = take_in(&mut self.waiting, self.alloc, left, to)?;
        let mut answer = Vec::new(self.alloc);
        sweep(
            &mut self.tops,
            &mut self.queues,
            &mut answer,
            due.as_slice(),
        )?;
        Ok(answer)
    }

    fn held(&self) -> u64 {
        let waiting = self.waiting.len() as u64;
        row_count(&self.tops.keys)
            .saturating_add(waiting)
            .saturating_add(self.queues.len())
    }

    fn save(&self) -> Result<Saved, Memory> {
        let mut saved = Saved::new(self.alloc);
        save_keys(&mut saved, 0, &self.tops.keys)?;
        save_waiting(self.alloc, &mut saved, 1, &self.waiting)?;
        self.queues.save(&mut saved, 2)?;
        Ok(saved)
    }

    fn load(
        &mut self,
        saved: &Saved,
        left_kinds: &[Kind],
        _right_kinds: &[Kind],
        to: Time,
    ) -> Result<(), LoadFault> {
        // Its call tells the proof that it is a time.
        let _ = to.word();
        if !is_sound(saved, left_kinds, to) {
            return Err(LoadFault::NotState);
        }
        let side = load_side(
            self.alloc,
            self.tops.key.columns(),
            self.tops.by,
            self.tops.most,
            saved,
        )?;
        *self = side;
        Ok(())
    }

    fn part_row(part: u64) -> Option<PartRow> {
        if part < 3 { Some(PartRow::Left) } else { None }
    }

    fn laws() {}
}

// The `impl Operator` of a Group: its step, how much it holds, and its state saved and loaded.
use crate::emitting::keys_are_few;
use crate::grouped::Grouped;
use crate::loading::load_parts;
use crate::saving::save_runs;
use batch::Pools;
use edge_stream::{EdgeList, LoadFault, Operator, PartRow, Saved, StepFault};
use tw_rows::{Memory, Time};

impl Operator for Grouped {
    ghost use Rattle.std.specs.Prelude.{map};
    ghost use Rattle.tw_rows.specs.Kinds.{cell_kind_of};
    ghost use Rattle.snapshot_agg.specs.Keeping.{IsOpening};
    ghost use Rattle.snapshot_agg.specs.Operating.{standing as group_standing, entries as group_entries, group_row, IsKept};
    ghost use Rattle.snapshot_agg.specs.Saving.{GroupSound, GroupResumes};

    ghost keeps = { IsKept };

    ghost is_opening = { λ s.
        IsOpening s.groups.rows.rows s.running s.waiting s.left_to s.right_to s.failed };

    ghost standing = { group_standing };

    ghost sound = { λ s saved x y.
        GroupSound (map cell_kind_of s.left_kinds.items) (map cell_kind_of s.kinds.items) x saved };

    ghost resumes = { λ s saved x y texts hl hr out.
        GroupResumes (map cell_kind_of s.left_kinds.items) (map cell_kind_of s.kinds.items)
        s.groups.key.items s.groups.aggs.items texts x saved hl hr out };

    ghost entries = { group_entries };

    ghost row_of_part = { group_row };

    fn step(
        &mut self,
        pools: &mut Pools,
        left: EdgeList,
        right: EdgeList,
        left_to: Time,
        right_to: Time,
    ) -> Result<EdgeList, StepFault> {
        self.advance(pools, left, right, left_to, right_to)
    }

    fn held(&self) -> u64 {
        let rows = self.groups.rows.len();
        let keys = self.groups.totals.len() as u64;
        let runs = self.running.len() as u64;
        let waiting = self.waiting.len();
        let ends = self.groups.rows.ends_len();
        let bags = rows.saturating_mul(self.groups.aggs.as_slice().len() as u64);
        rows.saturating_add(bags)
            .saturating_add(keys)
            .saturating_add(runs)
            .saturating_add(ends)
            .saturating_add(waiting)
    }

    fn failed(&self) -> bool {
        self.failed
    }

    fn save(&self) -> Result<Saved, Memory> {
        let rows = self.groups.rows.len() as usize;
        let ends = self.groups.rows.ends_len() as usize;
        let waiting = self.waiting.len() as usize;
        let count = rows
            .saturating_add(ends)
            .saturating_add(waiting)
            .saturating_add(self.running.len());
        let mut saved = Saved::with_capacity(self.alloc, count)?;
        self.groups.rows.save(&mut saved, 0)?;
        self.groups.rows.save_ends(&mut saved, 1)?;
        self.waiting.save(self.alloc, &mut saved, 1)?;
        save_runs(&mut saved, 2, &self.running)?;
        Ok(saved)
    }

    fn load(&mut self, saved: &Saved, left_to: Time, right_to: Time) -> Result<(), LoadFault> {
        let loaded = load_parts(
            self.alloc,
            saved,
            &self.groups.key,
            &self.groups.aggs,
            &self.left_kinds,
            &self.kinds,
            left_to,
        )?;
        keys_are_few(&loaded.groups, &loaded.running);
        self.groups = loaded.groups;
        self.waiting = loaded.waiting;
        self.running = loaded.running;
        self.left_to = left_to;
        self.right_to = right_to;
        Ok(())
    }

    fn part_row(part: u64) -> Option<PartRow> {
        match part {
            0 | 1 => Some(PartRow::Left),
            2 => Some(PartRow::KeyFirst),
            _ => None,
        }
    }

    fn laws() {}
}

// The `impl Operator` of every sweep: its step, how much it holds, and its state saved and loaded.

use crate::sweep::Sweep;
use crate::swept::Swept;
use batch::Pools;
use edge_stream::{EdgeList, LoadFault, Operator, PartRow, Saved, StepFault};
use tw_rows::{Memory, Time};

impl<S: Sweep + Send> Operator for Swept<S> {
    ghost use Rattle.sweep_sides.specs.Operating.{standing as swept_standing, entries as swept_entries};
    ghost use Rattle.sweep_sides.specs.Operating.{IsNew, IsKept, IsSound, Resumes};

    ghost keeps = { IsKept };

    ghost is_opening = { IsNew };

    ghost standing = { swept_standing };

    ghost sound = { IsSound };

    ghost resumes = { Resumes };

    ghost entries = { swept_entries };

    ghost row_of_part = { S.row_of_part };

    fn step(
        &mut self,
        pools: &mut Pools,
        left: EdgeList,
        right: EdgeList,
        left_to: Time,
        right_to: Time,
    ) -> Result<EdgeList, StepFault> {
        S::laws();
        let answer = self.advance(pools, left, right, left_to, right_to)?;
        Ok(answer)
    }

    fn held(&self) -> u64 {
        self.sweep.held()
    }

    fn failed(&self) -> bool {
        self.failed
    }

    fn save(&self) -> Result<Saved, Memory> {
        self.sweep.save()
    }

    fn load(&mut self, saved: &Saved, left_to: Time, right_to: Time) -> Result<(), LoadFault> {
        S::laws();
        let to = self.sweep.closes(left_to, right_to);
        self.sweep.load(
            saved,
            self.left_kinds.as_slice(),
            self.right_kinds.as_slice(),
            to,
        )?;
        self.left_to = left_to;
        self.right_to = right_to;
        Ok(())
    }

    fn part_row(part: u64) -> Option<PartRow> {
        S::part_row(part)
    }

    fn laws() {
        S::laws();
    }
}

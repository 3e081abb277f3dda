// The `impl Operator` of a Delay, a Hop, a Duration and a Mean: a step, how much is held, and the state saved and loaded.
ghost use Rattle.std.specs.Prelude.{◌≡◌};
ghost use Rattle.edge_stream.specs.Listing.{cells_of};

use crate::alter_lifetime::{AlterLifetime, answer_of};
use batch::Pools;
use edge_stream::{
    EdgeList, LoadFault, Operator, PartRow, Saved, StepFault, are_of_parts, is_edge_part,
    load_part, save_part, take_below,
};
use tw_rows::{Memory, Time};

impl AlterLifetime {
    ghost use Rattle.std.specs.Prelude.{◌↔◌, IsTrue, Err, IfOk, IfErr, OnOk};
    ghost use Rattle.edge_stream.specs.Entries.{part_of};
    ghost use Rattle.edge_stream.specs.Listing.{SameShape};
    ghost use Rattle.lifetime_ops.specs.Operating.{IsState};

    // Whether the entries are a state where the left side is closed up to the time. It takes no memory.
    fn is_state(&self, saved: &Saved, left_to: Time) -> bool
        ensures { IsTrue result ↔ IsState self.now saved.now left_to left_to }
    {
        let from = self.change.answered_below(left_to);
        are_of_parts(saved, 1) && is_edge_part(saved, 0, self.carried.kinds(), from)
    }

    // The edges that the entries are. What is no state is told as such, whatever memory there is.
    fn carried_of(&self, saved: &Saved, left_to: Time) -> Result<EdgeList, LoadFault>
        ensures edges { IfOk result (λ list. list.edges ≡ part_of 0 saved.now) }
        ensures shape { IfOk result (λ list. SameShape self.now.carried list) }
        ensures sound { OnOk result (IsState self.now saved.now left_to left_to) }
        ensures refused { IfErr result (λ fault. fault ≡ LoadFault.NotState →
            IsState self.now saved.now left_to left_to → ⊥) }
        ensures told { (IsState self.now saved.now left_to left_to → ⊥) →
            result ≡ Err LoadFault.NotState }
    {
        if !self.is_state(saved, left_to) {
            return Err(LoadFault::NotState);
        }
        let carried = load_part(self.alloc, saved, 0, &self.carried)?;
        Ok(carried)
    }
}

impl Operator for AlterLifetime {
    ghost use Rattle.lifetime_ops.specs.Operating.{standing as alter_standing, entries as alter_entries, IsKept, IsState, IsResumed};
    ghost use Rattle.lifetime_ops.specs.Saving.{IsOpening, row_of};

    ghost keeps = { IsKept };

    ghost is_opening = { λ s. IsOpening s.carried.edges s.left_to s.right_to s.failed };

    ghost standing = { alter_standing };

    ghost sound = { IsState };

    ghost resumes = { IsResumed };

    ghost entries = { alter_entries };

    ghost row_of_part = { row_of };

    fn step(
        &mut self,
        pools: &mut Pools,
        left: EdgeList,
        right: EdgeList,
        left_to: Time,
        right_to: Time,
    ) -> Result<EdgeList, StepFault> {
        self.failed = true;
        // These calls tell the proof that both are times.
        let _ = (left_to.word(), right_to.word());
        right.give_back(pools);
        let below = self.change.answered_below(left_to);
        let due = take_below(self.alloc, pools, &mut self.carried, left, below)?;
        let answer = answer_of(&self.change, self.alloc, pools, due)?;
        self.left_to = left_to;
        self.right_to = right_to;
        self.failed = false;
        Ok(answer)
    }

    fn held(&self) -> u64 {
        self.carried.len()
    }

    fn failed(&self) -> bool {
        self.failed
    }

    fn save(&self) -> Result<Saved, Memory> {
        let mut saved = Saved::new(self.alloc);
        save_part(&mut saved, 0, &self.carried)?;
        Ok(saved)
    }

    fn load(&mut self, saved: &Saved, left_to: Time, right_to: Time) -> Result<(), LoadFault> {
        self.carried = self.carried_of(saved, left_to)?;
        self.left_to = left_to;
        self.right_to = right_to;
        Ok(())
    }

    fn part_row(part: u64) -> Option<PartRow> {
        if part == 0 { Some(PartRow::Left) } else { None }
    }

    fn laws() {}
}

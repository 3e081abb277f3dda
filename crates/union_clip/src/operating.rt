// The `impl Operator` of a Union: its step, how much it holds, and its state saved and loaded.
ghost use Rattle.std.specs.Prelude.{◌≡◌};
ghost use Rattle.edge_stream.specs.Listing.{cells_of};

use crate::union::Union;
use batch::Pools;
use edge_stream::{
    EdgeList, LoadFault, Operator, PartRow, Saved, StepFault, are_of_parts, is_edge_part,
    load_part, save_part, take_below,
};
use tw_rows::{Memory, Time};

impl Union {
    ghost use Rattle.std.specs.Prelude.{◌↔◌, IsTrue, Err, IfOk, IfErr, OnOk};
    ghost use Rattle.edge_stream.specs.Entries.{part_of};
    ghost use Rattle.edge_stream.specs.Listing.{SameShape};
    ghost use Rattle.union_clip.specs.UnionOperating.{IsState};

    // Whether the entries are a state where the sides are closed up to these times. It takes no memory.
    fn is_state(&self, saved: &Saved, left_to: Time, right_to: Time) -> bool
        ensures { IsTrue result ↔ IsState self.now saved.now left_to right_to }
    {
        let kinds = self.left.kinds();
        let from = left_to.min(right_to);
        are_of_parts(saved, 2)
            && is_edge_part(saved, 0, kinds, from)
            && is_edge_part(saved, 1, kinds, from)
    }

    // The edges of both sides that the entries are. What is no state is told as such, whatever memory there is.
    fn sides_of(
        &self,
        saved: &Saved,
        left_to: Time,
        right_to: Time,
    ) -> Result<(EdgeList, EdgeList), LoadFault>
        ensures left { IfOk result (λ sides. sides.0.edges ≡ part_of 0 saved.now) }
        ensures right { IfOk result (λ sides. sides.1.edges ≡ part_of 1 saved.now) }
        ensures left_shape { IfOk result (λ sides. SameShape self.now.left sides.0) }
        ensures right_shape { IfOk result (λ sides. SameShape self.now.right sides.1) }
        ensures sound { OnOk result (IsState self.now saved.now left_to right_to) }
        ensures refused { IfErr result (λ fault. fault ≡ LoadFault.NotState →
            IsState self.now saved.now left_to right_to → ⊥) }
        ensures told { (IsState self.now saved.now left_to right_to → ⊥) →
            result ≡ Err LoadFault.NotState }
    {
        if !self.is_state(saved, left_to, right_to) {
            return Err(LoadFault::NotState);
        }
        let left = load_part(self.alloc, saved, 0, &self.left)?;
        let right = load_part(self.alloc, saved, 1, &self.right)?;
        Ok((left, right))
    }
}

impl Operator for Union {
    ghost use Rattle.union_clip.specs.UnionOperating.{standing as union_standing, entries as union_entries, IsKept, IsState, IsResumed};
    ghost use Rattle.union_clip.specs.Saving.{IsOpening, row_of};

    ghost keeps = { IsKept };

    ghost is_opening = { λ s. IsOpening s.left.edges s.right.edges s.left_to s.right_to s.failed };

    ghost standing = { union_standing };

    ghost sound = { IsState };

    ghost resumes = { IsResumed };

    ghost entries = { union_entries };

    ghost row_of_part = { row_of };

    fn step(
        &mut self,
        pools: &mut Pools,
        left: EdgeList,
        right: EdgeList,
        left_to: Time,
        right_to: Time,
    ) -> Result<EdgeList, StepFault> {
        self.failed = true;
        // These calls tell the proof that both are times.
        let _ = (left_to.word(), right_to.word());
        let to = left_to.min(right_to);
        let left_due = take_below(self.alloc, pools, &mut self.left, left, to)?;
        let right_due = take_below(self.alloc, pools, &mut self.right, right, to)?;
        let answer = EdgeList::merge(pools, left_due, right_due)?;
        self.left_to = left_to;
        self.right_to = right_to;
        self.failed = false;
        Ok(answer)
    }

    fn held(&self) -> u64 {
        self.left.len().saturating_add(self.right.len())
    }

    fn failed(&self) -> bool {
        self.failed
    }

    fn save(&self) -> Result<Saved, Memory> {
        let mut saved = Saved::new(self.alloc);
        save_part(&mut saved, 0, &self.left)?;
        save_part(&mut saved, 1, &self.right)?;
        Ok(saved)
    }

    fn load(&mut self, saved: &Saved, left_to: Time, right_to: Time) -> Result<(), LoadFault> {
        let (left, right) = self.sides_of(saved, left_to, right_to)?;
        self.left = left;
        self.right = right;
        self.left_to = left_to;
        self.right_to = right_to;
        Ok(())
    }

    fn part_row(part: u64) -> Option<PartRow> {
        match part {
            0 => Some(PartRow::Left),
            1 => Some(PartRow::Right),
            _ => None,
        }
    }

    fn laws() {}
}

// The `impl Operator` of a Follow: its step, how much it holds, and its state saved and loaded.
ghost use Rattle.std.specs.Prelude.{◌≡◌, false, IfErr, OnOk, OnErr};

use crate::follow::Follow;
use crate::sides::is_sound;
use batch::Pools;
use edge_stream::{EdgeList, LoadFault, Operator, PartRow, Saved, StepFault};
use sweep_sides::{kept_count, list_of, save_rows, save_waiting};
use tw_rows::{Memory, Time};

impl Operator for Follow {
    ghost use Rattle.edge_stream.specs.Standing.{Implies, IsLike};
    ghost use Rattle.follow_op.specs.Operating.{standing as follow_standing, entries as follow_entries};
    ghost use Rattle.follow_op.specs.Operating.{IsNew, IsKept, IsSound, Resumes};
    ghost use Rattle.follow_op.specs.Operating.{row_of_part as follow_row};

    ghost keeps = { IsKept };

    ghost is_opening = { IsNew };

    ghost standing = { follow_standing };

    ghost sound = { IsSound };

    ghost resumes = { Resumes };

    ghost entries = { follow_entries };

    ghost row_of_part = { follow_row };

    fn step(
        &mut self,
        pools: &mut Pools,
        left: EdgeList,
        right: EdgeList,
        left_to: Time,
        right_to: Time,
    ) -> Result<EdgeList, StepFault> {
        self.failed = true;
        // Their calls tell the proof that both are times.
        let _ = (left_to.word(), right_to.word());
        let from = self.left_to.min(self.right_to);
        let to = left_to.min(right_to);
        let told = self.sides.advance(&left, &right, to)?;
        left.give_back(pools);
        right.give_back(pools);
        let answer = list_of(
            self.sides.rows.alloc,
            pools,
            self.own_kinds.as_slice(),
            self.capacity,
            from,
            to,
            told.as_slice(),
        )?;
        self.left_to = left_to;
        self.right_to = right_to;
        self.failed = false;
        Ok(answer)
    }

    fn held(&self) -> u64 {
        let left = kept_count(&self.sides.rows.left, &self.sides.left_waiting);
        let queue = self.sides.rows.queue.len() as u64;
        left.saturating_add(queue)
            .saturating_add(self.sides.right_waiting.len() as u64)
    }

    fn failed(&self) -> bool {
        self.failed
    }

    fn save(&self) -> Result<Saved, Memory> {
        let alloc = self.sides.rows.alloc;
        let mut saved = Saved::new(alloc);
        save_rows(&mut saved, 0, &self.sides.rows.left)?;
        save_waiting(alloc, &mut saved, 1, &self.sides.left_waiting)?;
        save_waiting(alloc, &mut saved, 2, &self.sides.right_waiting)?;
        Ok(saved)
    }

    /// Memory is asked for only where the entries are sound.
    fn load(&mut self, saved: &Saved, left_to: Time, right_to: Time) -> Result<(), LoadFault>
        requires { IsNew self.old }
        ensures resumed { OnOk result (
            Implies (Resumes self.old saved.now left_to right_to) (IsKept self.new)) }
        ensures sound { OnOk result (IsSound self.old saved.now left_to right_to) }
        ensures refused { IfErr result (λ fault. fault ≡ LoadFault.NotState →
            IsSound self.old saved.now left_to right_to → ⊥) }
        ensures memory { IfErr result (λ fault. fault ≡ LoadFault.Memory →
            IsSound self.old saved.now left_to right_to) }
        ensures left_to { OnOk result ((follow_standing self.new).left_closed ≡ left_to) }
        ensures right_to { OnOk result ((follow_standing self.new).right_closed ≡ right_to) }
        ensures works { OnOk result ((follow_standing self.new).has_failed ≡ false) }
        ensures opening { OnErr result (IsNew self.new) }
        ensures like { IsLike (follow_standing self.old) (follow_standing self.new) }
    {
        let to = left_to.min(right_to);
        if !is_sound(
            saved,
            self.left_kinds.as_slice(),
            self.right_kinds.as_slice(),
            to,
        ) {
            return Err(LoadFault::NotState);
        }
        self.sides.take_up(saved, self.left_key.as_slice())?;
        self.left_to = left_to;
        self.right_to = right_to;
        Ok(())
    }

    fn part_row(part: u64) -> Option<PartRow> {
        match part {
            0 | 1 => Some(PartRow::Left),
            2 => Some(PartRow::Right),
            _ => None,
        }
    }

    fn laws() {}
}

// The rows of both sides of a Join, and the sweep over the instants of what is due.
ghost use Rattle.std.specs.Prelude.{◌≡◌, ◌+◌, ◌<◌, ℕ, suc, List, OnOk};
ghost use Rattle.tw_rows.specs.Bag.{SameBag};
ghost use Rattle.tw_rows.specs.Event.{AreEvents};
ghost use Rattle.tw_rows.specs.Instant.{inf};
ghost use Rattle.edge_history.specs.History.{CellEvent};
ghost use Rattle.edge_history.specs.Balance.{news};
ghost use Rattle.edge_history.specs.Opens.{started_rows};
ghost use Rattle.sweep_laws.specs.Changes.{TakeAtMost};
ghost use Rattle.sweep_laws.specs.Sweeps.{IsDue, Tells};
ghost use Rattle.sweep_laws.specs.Pairs.{Held};
ghost use Rattle.temporal_join.specs.Joined.{joins};

use crate::pairs::Pairing;
use std::alloc::Global;
use sweep_sides::{first_instant, next_instant, rest};
use synopsis::Synopsis;
use tw_rows::{Edge, Memory, Time};

/// The rows of both sides that are alive, by their keys.
#[derive(Drop)]
pub(crate) struct JoinRows {
    pub(crate) alloc: Global,
    pub(crate) left_key: Vec<usize>,
    pub(crate) right_key: Vec<usize>,
    pub(crate) left: Synopsis,
    pub(crate) right: Synopsis,
}

impl JoinRows {
    ghost use Rattle.temporal_join.specs.Kept.{AreByKey, SameKeys};

    // Goes on past one instant: first the rows that end, and then those that start, whose cells move out of their edges.
    fn pass(
        &mut self,
        answer: &mut Vec<Edge>,
        t: Time,
        now_left: &mut [Edge],
        now_right: &mut [Edge],
    ) -> Result<(), Memory>
        ensures swept { OnOk result ((a b : List CellEvent) → AreByKey self.old → t < inf →
            AreEvents a → AreEvents b → SameBag now_left.old (news t (suc t) a) →
            SameBag now_right.old (news t (suc t) b) →
            Held a b t self.old.left.rows self.old.right.rows →
            Held a b (suc t) self.new.left.rows self.new.right.rows
            × Tells (joins self.old.left_key.items self.old.right_key.items a b) t
            (suc t) answer.old.items answer.new.items) }
        ensures left_rows { OnOk result
            (TakeAtMost self.old.left.rows self.new.left.rows (started_rows now_left.old)) }
        ensures right_rows { OnOk result
            (TakeAtMost self.old.right.rows self.new.right.rows (started_rows now_right.old)) }
        ensures keys { SameKeys self.old self.new }
    {
        let left = Pairing {
            alloc: self.alloc,
            left_key: self.left_key.as_slice(),
            right_key: self.right_key.as_slice(),
            right: false,
            at: t,
        };
        let right = Pairing {
            alloc: self.alloc,
            left_key: self.left_key.as_slice(),
            right_key: self.right_key.as_slice(),
            right: true,
            at: t,
        };
        left.end_rows(&mut self.left, &self.right, answer, now_left)?;
        right.end_rows(&mut self.right, &self.left, answer, now_right)?;
        left.start_rows(&mut self.left, &self.right, answer, now_left)?;
        right.start_rows(&mut self.right, &self.left, answer, now_right)?;
        Ok(())
    }

    /// Goes through what is due on both sides, instant by instant. What is left of the edges is not read again.
    pub(crate) fn sweep(
        &mut self,
        answer: &mut Vec<Edge>,
        left_due: &mut [Edge],
        right_due: &mut [Edge],
    ) -> Result<(), Memory>
        ensures swept { OnOk result ((a b : List CellEvent) (from to : ℕ) → AreByKey self.old →
            IsDue a from to left_due.old → IsDue b from to right_due.old →
            Held a b from self.old.left.rows self.old.right.rows →
            Held a b to self.new.left.rows self.new.right.rows
            × Tells (joins self.old.left_key.items self.old.right_key.items a b) from to
            answer.old.items answer.new.items) }
        ensures left_rows { OnOk result
            (TakeAtMost self.old.left.rows self.new.left.rows (started_rows left_due.old)) }
        ensures right_rows { OnOk result
            (TakeAtMost self.old.right.rows self.new.right.rows (started_rows right_due.old)) }
        ensures keys { SameKeys self.old self.new }
    {
        let mut i = 0;
        let mut j = 0;
        while i < left_due.len() || j < right_due.len() {
            let left_rest = rest(left_due, i);
            let right_rest = rest(right_due, j);
            let t = next_instant(left_rest, right_rest);
            let n = first_instant(left_rest, t);
            let m = first_instant(right_rest, t);
            self.pass(answer, t, &mut left_due[i..i + n], &mut right_due[j..j + m])?;
            i += n;
            j += m;
        }
        Ok(())
    }
}

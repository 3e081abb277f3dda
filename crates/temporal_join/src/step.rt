// A step of a Join: its new edges taken in, and what is due told.
ghost use Rattle.std.specs.Prelude.{◌≡◌, ◌≤◌, ◌+◌, ℕ, [], true, All, map, List, OnOk, IfOk};
ghost use Rattle.tw_rows.specs.Bag.{total};
ghost use Rattle.tw_rows.specs.Cells.{datum_kind};
ghost use Rattle.tw_rows.specs.declared.edge.Edge.{Edge};
ghost use Rattle.tw_rows.specs.declared.edge.HeldRow.{HeldRow};
ghost use Rattle.edge_history.specs.Order.{KeepsOrder};
ghost use Rattle.edge_stream.specs.Listing.{cells_of};
ghost use Rattle.sweep_sides.specs.Waiting.{queued, AreTimed};

use crate::settling::{put_now, put_rest, settle};
use crate::sides::JoinSides;
use edge_stream::EdgeList;
use sweep_sides::{let_go, take_due, take_into};
use tw_rows::{Edge, Memory, Time};

impl JoinSides {
    ghost use Rattle.temporal_join.specs.States.{AreAllFew, SameColumns, Stepped, left_pending, right_pending};
    ghost use Rattle.temporal_join.specs.Settled.{Settled, Finished};

    // Whether no row is held by its key, and no edge is pending but the ends of rows.
    fn is_few(&self) -> bool
        ensures { result ≡ true → AreAllFew self.now }
    {
        self.rows.left.len() == 0
            && self.rows.right.len() == 0
            && self.left_waiting.len() == 0
            && self.right_waiting.len() == 0
    }

    // Whether that is so, and nothing comes before the time.
    fn may_go(&self, first: Time, from: Time) -> bool
        ensures from { result ≡ true → from ≤ first }
        ensures few { result ≡ true → AreAllFew self.now }
    {
        if first < from {
            return false;
        }
        self.is_few()
    }

    // Moves all rows to those by their keys.
    fn settle_all(&mut self) -> Result<(), Memory>
        ensures settled { OnOk result (Settled self.old self.new) }
        ensures left_key { self.new.rows.left_key ≡ self.old.rows.left_key }
        ensures right_key { self.new.rows.right_key ≡ self.old.rows.right_key }
    {
        settle(
            &mut self.few.left,
            &mut self.rows.left,
            &mut self.left_waiting,
        )?;
        settle(
            &mut self.few.right,
            &mut self.rows.right,
            &mut self.right_waiting,
        )?;
        Ok(())
    }

    // Sweeps over what is pending and due before a time.
    fn finish(&mut self, answer: &mut Vec<Edge>, to: Time) -> Result<(), Memory>
        ensures finished { OnOk result (
            Finished self.old self.new to [] [] answer.old.items answer.new.items) }
        ensures left_key { self.new.rows.left_key ≡ self.old.rows.left_key }
        ensures right_key { self.new.rows.right_key ≡ self.old.rows.right_key }
    {
        let alloc = self.rows.alloc;
        let mut left = take_due(&mut self.left_waiting, alloc, to)?;
        let mut right = take_due(&mut self.right_waiting, alloc, to)?;
        self.rows
            .sweep(answer, left.as_mut_slice(), right.as_mut_slice())?;
        Ok(())
    }

    // Takes new edges in, and sweeps over what is due before a time, by the keys of the rows.
    fn finish_with(
        &mut self,
        answer: &mut Vec<Edge>,
        left: &EdgeList,
        right: &EdgeList,
        to: Time,
    ) -> Result<(), Memory>
        ensures finished { OnOk result (Finished self.old self.new to left.now.edges
            right.now.edges answer.old.items answer.new.items) }
        ensures left_key { self.new.rows.left_key ≡ self.old.rows.left_key }
        ensures right_key { self.new.rows.right_key ≡ self.old.rows.right_key }
        ensures left_list { OnOk result (KeepsOrder left.now.edges) }
        ensures right_list { OnOk result (KeepsOrder right.now.edges) }
        ensures left_cells { OnOk result (All (λ e. map datum_kind e.cells
            ≡ cells_of left.now) left.now.edges) }
        ensures right_cells { OnOk result (All (λ e. map datum_kind e.cells
            ≡ cells_of right.now) right.now.edges) }
    {
        let alloc = self.rows.alloc;
        take_into(&mut self.left_waiting, alloc, &mut self.left_due, left, to)?;
        take_into(
            &mut self.right_waiting,
            alloc,
            &mut self.right_due,
            right,
            to,
        )?;
        self.rows.sweep(
            answer,
            self.left_due.as_mut_slice(),
            self.right_due.as_mut_slice(),
        )?;
        let_go(&mut self.left_due, alloc);
        let_go(&mut self.right_due, alloc);
        Ok(())
    }

    // A step by the keys of the rows.
    fn step_many(
        &mut self,
        answer: &mut Vec<Edge>,
        left: &EdgeList,
        right: &EdgeList,
        to: Time,
    ) -> Result<(), Memory>
        ensures stepped { OnOk result ((from : ℕ) → AreTimed (left_pending self.old) →
            AreTimed (right_pending self.old) → Stepped self.old self.new from to left.now.edges
            right.now.edges answer.old.items answer.new.items) }
        ensures columns { OnOk result (SameColumns self.old self.new) }
        ensures left_key { self.new.rows.left_key ≡ self.old.rows.left_key }
        ensures right_key { self.new.rows.right_key ≡ self.old.rows.right_key }
        ensures left_list { OnOk result (KeepsOrder left.now.edges) }
        ensures right_list { OnOk result (KeepsOrder right.now.edges) }
        ensures left_cells { OnOk result (All (λ e. map datum_kind e.cells
            ≡ cells_of left.now) left.now.edges) }
        ensures right_cells { OnOk result (All (λ e. map datum_kind e.cells
            ≡ cells_of right.now) right.now.edges) }
    {
        self.settle_all()?;
        self.finish_with(answer, left, right, to)?;
        Ok(())
    }

    /// Takes the new edges of both sides in, and tells what happens up to a time.
    pub(crate) fn step(
        &mut self,
        answer: &mut Vec<Edge>,
        left: &EdgeList,
        right: &EdgeList,
        from: Time,
        to: Time,
    ) -> Result<(), Memory>
        ensures stepped { OnOk result (AreTimed (left_pending self.old) →
            AreTimed (right_pending self.old) → Stepped self.old self.new from to left.now.edges
            right.now.edges answer.old.items answer.new.items) }
        ensures columns { OnOk result (SameColumns self.old self.new) }
        ensures left_key { self.new.rows.left_key ≡ self.old.rows.left_key }
        ensures right_key { self.new.rows.right_key ≡ self.old.rows.right_key }
        ensures left_list { OnOk result (KeepsOrder left.now.edges) }
        ensures right_list { OnOk result (KeepsOrder right.now.edges) }
        ensures left_cells { OnOk result (All (λ e. map datum_kind e.cells
            ≡ cells_of left.now) left.now.edges) }
        ensures right_cells { OnOk result (All (λ e. map datum_kind e.cells
            ≡ cells_of right.now) right.now.edges) }
    {
        let mut l = left.cursor();
        let mut r = right.cursor();
        let first = self.few.next_instant(&l, &r);
        if !self.may_go(first, from) {
            self.step_many(answer, left, right, to)?;
            return Ok(());
        }
        let whole = self.few.sweep(
            answer,
            &mut l,
            &mut r,
            &mut self.left_due,
            &mut self.right_due,
            first,
            to,
        )?;
        put_now(&mut self.left_waiting, &mut self.left_due)?;
        put_rest(&mut self.left_waiting, &mut l)?;
        put_now(&mut self.right_waiting, &mut self.right_due)?;
        put_rest(&mut self.right_waiting, &mut r)?;
        if whole {
            return Ok(());
        }
        self.settle_all()?;
        self.finish(answer, to)?;
        Ok(())
    }
}

// The `impl Operator` of an Extend: its step, how much it holds, and its state saved and loaded.
ghost use Rattle.std.specs.Prelude.{◌≡◌, ◌≤◌, ◌↔◌, ℕ, true, List, IsTrue, map, All, IfOk, OnOk};
ghost use Rattle.std.specs.List.{list_all};
ghost use Rattle.tw_rows.specs.Bag.{SameBag};
ghost use Rattle.tw_rows.specs.Kinds.{cell_kind_of};
ghost use Rattle.tw_rows.specs.declared.kind.CellKind.{CellKind};
ghost use Rattle.edge_history.specs.Order.{is_end};
ghost use Rattle.edge_stream.specs.Listing.{cells_of};
ghost use Rattle.edge_stream.specs.Entries.{part_of, IsEdgePart};
ghost use Rattle.lifetime_ops.specs.ExtendSaving.{is_end_in};
ghost use Rattle.lifetime_ops.specs.Waiting.{edges_of_pending, IsWaitingEnd};

use crate::extend::{ExtendLifetime, part_due, take_due};
use batch::Pools;
use edge_stream::{
    EdgeList, LoadFault, Operator, PartRow, Saved, StepFault, are_of_parts, edges_of_part,
    is_edge_part, load_part, save_edges, save_part, take_below,
};
use end_queue::EndQueue;
use std::alloc::Global;
use tw_rows::{Edge, Kind, Memory, Time};

// Whether the entries of that part are ends.
fn are_ends_of_part(saved: &Saved, part: u64) -> bool
    ensures { result ≡ list_all (is_end_in part) saved.now }
{
    let entries = saved.entries();
    for entry in entries {
        if entry.part == part && entry.other >= entry.sync {
            return false;
        }
    }
    true
}

// A queue of these ends, each due at its own time.
fn queue_of(alloc: Global, edges: &[Edge]) -> Result<EndQueue, Memory>
    requires ends { list_all is_end edges.now ≡ true }
    ensures edges { IfOk result (λ ends. SameBag edges.now (edges_of_pending ends)) }
    ensures waiting { IfOk result (λ ends. (kinds : List CellKind) (from : ℕ) →
        IsEdgePart kinds from edges.now → All (IsWaitingEnd kinds) ends
        × All (λ p. from ≤ p.at) ends) }
{
    let mut ends = EndQueue::new(alloc);
    for edge in edges {
        ends.put(edge.sync, edge.clone()?)?;
    }
    Ok(ends)
}

impl ExtendLifetime {
    ghost use Rattle.std.specs.Prelude.{◌↔◌, IsTrue, Err, IfErr};
    ghost use Rattle.edge_stream.specs.Listing.{SameShape};
    ghost use Rattle.lifetime_ops.specs.ExtendOperating.{IsState};

    // Whether the entries are a state where the left side is closed up to the time. It takes no memory.
    fn is_state(&self, saved: &Saved, left_to: Time) -> bool
        ensures { IsTrue result ↔ IsState self.now saved.now left_to left_to }
    {
        let kinds = self.carried.kinds();
        are_of_parts(saved, 2)
            && is_edge_part(saved, 0, kinds, left_to)
            && is_edge_part(saved, 1, kinds, left_to)
            && are_ends_of_part(saved, 1)
    }

    // The edges that are carried and the ends that are pending. What is no state is told as such, whatever memory there is.
    fn parts_of(&self, saved: &Saved, left_to: Time) -> Result<(EdgeList, EndQueue), LoadFault>
        ensures carried { IfOk result (λ parts. parts.0.edges ≡ part_of 0 saved.now) }
        ensures shape { IfOk result (λ parts. SameShape self.now.carried parts.0) }
        ensures ends { IfOk result (λ parts. SameBag (part_of 1 saved.now)
            (edges_of_pending parts.1)) }
        ensures waiting { IfOk result (λ parts.
            All (IsWaitingEnd (cells_of self.now.carried)) parts.1
            × All (λ p. left_to ≤ p.at) parts.1) }
        ensures sound { OnOk result (IsState self.now saved.now left_to left_to) }
        ensures refused { IfErr result (λ fault. fault ≡ LoadFault.NotState →
            IsState self.now saved.now left_to left_to → ⊥) }
        ensures told { (IsState self.now saved.now left_to left_to → ⊥) →
            result ≡ Err LoadFault.NotState }
    {
        if !self.is_state(saved, left_to) {
            return Err(LoadFault::NotState);
        }
        let carried = load_part(self.alloc, saved, 0, &self.carried)?;
        let edges = edges_of_part(self.alloc, saved, 1)?;
        let ends = queue_of(self.alloc, &edges)?;
        Ok((carried, ends))
    }
}

impl Operator for ExtendLifetime {
    ghost use Rattle.lifetime_ops.specs.ExtendOperating.{standing as extend_standing, entries as extend_entries, IsKept, IsState, IsResumed};
    ghost use Rattle.lifetime_ops.specs.ExtendSaving.{IsOpening, row_of};

    ghost keeps = { IsKept };

    ghost is_opening = { λ s. IsOpening s.carried.edges s.ends s.left_to s.right_to s.failed };

    ghost standing = { extend_standing };

    ghost sound = { IsState };

    ghost resumes = { IsResumed };

    ghost entries = { extend_entries };

    ghost row_of_part = { row_of };

    fn step(
        &mut self,
        pools: &mut Pools,
        left: EdgeList,
        right: EdgeList,
        left_to: Time,
        right_to: Time,
    ) -> Result<EdgeList, StepFault> {
        self.failed = true;
        // These calls tell the proof that both are times.
        let _ = (left_to.word(), right_to.word());
        right.give_back(pools);
        let due = take_below(self.alloc, pools, &mut self.carried, left, left_to)?;
        let mut starts = EdgeList::new(self.alloc, self.carried.kinds(), self.carried.capacity())?;
        part_due(self.by, &due, &mut self.ends, pools, &mut starts)?;
        due.give_back(pools);
        let ends = take_due(self.alloc, pools, &mut self.ends, &self.carried, left_to)?;
        let answer = EdgeList::merge(pools, starts, ends)?;
        self.left_to = left_to;
        self.right_to = right_to;
        self.failed = false;
        Ok(answer)
    }

    fn held(&self) -> u64 {
        self.carried.len().saturating_add(self.ends.len() as u64)
    }

    fn failed(&self) -> bool {
        self.failed
    }

    fn save(&self) -> Result<Saved, Memory> {
        let mut saved = Saved::new(self.alloc);
        save_part(&mut saved, 0, &self.carried)?;
        // Its call tells the proof that they come due in order.
        let _ = self.ends.len();
        let ends = self.ends.edges(self.alloc)?;
        save_edges(&mut saved, 1, &ends)?;
        Ok(saved)
    }

    fn load(&mut self, saved: &Saved, left_to: Time, right_to: Time) -> Result<(), LoadFault> {
        let (carried, ends) = self.parts_of(saved, left_to)?;
        self.carried = carried;
        self.ends = ends;
        self.left_to = left_to;
        self.right_to = right_to;
        Ok(())
    }

    fn part_row(part: u64) -> Option<PartRow> {
        if part < 2 { Some(PartRow::Left) } else { None }
    }

    fn laws() {}
}

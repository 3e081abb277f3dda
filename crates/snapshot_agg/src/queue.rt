// The pending edges of the child of a Group: in a line while they come in the order of their syncs.
ghost use Rattle.std.specs.Prelude.{◌≡◌, ◌^◌, ◌-◌, ◌≤◌, ◌++◌, ◌∷◌, ℕ, true, [], map, take, drop, length, min, IfOk, OnOk};
ghost use Rattle.tw_rows.specs.declared.edge.Edge.{Edge};
ghost use Rattle.edge_history.specs.Order.{failing, is_below, is_from};
ghost use Rattle.edge_stream.specs.Entries.{entries_of};
ghost use Rattle.sweep_laws.specs.Sweeps.{SyncsRise};
ghost use Rattle.sweep_sides.specs.Waiting.{queued, AreTimed};
ghost use Rattle.snapshot_agg.specs.Changing.{Gains, StayTogether};
ghost use Rattle.snapshot_agg.specs.Waiting.{own_pending};

use crate::saving::save_edge_line;
use edge_stream::Saved;
use end_queue::EndQueue;
use std::alloc::Global;
use std::collections::VecDeque;
use std::marker::Model;
use sweep_sides::save_waiting;
use tw_rows::{Edge, Memory, Time};

// Pending edges, each for its own sync.
#[derive(Drop)]
pub(crate) struct Queue {
    // Edges mostly come in the order of their syncs: those stand in a line.
    line: VecDeque<Edge>,
    // Those that came behind a later one.
    others: EndQueue,
}

impl Model for Queue {
    ghost use Rattle.std.specs.Prelude.{◌++◌, List, map};
    ghost use Rattle.end_queue.specs.Pending.{Pending};
    ghost use Rattle.sweep_laws.specs.Sweeps.{SyncsRise};
    ghost use Rattle.snapshot_agg.specs.Waiting.{own_pending};

    ghost Value = { List Pending };

    ghost view = { λ q. q.others ++ map own_pending q.line.items };

    ghost invariant = { λ q. SyncsRise 0 q.line.items };
}

// Whether an edge of that sync may stand behind all others.
pub(crate) fn comes_last(line: &VecDeque<Edge>, sync: Time) -> bool
    ensures { result ≡ true → SyncsRise 0 line.now.items → (edge : Edge) → edge.sync ≡ sync →
        SyncsRise 0 (line.now.items ++ edge ∷ []) }
{
    match line.back() {
        Some(last) => last.sync <= sync,
        None => true,
    }
}

// How many edges stand before the first that comes at the time or later.
fn count_below(line: &VecDeque<Edge>, to: Time) -> usize
    ensures within { result ≤ length line.now.items }
    ensures below { failing (is_below to) (take result line.now.items) ≡ 0 }
    ensures from { SyncsRise 0 line.now.items →
        failing (is_from to) (drop result line.now.items) ≡ 0 }
{
    for i in 0..line.len() {
        if to <= line[i].sync {
            return i;
        }
    }
    line.len()
}

// Moves the first edges behind those that are due.
fn move_first(line: &mut VecDeque<Edge>, due: &mut Vec<Edge>, count: usize) -> Result<(), Memory>
    ensures rises { SyncsRise 0 line.old.items → SyncsRise 0 line.new.items }
    ensures line { OnOk result (line.new.items ≡ drop count line.old.items) }
    ensures due { OnOk result (due.new.items ≡ due.old.items ++ take count line.old.items) }
{
    for _ in 0..count {
        match line.pop_front() {
            Some(edge) => due.push(edge)?,
            None => return Ok(()),
        }
    }
    Ok(())
}

impl Queue {
    // No edge is pending.
    pub(crate) fn new(alloc: Global) -> Queue
        ensures { result ≡ [] }
    {
        Queue::of(alloc, EndQueue::new(alloc))
    }

    // The edges that are pending in the other queue.
    pub(crate) fn of(alloc: Global, others: EndQueue) -> Queue
        ensures { result ≡ others }
    {
        Queue {
            line: VecDeque::new(alloc),
            others,
        }
    }

    // Puts in an edge, which is pending until its sync is due.
    pub(crate) fn put(&mut self, edge: Edge) -> Result<(), Memory>
        ensures parts { OnOk result (Gains self.old self.new (own_pending edge)) }
        ensures edges { OnOk result (Gains (queued self.old) (queued self.new) edge) }
        ensures own { OnOk result (AreTimed self.old → AreTimed self.new) }
    {
        if comes_last(&self.line, edge.sync) {
            self.line.push_back(edge)?;
            return Ok(());
        }
        self.others.put(edge.sync, edge)?;
        Ok(())
    }

    // Takes out the edges that come below a time, and puts them last.
    pub(crate) fn pop_all(&mut self, to: Time, due: &mut Vec<Edge>) -> Result<(), Memory>
        requires own { AreTimed self.old }
        ensures parts { OnOk result (StayTogether due.old.items (queued self.old)
            due.new.items (queued self.new)) }
        ensures below { OnOk result ((c : ℕ) → to ≤ c → failing (is_below c) due.old.items ≡ 0 →
            failing (is_below c) due.new.items ≡ 0) }
        ensures later { OnOk result (failing (is_from to) (queued self.new) ≡ 0) }
        ensures own { OnOk result (AreTimed self.new) }
    {
        self.others.pop_all(to, due)?;
        let count = count_below(&self.line, to);
        move_first(&mut self.line, due, count)?;
        Ok(())
    }

    // How many edges are pending.
    pub(crate) fn len(&self) -> u64
        ensures { result ≡ min (length self.now) (2 ^ 64 - 1) }
    {
        let others = self.others.len() as u64;
        others.saturating_add(self.line.len() as u64)
    }

    // Adds the edges as entries of that part.
    pub(crate) fn save(&self, alloc: Global, saved: &mut Saved, part: u64) -> Result<(), Memory>
        ensures { OnOk result (saved.new ≡ saved.old ++ entries_of part (queued self.now)) }
    {
        save_waiting(alloc, saved, part, &self.others)?;
        save_edge_line(saved, part, &self.line)?;
        Ok(())
    }
}

//! Pending edges, each until a time of its own.
#![tactic(auto)]

ghost use Rattle.std.specs.Prelude.{◌≡◌, ◌<◌, ◌≤◌, ◌∷◌, ◌++◌, [], List, length, map, All, slice_get, Some, false, IfSome, IfNone, IfOk, OnOk, OnErr};
ghost use Rattle.std.specs.BTreeMap.{btree_map_len};
ghost use Rattle.end_queue.specs.Pending.{Pending, put_pending, AreDueFrom};

use std::alloc::Global;
use std::collections::BTreeMap;
use std::marker::Model;
use std::mem::replace;
use tw_rows::{Edge, Memory, Time};

/// Edges, each with the time at which it is due. Contracts see the list of them in the order in which they come due; of
/// equal times the one that was put first comes first.
pub struct EndQueue {
    // By time, and then by a running number.
    edges: BTreeMap<(u64, u64), Edge>,
    next: u64,
}

// By hand, so that crates that let one go cite this and not the destructors of its parts.
impl Drop for EndQueue {
    fn drop(self) {
        let EndQueue {
            edges: _edges,
            next: _,
        } = self;
    }
}

impl Model for EndQueue {
    ghost use Rattle.std.specs.Prelude.{List, map};
    ghost use Rattle.end_queue.specs.Pending.{Pending};
    ghost use Rattle.end_queue.specs.Stored.{pending_of, IsQueue};

    ghost Value = { List Pending };

    ghost view = { λ q. map pending_of q.edges.entries };

    ghost invariant = { λ q. IsQueue q.edges.entries q.next };
}

// The key and the edge at that place of the order.
fn entry_at(edges: &BTreeMap<(u64, u64), Edge>, i: usize) -> (&(u64, u64), &Edge)
    requires { i < btree_map_len edges.now }
    ensures { slice_get edges.now.entries i ≡ Some (result.0.now, result.1.now) }
{
    edges.iter().nth(i).unwrap()
}

// The edges in the order of their keys.
fn copied(alloc: Global, edges: &BTreeMap<(u64, u64), Edge>) -> Result<Vec<Edge>, Memory>
    ensures { IfOk result (λ copy. copy.items ≡ map (λ e. e.1) edges.now.entries) }
{
    let mut copy = Vec::new(alloc);
    for (_, edge) in edges {
        copy.push(edge.clone()?)?;
    }
    Ok(copy)
}

// Puts the edges last, in the order of their keys.
fn push_all(due: &mut Vec<Edge>, edges: BTreeMap<(u64, u64), Edge>) -> Result<(), Memory>
    ensures { OnOk result (due.new.items ≡ due.old.items ++ map (λ e. e.1) edges.entries) }
{
    for edge in edges.into_values() {
        due.push(edge)?;
    }
    Ok(())
}

impl EndQueue {
    /// No edge is pending.
    pub fn new(alloc: Global) -> EndQueue
        ensures { result ≡ [] }
    {
        EndQueue {
            edges: BTreeMap::new(alloc),
            next: 0,
        }
    }

    /// Puts the edge behind all that are due at its time or earlier. Out of memory nothing changes.
    pub fn put(&mut self, at: Time, edge: Edge) -> Result<(), Memory>
        ensures ok { OnOk result
            (self.new ≡ put_pending (record { at = at; edge = edge }) self.old) }
        ensures err { OnErr result (self.new ≡ self.old) }
    {
        // After 2^64 edges there is no number left, which is told as out of memory.
        let Some(next) = self.next.checked_add(1) else {
            return Err(Memory);
        };
        self.edges.insert((at.word(), self.next), edge)?;
        self.next = next;
        Ok(())
    }

    /// Takes out the first edge, if it is due before `below`.
    pub fn pop_due(&mut self, below: Time) -> Option<Edge>
        ensures some { IfSome result (λ edge. (p : Pending) × (p.edge ≡ edge) × (p.at < below)
            × (self.old ≡ p ∷ self.new)) }
        ensures none { IfNone result (All (λ p. below ≤ p.at) self.old) }
        ensures unchanged { IfNone result (self.new ≡ self.old) }
    {
        let (key, _) = self.edges.first_key_value()?;
        if below.word() <= key.0 {
            return None;
        }
        match self.edges.pop_first() {
            Some((_, edge)) => Some(edge),
            None => None,
        }
    }

    // Whether an edge may be due before a time.
    fn may_be_due(&self, below: Time) -> bool
        ensures { result ≡ false → All (λ p. below ≤ p.at) self.now }
    {
        let Some((key, _)) = self.edges.first_key_value() else {
            return false;
        };
        key.0 < below.word()
    }

    /// Takes out all edges that are due before `below`, and puts them last, in the order in which they come due. Out of
    /// memory, edges that were due may be lost.
    pub fn pop_all(&mut self, below: Time, due: &mut Vec<Edge>) -> Result<(), Memory>
        ensures { OnOk result ((taken : List Pending) × (self.old ≡ taken ++ self.new)
            × (due.new.items ≡ due.old.items ++ map (λ p. p.edge) taken) × All
            (λ p. p.at < below) taken × All (λ p. below ≤ p.at) self.new) }
    {
        if !self.may_be_due(below) {
            return Ok(());
        }
        let rest = self.edges.split_off(&(below.word(), 0))?;
        let taken = replace(&mut self.edges, rest);
        push_all(due, taken)?;
        Ok(())
    }

    /// How many edges are pending.
    pub fn len(&self) -> usize
        ensures len { result ≡ length self.now }
        ensures order { AreDueFrom 0 self.now }
    {
        self.edges.len()
    }

    /// A copy of the edges, in the order in which they come due.
    pub fn edges(&self, alloc: Global) -> Result<Vec<Edge>, Memory>
        ensures { IfOk result (λ edges. edges.items ≡ map (λ p. p.edge) self.now) }
    {
        let copy = copied(alloc, &self.edges)?;
        Ok(copy)
    }

    /// The time of the entry at that place.
    pub fn time_at(&self, i: usize) -> Time
        requires { i < length self.now }
        ensures { (p : Pending) → slice_get self.now i ≡ Some p → result ≡ p.at }
    {
        let (key, _) = entry_at(&self.edges, i);
        Time::from_word(key.0)
    }

    /// The edge of the entry at that place.
    pub fn edge_at(&self, i: usize) -> &Edge
        requires { i < length self.now }
        ensures { (p : Pending) → slice_get self.now i ≡ Some p → result.now ≡ p.edge }
    {
        let (_, edge) = entry_at(&self.edges, i);
        edge
    }
}

// Pending edges, each until its instant is shown.
ghost use Rattle.std.specs.Prelude.{◌≡◌, ◌<◌, ◌≤◌, ◌+◌, ℕ, [], ◌∷◌, ◌++◌, IfOk, IfSome, IfNone};
ghost use Rattle.std.specs.Prelude.{true, IsSome, is_some, if◌then◌else◌, nat_eq, cond, None, OnOk};
ghost use Rattle.std.specs.Ordering.{nat_cmp};
ghost use Rattle.std.specs.BTreeMap.{get, btree_map_len, IsLowerBound};
ghost use Rattle.tw_rows.specs.Instant.{inf};
ghost use Rattle.edge_history.specs.Opens.{singles_of};
ghost use Rattle.egress.specs.Waiting.{waiting_in, later_in, edges_if, pending_len, ArePut, ArePopped};

use std::alloc::Global;
use std::collections::BTreeMap;
use tw_rows::{Edge, Memory, Time};

// The pending edges, each with its instant. Starts come in the order of their instants, so those of the instant at hand
// are in a list, and the map has the ends, which are known ahead.
#[derive(Drop)]
pub(crate) struct Pending {
    alloc: Global,
    at: Time,
    at_hand: Vec<Edge>,
    later: BTreeMap<u64, Vec<Edge>>,
}

// The edges of an instant.
#[derive(Drop)]
pub(crate) struct Due {
    pub(crate) at: Time,
    pub(crate) edges: Vec<Edge>,
}

// The most edges whose room is kept for the next instant at hand.
const MOST: usize = 1024;

// Adds an edge. Most instants have one, and room for one is made at first.
fn push_edge(edges: &mut Vec<Edge>, edge: Edge) -> Result<(), Memory>
    ensures { OnOk result (edges.new.items ≡ edges.old.items ++ edge ∷ []) }
{
    if edges.is_empty() {
        edges.reserve_exact(1)?;
        edges.push(edge)?;
        return Ok(());
    }
    edges.push(edge)?;
    Ok(())
}

// Puts an edge to those of its instant in the map.
fn put_later(later: &mut BTreeMap<u64, Vec<Edge>>, alloc: Global, edge: Edge) -> Result<(), Memory>
    ensures { OnOk result (ArePut (later_in later.old) (later_in later.new) (edge ∷ [])) }
{
    let instant = edge.sync.word();
    let edges = later.entry(instant)?.or_insert(Vec::new(alloc));
    push_edge(edges, edge)?;
    Ok(())
}

// The first instant of the map, if it has one.
fn first_instant(later: &BTreeMap<u64, Vec<Edge>>) -> Option<u64>
    ensures there { IfSome result (λ k. IsSome (get nat_cmp later.now k)) }
    ensures least { IfSome result (λ k. IsLowerBound nat_cmp later.now k) }
    ensures none { IfNone result ((t : ℕ) → get nat_cmp later.now t ≡ None) }
{
    match later.first_key_value() {
        Some((instant, _)) => Some(*instant),
        None => None,
    }
}

// Takes out the edges of the first instant of the map, if it is below `to`.
fn pop_later(later: &mut BTreeMap<u64, Vec<Edge>>, to: Time) -> Option<Due>
    ensures within { to ≤ inf }
    ensures some { IfSome result (λ due. ArePopped (later_in later.old)
        (later_in later.new) due.at due.edges.items) }
    ensures below { IfSome result (λ due. due.at < to) }
    ensures none { IfNone result ((t : ℕ) → t < to → later_in later.new t ≡ None) }
    ensures same { IfNone result ((t : ℕ) → later_in later.new t ≡ later_in later.old t) }
    ensures len { btree_map_len later.new + (if is_some result then 1 else 0)
        ≡ btree_map_len later.old }
{
    let limit = to.word();
    let instant = first_instant(later)?;
    if instant >= limit {
        return None;
    }
    let (number, edges) = later.pop_first()?;
    Some(Due {
        at: Time::from_word(number),
        edges,
    })
}

impl Pending {
    // No edge is pending.
    pub(crate) fn new(alloc: Global) -> Pending
        ensures { (t : ℕ) → waiting_in result t ≡ None }
    {
        Pending {
            alloc,
            at: Time::ZERO,
            at_hand: Vec::new(alloc),
            later: BTreeMap::new(alloc),
        }
    }

    // Whether no edge is pending.
    pub(crate) fn is_empty(&self) -> bool
        ensures { result ≡ true → (t : ℕ) → waiting_in self.now t ≡ None }
    {
        match first_instant(&self.later) {
            Some(_) => false,
            None => self.at_hand.is_empty(),
        }
    }

    // A copy of what is pending.
    pub(crate) fn copy(&self) -> Result<Pending, Memory>
        ensures { IfOk result (λ copy. (t : ℕ) → waiting_in copy t ≡ waiting_in self.now t) }
    {
        let at_hand = self.at_hand.clone()?;
        let later = self.later.clone()?;
        Ok(Pending {
            alloc: self.alloc,
            at: self.at,
            at_hand,
            later,
        })
    }

    // Puts an edge to the pending ones of its instant.
    pub(crate) fn put(&mut self, edge: Edge) -> Result<(), Memory>
        ensures { OnOk result (ArePut (waiting_in self.old) (waiting_in self.new) (edge ∷ [])) }
    {
        if edge.sync == self.at {
            self.at_hand.push(edge)?;
            return Ok(());
        }
        put_later(&mut self.later, self.alloc, edge)?;
        Ok(())
    }

    // Puts the edge that comes next: where none is at hand its instant is from here on the one at hand.
    fn put_next(&mut self, edge: Edge) -> Result<(), Memory>
        ensures { OnOk result (ArePut (waiting_in self.old) (waiting_in self.new) (edge ∷ [])) }
    {
        if self.at_hand.is_empty() {
            self.at = edge.sync;
        }
        self.put(edge)?;
        Ok(())
    }

    // Puts the edge that comes next: of an interval its start and its end.
    #[tactic(auto, unfolding(tw_rows::specs::Instant::inf))]
    pub(crate) fn put_singles(&mut self, edge: Edge) -> Result<(), Memory>
        ensures { OnOk result (ArePut (waiting_in self.old) (waiting_in self.new)
            (singles_of edge)) }
    {
        if edge.is_end() || edge.other == Time::INF {
            return self.put_next(edge);
        }
        let end = Edge {
            sync: edge.other,
            other: edge.sync,
            cells: edge.cells.clone()?,
        };
        let start = Edge {
            sync: edge.sync,
            other: Time::INF,
            cells: edge.cells,
        };
        self.put_next(start)?;
        self.put(end)
    }

    // Takes out the edges of the instant at hand, after those of the map for it.
    fn pop_now(&mut self) -> Result<Vec<Edge>, Memory>
        ensures edges { IfOk result (λ edges. edges.items
            ≡ edges_if (later_in self.old.later self.old.at) ++ self.old.at_hand.items) }
        ensures taken { OnOk result (self.new.at_hand.items ≡ []) }
        ensures at { self.new.at ≡ self.old.at }
        ensures later { OnOk result ((t : ℕ) → later_in self.new.later t
            ≡ cond (nat_eq self.old.at t) None (later_in self.old.later t)) }
        ensures len { btree_map_len self.new.later ≤ btree_map_len self.old.later }
    {
        let instant = self.at.word();
        let Some(mut edges) = self.later.remove(&instant) else {
            let none = Vec::new(self.alloc);
            return Ok(std::mem::replace(&mut self.at_hand, none));
        };
        edges.append(&mut self.at_hand)?;
        Ok(edges)
    }

    // Takes out the edges of the first instant for which some are pending, if it is below `to`.
    pub(crate) fn pop_due(&mut self, to: Time) -> Result<Option<Due>, Memory>
        ensures within { to ≤ inf }
        ensures some { IfOk result (λ due. IfSome due (λ d. ArePopped (waiting_in self.old)
            (waiting_in self.new) d.at d.edges.items)) }
        ensures below { IfOk result (λ due. IfSome due (λ d. d.at < to)) }
        ensures none { IfOk result (λ due. IfNone due ((t : ℕ) → t < to →
            waiting_in self.new t ≡ None)) }
        ensures same { IfOk result (λ due. IfNone due ((t : ℕ) →
            waiting_in self.new t ≡ waiting_in self.old t)) }
        ensures fewer { IfOk result (λ due. IfSome due (λ d.
            pending_len self.new < pending_len self.old)) }
    {
        if self.at_hand.is_empty() {
            return Ok(pop_later(&mut self.later, to));
        }
        let at = self.at;
        if let Some(due) = pop_later(&mut self.later, at.min(to)) {
            return Ok(Some(due));
        }
        if to <= at {
            return Ok(None);
        }
        let edges = self.pop_now()?;
        Ok(Some(Due { at, edges }))
    }

    // Keeps the room of a list for the next instant at hand, if it is not too much.
    pub(crate) fn keep_room(&mut self, mut edges: Vec<Edge>)
        ensures same { (t : ℕ) → waiting_in self.new t ≡ waiting_in self.old t }
        ensures len { pending_len self.new ≡ pending_len self.old }
    {
        let room = edges.capacity();
        if !self.at_hand.is_empty() || room > MOST || room <= self.at_hand.capacity() {
            return;
        }
        edges.clear();
        self.at_hand = edges;
    }
}

// The pending edges of a stream: those that come in order in batches, and the others by rank.
ghost use Rattle.std.specs.Prelude.{◌≡◌, ◌-◌, ◌^◌, ◌<◌, ◌≤◌, min, length, map, filter, false, IsTrue};
ghost use Rattle.std.specs.Prelude.{IfOk, OnOk, OnErr, List, [], ◌∷◌, ◌++◌};
ghost use Rattle.tw_rows.specs.Instant.{inf};
ghost use Rattle.tw_rows.specs.Bag.{SameBag};
ghost use Rattle.tw_rows.specs.Cells.{datum_kind};
ghost use Rattle.tw_rows.specs.declared.cells.Datum.{Datum};
ghost use Rattle.tw_rows.specs.declared.edge.Edge.{Edge};
ghost use Rattle.edge_history.specs.Order.{rank as edge_rank, many, failing, starts_it, is_below, is_from, Rises, IsReal, KeepsOrder};
ghost use Rattle.edge_stream.specs.Listing.{cells_of, SameShape};
ghost use Rattle.ingress.specs.Fits.{is_fit};
ghost use Rattle.ingress.specs.Held.{edge_with};
ghost use Rattle.ingress.specs.Ranks.{TakesBatches, SamePools};

use crate::by_rank::{ByRank, end_rank, rank_between, rank_of};
use batch::Pools;
use edge_stream::{Cursor, EdgeList, is_stored_as};
use std::alloc::Global;
use std::marker::Model;
use tw_rows::{Cells, Datum, Edge, Kind, Memory, Time};

/// Pending edges, from which those before a time are taken first. One that comes in order and fits the columns is put last in a
/// list of batches, and any other by its rank.
pub struct Waiting {
    pub(crate) queue: EdgeList,
    pub(crate) others: ByRank,
    pub(crate) alloc: Global,
}

// By hand, so that its users cite this and not the destructors of its parts.
impl Drop for Waiting {
    fn drop(self) {
        let Waiting {
            queue: _queue,
            others: _others,
            alloc: _,
        } = self;
    }
}

impl Model for Waiting {
    ghost use Rattle.std.specs.Prelude.{List, ◌++◌};
    ghost use Rattle.tw_rows.specs.declared.edge.Edge.{Edge as Item};

    ghost Value = { List Item };

    ghost view = { λ w. w.queue.edges ++ w.others };
}

// Whether an edge of these times comes at an instant, and its other time is another one.
#[tactic(auto, unfolding(tw_rows::specs::Instant::inf))]
fn is_real(sync: Time, other: Time) -> bool
    ensures { IsTrue result → (cells : List Datum) → IsReal (edge_with sync other cells) }
{
    let instant = other.word();
    sync < Time::INF && instant != sync.word()
}

// Whether the edge of these times and cells can be put last in the list.
fn goes_last(queue: &EdgeList, sync: Time, other: Time, cells: &[Datum]) -> bool
    ensures kinds { IsTrue result → map datum_kind cells.now ≡ cells_of queue.now }
    ensures order { IsTrue result →
        KeepsOrder (queue.now.edges ++ edge_with sync other cells.now ∷ []) }
{
    is_real(sync, other)
        && is_stored_as(cells, queue.kinds())
        && comes_last(queue, rank_between(sync, other))
}

// Whether an edge of that rank comes after those of the list.
fn comes_last(queue: &EdgeList, rank: u64) -> bool
    ensures { IsTrue result → (edge : Edge) → edge_rank edge ≡ rank → IsReal edge →
        KeepsOrder (queue.now.edges ++ edge ∷ []) }
{
    match queue.last_rank() {
        Some(last) => last <= rank,
        None => true,
    }
}

// Whether these are the same kinds.
fn same_kinds(a: &[Kind], b: &[Kind]) -> bool
    ensures { IsTrue result → b.now ≡ a.now }
{
    a == b
}

// Whether the lists have columns of the same kinds, and batches of the same capacity.
fn are_alike(a: &EdgeList, b: &EdgeList) -> bool
    ensures { IsTrue result → SameShape a.now b.now }
{
    a.capacity() == b.capacity() && same_kinds(a.kinds(), b.kinds())
}

// Whether an edge is left, and the next one has a rank below `end`.
fn has_before(cursor: &Cursor, end: u64) -> bool
    ensures below { IsTrue result → (e : Edge) (rest : List Edge) → cursor.now.edges ≡ e ∷ rest →
        edge_rank e < end }
    ensures some { cursor.now.edges ≡ [] → result ≡ false }
    ensures none { result ≡ false → (e : Edge) (rest : List Edge) → cursor.now.edges ≡ e ∷ rest →
        end ≤ edge_rank e }
{
    match cursor.rank() {
        Some(rank) => rank < end,
        None => false,
    }
}

impl Waiting {
    /// No edge, and columns of these kinds in batches of that capacity.
    pub fn new(alloc: Global, kinds: &[Kind], capacity: usize) -> Result<Waiting, Memory>
        requires width { length kinds.now ≤ 32 }
        requires room { 1 ≤ capacity }
        ensures { IfOk result (λ w. w ≡ []) }
    {
        Ok(Waiting {
            queue: EdgeList::new(alloc, kinds, capacity)?,
            others: ByRank::new(alloc),
            alloc,
        })
    }

    /// Adds the edge of these times and cells. Where it comes in order its cells go into the columns at once.
    pub fn put(
        &mut self,
        pools: &mut Pools,
        sync: Time,
        other: Time,
        cells: &[Datum],
    ) -> Result<(), Memory>
        ensures ok { OnOk result (SameBag self.new (edge_with sync other cells.now ∷ self.old)) }
        ensures err { OnErr result (self.new ≡ self.old) }
        ensures pools { SamePools pools.old pools.new }
    {
        if pools.capacity() == self.queue.capacity() && goes_last(&self.queue, sync, other, cells) {
            return self.queue.append_cells(pools, sync, other, cells);
        }
        self.put_by_rank(sync, other, cells)
    }

    /// Adds an edge that may be taken out again before its time: it is found by its rank then.
    pub fn put_by_rank(&mut self, sync: Time, other: Time, cells: &[Datum]) -> Result<(), Memory>
        ensures ok { OnOk result (SameBag self.new (edge_with sync other cells.now ∷ self.old)) }
        ensures err { OnErr result (self.new ≡ self.old) }
    {
        let own = Cells::from_slice(self.alloc, cells)?;
        self.others.put(Edge {
            sync,
            other,
            cells: own,
        })
    }

    /// How many edges are pending, or the greatest number where there are more. It goes through the batches and through the times
    /// of those that did not come in order.
    pub fn len(&self) -> u64
        ensures { result ≡ min (length self.now) (2 ^ 64 - 1) }
    {
        self.queue.len().saturating_add(self.others.len())
    }

    /// Takes a start edge out, if it is there. Of those that were put by rank only the edges that start at that time are
    /// looked at.
    pub fn take_out(&mut self, cells: &Cells, start: Time) -> bool
        ensures taken { IsTrue result → SameBag
            (record { sync = start; other = inf; cells = cells.now } ∷ self.new) self.old }
        ensures kept { result ≡ false → self.new ≡ self.old }
        ensures none { result ≡ false → many (starts_it cells.now start) self.old ≡ 0 }
    {
        if self.others.take_out(cells, start) {
            return true;
        }
        self.queue.take_start(cells, start)
    }

    /// Adds copies of the edges before `t` to an empty list, in order. Out of memory changes the list and the pools alone. Where
    /// all of them came in order, whole columns are copied, and else edge by edge.
    pub fn copy_below(&self, pools: &mut Pools, t: Time, list: &mut EdgeList) -> Result<(), Memory>
        requires capacity { pools.old.capacity ≡ list.old.capacity }
        requires empty { list.old.edges ≡ [] }
        requires fit { failing (is_fit (cells_of list.old)) self.now ≡ 0 }
        ensures ok { OnOk result (SameBag list.new.edges (filter (is_below t) self.now)) }
        ensures order { OnOk result (Rises 0 list.new.edges) }
        ensures shape { SameShape list.old list.new }
        ensures taken { OnOk result (TakesBatches list.old pools.old list.new pools.new) }
        ensures pools { SamePools pools.old pools.new }
    {
        if are_alike(&self.queue, list) && !self.others.has_below(t) {
            return self.queue.copy_below(pools, t, list);
        }
        let end = end_rank(t);
        let mut low = 0;
        let mut cursor = self.queue.cursor();
        'edges: while has_before(&cursor, end) {
            // it is there: this leaves nothing out
            let Some(edge) = cursor.next()? else {
                return Ok(());
            };
            let rank = rank_of(&edge);
            self.others.append_between(pools, low, rank, list)?;
            list.append(pools, &edge)?;
            low = rank;
        }
        self.others.append_between(pools, low, end, list)
    }

    /// Takes the edges before `t` out.
    pub fn drop_below(&mut self, t: Time)
        ensures { self.new ≡ filter (is_from t) self.old }
    {
        self.queue.drop_below(t);
        self.others.drop_below(t);
    }
}

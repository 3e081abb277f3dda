// The edges that are released at a punctuation.
ghost use Rattle.std.specs.Prelude.{◌≡◌, ℕ, ◌<◌, ◌≤◌, [], length, get_or, filter, IfOk, OnOk, OnErr};
ghost use Rattle.tw_rows.specs.Instant.{inf};
ghost use Rattle.tw_rows.specs.Bag.{SameBag};
ghost use Rattle.edge_stream.specs.Listing.{cells_of as list_cells};
ghost use Rattle.edge_stream.specs.Taking.{batches_taken};
ghost use Rattle.edge_history.specs.Order.{failing, is_below, is_from, Rises};
ghost use Rattle.plan_laws.specs.Places.{EdgesArePlaced};
ghost use Rattle.edge_stream.specs.Lists.{edges_at, longer};
ghost use Rattle.ingress.specs.Admits.{kinds_of, SameFixed, Follows, Admits, WhateverFollowed, AreListsOf, AreReleased};
ghost use Rattle.ingress.specs.Ranks.{SamePools, lists_taken};

use crate::ingress::Ingress;
use batch::Pools;
use edge_stream::EdgeList;
use tw_rows::{Memory, Time};

impl Ingress {
    /// The edges before `p` that were not released yet, in order, for each stream. Where no bound is below `p` lines can
    /// follow; out of memory changes nothing but the pools. Of the pools no more is taken than the batches of the lists.
    pub fn release(&mut self, pools: &mut Pools, p: Time) -> Result<Vec<EdgeList>, Memory>
        requires capacity { pools.old.capacity ≡ self.old.capacity }
        requires rises { self.old.released ≤ p }
        ensures follows { IfOk result (λ lists. WhateverFollowed self.old (λ texts a given.
            Follows texts a (longer given (edges_at lists.items)) self.new)) }
        ensures admits { IfOk result (λ lists. WhateverFollowed self.old (λ texts a given.
            ((s : ℕ) → s < length self.old.kinds.items → p ≤ a.bound s) →
            Admits texts a (longer given (edges_at lists.items)) self.new)) }
        ensures later { IfOk result (λ lists. WhateverFollowed self.old (λ texts a given.
            (s : ℕ) → failing (is_from self.old.released) (edges_at lists.items s) ≡ 0)) }
        ensures placed { IfOk result (λ lists. WhateverFollowed self.old (λ texts a given.
            (s : ℕ) → EdgesArePlaced texts (edges_at lists.items s))) }
        ensures lists { IfOk result (λ lists. AreListsOf self.old lists.items) }
        ensures edges { IfOk result (λ lists. AreReleased p self.old.held.waiting.items lists.items) }
        ensures released { OnOk result (self.new.released ≡ p) }
        ensures err { OnErr result (self.new ≡ self.old) }
        ensures fixed { SameFixed self.old self.new }
        ensures taken { IfOk result (λ lists. pools.new ≡ lists_taken pools.old lists.items) }
        ensures pools { SamePools pools.old pools.new }
    {
        let lists = self.copy_below(pools, p)?;
        self.held.drop_below(p);
        self.released = p;
        Ok(lists)
    }

    // Copies of the edges before `p`, in order, for each stream.
    fn copy_below(&self, pools: &mut Pools, p: Time) -> Result<Vec<EdgeList>, Memory>
        requires { pools.old.capacity ≡ self.now.capacity }
        ensures lists { IfOk result (λ lists. AreListsOf self.now lists.items) }
        ensures edges { IfOk result (λ lists. AreReleased p self.now.held.waiting.items lists.items) }
        ensures within { p ≤ inf }
        ensures taken { IfOk result (λ lists. pools.new ≡ lists_taken pools.old lists.items) }
        ensures pools { SamePools pools.old pools.new }
    {
        let mut lists = Vec::new(self.alloc);
        for stream in 0..self.kinds.len() {
            lists.push(self.copy_stream(pools, p, stream)?)?;
        }
        Ok(lists)
    }

    // Copies of the edges of a stream before `p`, in order.
    fn copy_stream(&self, pools: &mut Pools, p: Time, stream: usize) -> Result<EdgeList, Memory>
        requires capacity { pools.old.capacity ≡ self.now.capacity }
        requires stream { stream < length self.now.kinds.items }
        ensures kinds { IfOk result (λ list. list.kinds ≡ get_or (kinds_of self.now) stream []) }
        ensures capacity { IfOk result (λ list. list.capacity ≡ self.now.capacity) }
        ensures edges { IfOk result (λ list. SameBag list.edges
            (filter (is_below p) (get_or self.now.held.waiting.items stream []))) }
        ensures order { IfOk result (λ list. Rises 0 list.edges) }
        ensures taken { IfOk result (λ list. pools.new
            ≡ batches_taken list.batches pools.old (list_cells list)) }
        ensures pools { SamePools pools.old pools.new }
    {
        let mut list = EdgeList::new(self.alloc, &self.kinds[stream], self.capacity)?;
        self.held.waiting[stream].copy_below(pools, p, &mut list)?;
        Ok(list)
    }
}

// Where slices of an epoch end.
ghost use Rattle.std.specs.Prelude.{◌≡◌, ℕ, ◌+◌, ◌<◌, ◌≤◌, List, IfSome, IsNone};
ghost use Rattle.tw_rows.specs.declared.edge.Edge.{Edge};
ghost use Rattle.edge_history.specs.Order.{failing, is_below};
ghost use Rattle.edge_stream.specs.Listing.{EdgeListView};
ghost use Rattle.ingress.specs.Admits.{WhateverFollowed, AreReleased};
ghost use Rattle.ingress.specs.Slices.{edges_of, count_below, all_below, slice_end as end_of_slice};

use crate::by_rank::{ByRank, end_rank};
use crate::held_streams::{HeldStreams, is_before};
use crate::ingress::Ingress;
use crate::waiting::Waiting;
use tw_rows::Time;

impl ByRank {
    // What is left of `room` once the edges from `from` on and before `to` have taken a place each. None where they are more.
    fn room_left(&self, from: Time, to: Time, room: usize) -> Option<usize>
        requires { from ≤ to }
        ensures some { IfSome result (λ rest. count_below to self.now + rest
            ≡ count_below from self.now + room) }
        ensures none { IsNone result → count_below from self.now + room < count_below to self.now }
    {
        let mut rest = room;
        for (_, edges) in self.ranks.range(end_rank(from)..end_rank(to)) {
            rest = rest.checked_sub(edges.len())?;
        }
        Some(rest)
    }

    // The least sync from `from` on, where it is before `to`, and else `to`.
    fn first_between(&self, from: Time, to: Time) -> Time
        requires { from ≤ to }
        ensures within { (from ≤ result) × (result ≤ to) }
        ensures none { count_below result self.now ≡ count_below from self.now }
        ensures some { result < to → count_below result self.now < count_below (result + 1) self.now }
    {
        for (_, edges) in self.ranks.range(end_rank(from)..end_rank(to)) {
            if let Some(edge) = edges.first() {
                return edge.sync;
            }
        }
        to
    }
}

impl Waiting {
    // What is left of `room` once the edges from `from` on and before `to` have taken a place each. None where they are more.
    fn room_left(&self, from: Time, to: Time, room: usize) -> Option<usize>
        requires { from ≤ to }
        ensures some { IfSome result (λ rest. count_below to self.now + rest
            ≡ count_below from self.now + room) }
        ensures none { IsNone result → count_below from self.now + room < count_below to self.now }
    {
        let rest = self.queue.room_left(from, to, room)?;
        self.others.room_left(from, to, rest)
    }

    // The least sync from `from` on, where it is before `to`, and else `to`.
    fn first_between(&self, from: Time, to: Time) -> Time
        requires { from ≤ to }
        ensures within { (from ≤ result) × (result ≤ to) }
        ensures none { count_below result self.now ≡ count_below from self.now }
        ensures some { result < to → count_below result self.now < count_below (result + 1) self.now }
    {
        let other = self.others.first_between(from, to);
        let Some(sync) = self.queue.first_from(from) else {
            return other;
        };
        if is_before(sync, other) {
            return sync;
        }
        other
    }
}

// A time between two others: `step` after the lower one, or halfway where that is less.
pub(crate) fn between(low: Time, high: Time, step: u64) -> Time
    requires apart { low + 1 < high }
    requires step { 1 ≤ step }
    ensures { (low < result) × (result < high) }
{
    let half = (high.word() - low.word()) / 2;
    Time::from_word(low.word() + step.min(half))
}

// The next time, where another one comes later.
#[tactic(auto, unfolding(tw_rows::specs::Instant::inf))]
pub(crate) fn next_time(t: Time, end: Time) -> Time
    requires { t < end }
    ensures { result ≡ t + 1 }
{
    Time::from_word(end.word().min(t.word() + 1))
}

impl HeldStreams {
    // What is left of `room` once the edges from `from` on and before `to` have taken a place each. None where they are more.
    fn room_left(&self, from: Time, to: Time, room: usize) -> Option<usize>
        requires { from ≤ to }
        ensures some { IfSome result (λ rest. all_below to self.now.waiting.items + rest
            ≡ all_below from self.now.waiting.items + room) }
        ensures none { IsNone result → all_below from self.now.waiting.items
            + room < all_below to self.now.waiting.items }
    {
        let mut rest = room;
        for waiting in &self.waiting {
            rest = waiting.room_left(from, to, rest)?;
        }
        Some(rest)
    }

    // The least sync from `from` on, where it is before `to`, and else `to`.
    fn first_between(&self, from: Time, to: Time) -> Time
        requires { from ≤ to }
        ensures within { (from ≤ result) × (result ≤ to) }
        ensures none { all_below result self.now.waiting.items
            ≡ all_below from self.now.waiting.items }
        ensures some { result < to → all_below result self.now.waiting.items < all_below
            (result + 1) self.now.waiting.items }
    {
        let mut first = to;
        for waiting in &self.waiting {
            first = waiting.first_between(from, first);
        }
        first
    }

    // The greatest time before `p` below which no more than `batch` edges come. Below `first` there is none, and below `p` are
    // more. It is looked for in steps that double, and then by halves.
    fn last_within(&self, first: Time, p: Time, batch: usize) -> Time
        requires first { first < p }
        requires none { all_below first self.now.waiting.items ≡ 0 }
        requires more { batch < all_below p self.now.waiting.items }
        ensures from { first ≤ result }
        ensures within { all_below result self.now.waiting.items ≤ batch }
        ensures more { batch < all_below (result + 1) self.now.waiting.items }
    {
        let mut low = first;
        let mut high = p;
        let mut room = batch;
        let mut step: u64 = 1;
        'steps: while high.word() - low.word() > 1 {
            let middle = between(low, high, step);
            match self.room_left(low, middle, room) {
                Some(rest) => {
                    low = middle;
                    room = rest;
                    step = step.saturating_mul(2);
                }
                None => high = middle,
            }
        }
        low
    }

    // Where the first slice of the edges before `p` ends.
    fn slice_end(&self, p: Time, batch: usize) -> Time
        ensures within { result ≤ p }
        ensures later { (t : ℕ) → t < p → all_below t self.now.waiting.items ≡ 0 → t < result }
        ensures end { (edges : List Edge) → failing (is_below p) edges ≡ 0 →
            ((x : ℕ) → x ≤ p → count_below x edges ≡ all_below x self.now.waiting.items) →
            result ≡ end_of_slice batch p edges }
    {
        if self.room_left(Time::ZERO, p, batch).is_some() {
            return p;
        }
        let first = self.first_between(Time::ZERO, p);
        let last = self.last_within(first, p, batch);
        if is_before(first, last) {
            return last;
        }
        self.first_between(next_time(first, p), p)
    }
}

impl Ingress {
    /// Where the next slice of the edges before `p` ends, of those that were not released yet. It takes no memory.
    pub fn slice_end(&self, p: Time, batch: usize) -> Time
        requires later { self.now.released < p }
        ensures later { (self.now.released < result) × (result ≤ p) }
        ensures end { WhateverFollowed self.now
            (λ texts a given. (lists : List EdgeListView) →
            AreReleased p self.now.held.waiting.items lists →
            result ≡ end_of_slice batch p (edges_of lists)) }
    {
        let end = self.held.slice_end(p, batch);
        // no edge waits that comes before the last release
        if is_before(self.released, end) {
            end
        } else {
            p
        }
    }
}

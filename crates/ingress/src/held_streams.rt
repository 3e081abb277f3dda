// What is held of all streams: the pending edges, and the open starts.
ghost use Rattle.std.specs.Prelude.{◌≡◌, ℕ, ◌+◌, ◌-◌, ◌^◌, ◌<◌, ◌≤◌, ◌↔◌, min, IsTrue, false, []};
ghost use Rattle.std.specs.Prelude.{◌∷◌, length, get_or, filter, None, All, IfOk, OnOk, OnErr};
ghost use Rattle.tw_rows.specs.Instant.{inf};
ghost use Rattle.tw_rows.specs.Bag.{total, SameBag};
ghost use Rattle.indexmap.specs.IndexMap.{IsUnique};
ghost use Rattle.edge_history.specs.Order.{many, starts_it, is_from};
ghost use Rattle.ingress.specs.Held.{edge_with, start_of};
ghost use Rattle.ingress.specs.OpenKeys.{same_key, starts_in};
ghost use Rattle.ingress.specs.Keeping.{Changed, HasEndedRow, opens_in};
ghost use Rattle.ingress.specs.Changes.{KeepsIn, SameHeld, AddsRow, AddsStart, EndsStart, StaysFit};
ghost use Rattle.ingress.specs.Ranks.{SamePools};

use crate::opens::{OpenKey, OpenStart, OpenStarts};
use crate::waiting::Waiting;
use batch::Pools;
use std::alloc::Global;
use tw_rows::{Cells, Datum, Kind, Memory, Time};

/// The edges of all streams that are pending until a punctuation, and the starts that have no end yet.
#[derive(Drop)]
pub struct HeldStreams {
    pub(crate) waiting: Vec<Waiting>,
    pub(crate) opens: OpenStarts,
}

pub(crate) fn is_before(a: Time, b: Time) -> bool
    ensures test { IsTrue result ↔ (a < b) }
    ensures within { b ≤ inf }
{
    a < b
}

#[tactic(auto, unfolding(tw_rows::specs::Instant::inf))]
pub(crate) fn infinity() -> Time
    ensures { result ≡ inf }
{
    Time::INF
}

// Whether an open start has an edge: it was not dropped, and starts at an instant.
fn is_live(state: &OpenStart) -> bool
    ensures { IsTrue result ↔ ((state.now.dropped ≡ false) × (state.now.start < inf)) }
{
    !state.dropped && is_before(state.start, infinity())
}

impl HeldStreams {
    /// Nothing, for streams with columns of these kinds, in batches of that capacity.
    pub fn new(alloc: Global, kinds: &[Vec<Kind>], capacity: usize) -> Result<HeldStreams, Memory>
        requires width { All (λ k. length k.items ≤ 32) kinds.now }
        requires room { 1 ≤ capacity }
        ensures keeps { IfOk result (λ h. KeepsIn 0 h (λ s. []) [] (λ s. [])) }
        ensures len { IfOk result (λ h. length h.waiting.items ≡ length kinds.now) }
        ensures empty { IfOk result (λ h. (s : ℕ) → get_or h.waiting.items s [] ≡ []) }
    {
        let mut waiting = Vec::new(alloc);
        for columns in kinds {
            waiting.push(Waiting::new(alloc, columns, capacity)?)?;
        }
        Ok(HeldStreams {
            waiting,
            opens: OpenStarts::new(alloc),
        })
    }

    /// How many edges are pending and how many starts are open, or the greatest number where there are more. It goes through them.
    pub fn held(&self) -> u64
        ensures count { result ≡ min (length (opens_in self.now.opens.starts.entries) + total
            (λ l. length l) self.now.waiting.items) (2 ^ 64 - 1) }
        ensures unique { IsUnique same_key self.now.opens.starts }
    {
        let mut held = self.opens.len();
        for waiting in &self.waiting {
            held = held.saturating_add(waiting.len());
        }
        held
    }

    // Adds the edge of a stream of these times and cells.
    pub(crate) fn put(
        &mut self,
        pools: &mut Pools,
        stream: usize,
        sync: Time,
        other: Time,
        cells: &[Datum],
    ) -> Result<(), Memory>
        requires { stream < length self.old.waiting.items }
        ensures changed { Changed stream self.old.waiting.items self.new.waiting.items }
        ensures ok { OnOk result (SameBag (get_or self.new.waiting.items stream [])
            (edge_with sync other cells.now ∷ get_or self.old.waiting.items stream [])) }
        ensures err { OnErr result (get_or self.new.waiting.items stream []
            ≡ get_or self.old.waiting.items stream []) }
        ensures opens { self.new.opens ≡ self.old.opens }
        ensures pools { SamePools pools.old pools.new }
    {
        self.waiting[stream].put(pools, sync, other, cells)
    }

    // Adds an edge of a stream that may be taken out again.
    pub(crate) fn put_by_rank(
        &mut self,
        stream: usize,
        sync: Time,
        other: Time,
        cells: &[Datum],
    ) -> Result<(), Memory>
        requires { stream < length self.old.waiting.items }
        ensures changed { Changed stream self.old.waiting.items self.new.waiting.items }
        ensures ok { OnOk result (SameBag (get_or self.new.waiting.items stream [])
            (edge_with sync other cells.now ∷ get_or self.old.waiting.items stream [])) }
        ensures err { OnErr result (get_or self.new.waiting.items stream []
            ≡ get_or self.old.waiting.items stream []) }
        ensures opens { self.new.opens ≡ self.old.opens }
    {
        self.waiting[stream].put_by_rank(sync, other, cells)
    }

    // Adds the start edge of an open start that was given. Where it was moved to a later bound its end may come no later.
    fn put_start(
        &mut self,
        pools: &mut Pools,
        stream: usize,
        start: Time,
        cells: &[Datum],
        given: Time,
    ) -> Result<(), Memory>
        requires { stream < length self.old.waiting.items }
        ensures changed { Changed stream self.old.waiting.items self.new.waiting.items }
        ensures ok { OnOk result (SameBag (get_or self.new.waiting.items stream [])
            (start_of cells.now start ∷ get_or self.old.waiting.items stream [])) }
        ensures err { OnErr result (get_or self.new.waiting.items stream []
            ≡ get_or self.old.waiting.items stream []) }
        ensures opens { self.new.opens ≡ self.old.opens }
        ensures pools { SamePools pools.old pools.new }
    {
        let end = infinity();
        if start == given {
            self.put(pools, stream, start, end, cells)
        } else {
            self.put_by_rank(stream, start, end, cells)
        }
    }

    // Takes a start edge of a stream out, if it is there.
    fn take_out(&mut self, stream: usize, cells: &Cells, start: Time) -> bool
        requires { stream < length self.old.waiting.items }
        ensures changed { Changed stream self.old.waiting.items self.new.waiting.items }
        ensures taken { IsTrue result → SameBag
            (start_of cells.now start ∷ get_or self.new.waiting.items stream [])
            (get_or self.old.waiting.items stream []) }
        ensures none { result ≡ false → many (starts_it cells.now start)
            (get_or self.old.waiting.items stream []) ≡ 0 }
        ensures opens { self.new.opens ≡ self.old.opens }
        ensures kept { result ≡ false → get_or self.new.waiting.items stream []
            ≡ get_or self.old.waiting.items stream [] }
    {
        self.waiting[stream].take_out(cells, start)
    }

    /// A row of a stream with its lifetime, if that is not empty. It starts at the bound of the stream or later.
    pub fn add_row(
        &mut self,
        pools: &mut Pools,
        stream: usize,
        cells: &[Datum],
        start: Time,
        end: Time,
    ) -> Result<(), Memory>
        requires { stream < length self.old.waiting.items }
        ensures ok { OnOk result (AddsRow stream cells.now start end self.old self.new) }
        ensures err { OnErr result (SameHeld self.old self.new) }
        ensures len { length self.new.waiting.items ≡ length self.old.waiting.items }
        ensures fit { StaysFit stream cells.now self.old self.new }
        ensures pools { SamePools pools.old pools.new }
    {
        if is_before(start, end) {
            self.put(pools, stream, start, end, cells)?;
            return Ok(());
        }
        Ok(())
    }

    /// One more open start. It starts at the bound of its stream or later.
    pub fn open_start(
        &mut self,
        pools: &mut Pools,
        key: OpenKey,
        state: OpenStart,
    ) -> Result<(), Memory>
        requires { key.stream < length self.old.waiting.items }
        ensures ok { OnOk result (AddsStart key state self.old self.new) }
        ensures err { OnErr result (SameHeld self.old self.new) }
        ensures len { length self.new.waiting.items ≡ length self.old.waiting.items }
        ensures fit { StaysFit key.stream key.cells self.old self.new }
        ensures pools { SamePools pools.old pools.new }
    {
        if !is_live(&state) {
            self.opens.open(key, state)?;
            return Ok(());
        }
        let (stream, given) = (key.stream, key.given);
        let start = state.start;
        let cells = key.cells.clone()?;
        self.put_start(pools, stream, start, cells.items(), given)?;
        if let Err(memory) = self.opens.open(key, state) {
            self.take_out(stream, &cells, start);
            return Err(memory);
        }
        Ok(())
    }

    // The edges of a stream once an open start has ended.
    fn end_row(
        &mut self,
        pools: &mut Pools,
        key: &OpenKey,
        state: &OpenStart,
        at: Time,
    ) -> Result<(), Memory>
        requires { key.now.stream < length self.old.waiting.items }
        ensures changed { Changed key.now.stream self.old.waiting.items self.new.waiting.items }
        ensures ended { OnOk result (HasEndedRow key.now at
            (get_or self.old.waiting.items key.now.stream [])
            (get_or self.new.waiting.items key.now.stream []) state.now) }
        ensures err { OnErr result (get_or self.new.waiting.items key.now.stream []
            ≡ get_or self.old.waiting.items key.now.stream []) }
        ensures opens { self.new.opens ≡ self.old.opens }
        ensures within { at ≤ inf }
        ensures fit { StaysFit key.now.stream key.now.cells self.old self.new }
        ensures pools { SamePools pools.old pools.new }
    {
        if state.dropped {
            return Ok(());
        }
        if is_before(state.start, at) {
            if !is_before(at, infinity()) {
                return Ok(());
            }
            self.put(pools, key.stream, at, state.start, key.cells.items())?;
            return Ok(());
        }
        if is_before(state.start, infinity()) {
            self.take_out(key.stream, &key.cells, state.start);
        }
        Ok(())
    }

    /// Ends the first open start that the key names, if there is one, at a time that is not before the bound of its stream.
    pub fn end_start(
        &mut self,
        pools: &mut Pools,
        key: &OpenKey,
        at: Time,
    ) -> Result<Option<OpenStart>, Memory>
        requires { key.now.stream < length self.old.waiting.items }
        ensures ok { IfOk result (EndsStart key.now at self.old self.new) }
        ensures none { IfOk result (λ answer. answer ≡ None → self.new ≡ self.old) }
        ensures err { OnErr result (SameHeld self.old self.new) }
        ensures named { OnErr result (0 < length (starts_in self.old.opens.starts key.now)) }
        ensures len { length self.new.waiting.items ≡ length self.old.waiting.items }
        ensures fit { StaysFit key.now.stream key.now.cells self.old self.new }
        ensures pools { SamePools pools.old pools.new }
    {
        let Some(state) = self.opens.first(key) else {
            return Ok(None);
        };
        self.end_row(pools, key, &state, at)?;
        self.opens.close(key);
        Ok(Some(state))
    }

    // Takes the edges of a stream before `t` out.
    fn drop_one(&mut self, stream: usize, t: Time)
        requires { stream < length self.old.waiting.items }
        ensures changed { Changed stream self.old.waiting.items self.new.waiting.items }
        ensures dropped { get_or self.new.waiting.items stream []
            ≡ filter (is_from t) (get_or self.old.waiting.items stream []) }
        ensures opens { self.new.opens ≡ self.old.opens }
    {
        self.waiting[stream].drop_below(t);
    }

    /// Takes the edges of all streams before `t` out.
    pub fn drop_below(&mut self, t: Time)
        ensures waiting { (s : ℕ) → get_or self.new.waiting.items s []
            ≡ filter (is_from t) (get_or self.old.waiting.items s []) }
        ensures len { length self.new.waiting.items ≡ length self.old.waiting.items }
        ensures opens { self.new.opens ≡ self.old.opens }
    {
        for stream in 0..self.waiting.len() {
            self.drop_one(stream, t);
        }
    }
}

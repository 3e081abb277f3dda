// Lines that are admitted, one by one.
ghost use Rattle.std.specs.Prelude.{◌≡◌, ℕ, ◌+◌, ◌-◌, ◌^◌, min, ◌<◌, ◌≤◌, ◌&&◌, nat_lt, List, []};
ghost use Rattle.std.specs.Prelude.{length, get_or, map, take, Ok, Err, IfSome, IfOk, IfErr, OnOk};
ghost use Rattle.std.specs.Prelude.{OnErr, MatchOption};
ghost use Rattle.tw_rows.specs.Bag.{total};
ghost use Rattle.tw_rows.specs.Instant.{inf};
ghost use Rattle.tw_rows.specs.Cells.{ArePlaced, read_cells, with_row};
ghost use Rattle.tw_rows.specs.Texts.{BeginsWith};
ghost use Rattle.tw_rows.specs.declared.edge.Edge.{Edge};
ghost use Rattle.tw_rows.specs.declared.schema.StreamDef.{StreamDef};
ghost use Rattle.plan_model.specs.IsPlan.{AreNarrow};
ghost use Rattle.admission.specs.Admission.{Admission, nothing, Taken, admit as admitted, allowed, refuses, drops};
ghost use Rattle.row_reader.specs.Celled.{entry_in, IsPlacedIn};
ghost use Rattle.row_reader.specs.Interned.{row_read};
ghost use Rattle.row_reader.specs.declared.entry.Entry.TheVariants as entries;
ghost use Rattle.ingress.specs.Fits.{Fits, plain, row_cells};
ghost use Rattle.ingress.specs.Counts.{may_hold};
ghost use Rattle.ingress.specs.Admits.{cells_of, IsFor, SameFixed, Admits, WhateverFollowed};
ghost use Rattle.ingress.specs.Admits.{StillAdmits, Takes, IsRefused, WantsMemory, IsLeft};
ghost use Rattle.ingress.specs.Admits.{LeavesTexts};
ghost use Rattle.ingress.specs.Ranks.{SamePools};

use crate::entering::EventLine;
use crate::held_streams::{HeldStreams, is_before};
use crate::ingress::{Ingress, Refusal};
use crate::watermarks::{Watermarks, later};
use admission::{Admitted, Lateness, Policy};
use batch::Pools;
use row_reader::{Entry, Form, Said};
use smallvec::SmallVec;
use std::alloc::Global;
use tw_rows::{Cells, Datum, Kind, Memory, Schema, StreamDef, TextTable, Time, to_cells};

// The kinds of the columns, as cells hold them.
fn plain_kinds(alloc: Global, schema: &Schema) -> Result<Vec<Kind>, Memory>
    ensures { IfOk result (λ kinds. kinds.items ≡ map (λ c. plain c.kind) schema.now) }
{
    let mut kinds = Vec::new(alloc);
    for column in schema.items() {
        kinds.push(plain_kind(column.kind))?;
    }
    Ok(kinds)
}

fn plain_kind(kind: Kind) -> Kind
    ensures { result ≡ plain kind }
{
    match kind {
        Kind::Int | Kind::Dec(_) => Kind::Int,
        Kind::Bool => Kind::Bool,
        Kind::Text => Kind::Text,
    }
}

// Whether a line is late, and late lines are refused.
fn is_refused(policy: Policy, sync: Time, bound: Time) -> bool
    ensures { result ≡ (nat_lt sync bound && refuses policy.late) }
{
    is_late(sync, bound) && matches!(&policy.late, Lateness::Refuse)
}

// Whether a line is late, and late lines are dropped.
fn is_dropped(policy: Policy, sync: Time, bound: Time) -> bool
    ensures { result ≡ (nat_lt sync bound && drops policy.late) }
{
    is_late(sync, bound) && matches!(&policy.late, Lateness::Drop)
}

fn is_late(sync: Time, bound: Time) -> bool
    ensures { result ≡ nat_lt sync bound }
{
    sync < bound
}

// The number of the time less `by`, and not below 0.
fn reduced(t: Time, by: u64) -> Time
    ensures { result ≡ t - by }
{
    Time::from_word(t.word().saturating_sub(by))
}

fn no_cells(alloc: Global) -> Cells
    ensures { result ≡ [] }
{
    Cells::new(SmallVec::new(alloc))
}

// What the entry says, and the cells of an event's row. Its texts are in the table then.
fn cells_of_entry(
    alloc: Global,
    entry: Entry,
    texts: &mut TextTable,
) -> Result<(Said, Cells), Memory>
    ensures same { IfOk result (λ told. entry_in texts.new told.0 told.1 ≡ entry) }
    ensures placed { IfOk result (λ told. IsPlacedIn texts.new told.0 told.1) }
    ensures table { OnOk result (texts.new ≡ with_row texts.old (row_read (Ok entry))) }
    ensures err { OnErr result ((n : ℕ) × (texts.new
        ≡ with_row texts.old (take n (row_read (Ok entry))))) }
    ensures begins { BeginsWith texts.new texts.old }
{
    match entry {
        Entry::Skip => Ok((Said::Skip, no_cells(alloc))),
        Entry::Punct { stream, time } => Ok((Said::Punct { stream, time }, no_cells(alloc))),
        Entry::Event {
            stream,
            form,
            sync,
            other,
            row,
        } => {
            let cells = to_cells(alloc, &row, texts)?;
            let said = Said::Event {
                stream,
                form,
                sync,
                other,
            };
            Ok((said, cells))
        }
    }
}

impl Ingress {
    /// Nothing was admitted, and batches of released edges have that capacity.
    pub fn new(
        alloc: Global,
        policy: Policy,
        streams: &[StreamDef],
        capacity: usize,
    ) -> Result<Ingress, Memory>
        requires capacity { 1 ≤ capacity }
        requires width { AreNarrow streams.now }
        ensures fixed { IfOk result (λ i. IsFor streams.now policy capacity i) }
        ensures admits { IfOk result (λ i. (texts : List (List ℕ)) →
            Admits texts nothing (λ s. []) i) }
        ensures released { IfOk result (λ i. i.released ≡ 0) }
    {
        let mut kinds = Vec::new(alloc);
        for stream in streams {
            kinds.push(plain_kinds(alloc, &stream.schema)?)?;
        }
        let held = HeldStreams::new(alloc, &kinds, capacity)?;
        Ok(Ingress {
            policy,
            kinds,
            capacity,
            watermarks: Watermarks::new(alloc, streams.len())?,
            held,
            released: Time::ZERO,
            alloc,
        })
    }

    /// One line more. What it gives is held. The texts of its row are in the table then, also where it is dropped or refused; but
    /// for them a refusal changes nothing.
    pub fn admit(
        &mut self,
        entry: Entry,
        texts: &mut TextTable,
        pools: &mut Pools,
    ) -> Result<Admitted, Refusal>
        requires { Fits (cells_of self.old) entry }
        ensures ok { IfOk result (Takes texts.old texts.new entry self.old self.new) }
        ensures refused { IfErr result (IsRefused texts.old entry self.old) }
        ensures left { IfErr result (λ refusal. IsLeft refusal self.old self.new) }
        ensures err { OnErr result (StillAdmits texts.old texts.new self.old self.new) }
        ensures texts { LeavesTexts texts.old texts.new result entry }
        ensures begins { BeginsWith texts.new texts.old }
        ensures fixed { SameFixed self.old self.new }
        ensures released { self.new.released ≡ self.old.released }
        ensures pools { SamePools pools.old pools.new }
    {
        let (said, cells) = match cells_of_entry(self.alloc, entry, texts) {
            Ok(told) => told,
            Err(Memory) => return Err(Refusal::Memory),
        };
        self.admit_row(said, cells.items(), texts, pools)
    }

    /// One line more, whose values stand in a row: what is admitted is the entry that they stand for. An interval that comes in
    /// order goes from the row into the columns of the pending edges. A refusal changes nothing.
    pub fn admit_row(
        &mut self,
        said: Said,
        row: &[Datum],
        texts: &TextTable,
        pools: &mut Pools,
    ) -> Result<Admitted, Refusal>
        requires placed { IsPlacedIn texts.now said row.now }
        requires fits { Fits (cells_of self.old) (entry_in texts.now said row.now) }
        ensures ok { IfOk result (Takes texts.now texts.now (entry_in texts.now said row.now)
            self.old self.new) }
        ensures refused { IfErr result (IsRefused texts.now (entry_in texts.now said row.now)
            self.old) }
        ensures memory { result ≡ Err Refusal.Memory →
            WantsMemory texts.now (entry_in texts.now said row.now) self.old }
        ensures left { IfErr result (λ refusal. IsLeft refusal self.old self.new) }
        ensures err { OnErr result (StillAdmits texts.now texts.now self.old self.new) }
        ensures fixed { SameFixed self.old self.new }
        ensures released { self.new.released ≡ self.old.released }
        ensures pools { SamePools pools.old pools.new }
    {
        match said {
            Said::Skip => Ok(Admitted::Skipped),
            Said::Punct { stream, time } => {
                self.punctuate(stream, time);
                Ok(Admitted::Kept)
            }
            Said::Event {
                stream,
                form,
                sync,
                other,
            } => self.admit_event(stream, form, sync, other, row, texts, pools),
        }
    }

    // A punctuation of one stream, or of all.
    fn punctuate(&mut self, stream: Option<usize>, time: Time)
        requires { IfSome stream (λ s. s < length self.old.kinds.items) }
        ensures admits { (texts : List (List ℕ)) (a : Admission) (given : ℕ → List Edge) →
            Admits texts a given self.old → (b : Admission)
            × ((admitted self.old.policy a (entries.Punct stream time) ≡ Taken b)
            × Admits texts b given self.new) }
        ensures fixed { SameFixed self.old self.new }
        ensures released { self.new.released ≡ self.old.released }
    {
        match stream {
            Some(stream) => self.watermarks.raise(stream, time),
            None => self.watermarks.raise_all(time),
        }
    }

    // An event line.
    fn admit_event(
        &mut self,
        stream: usize,
        form: Form,
        sync: Time,
        other: Time,
        row: &[Datum],
        texts: &TextTable,
        pools: &mut Pools,
    ) -> Result<Admitted, Refusal>
        requires placed { ArePlaced texts.now row.now }
        requires stream { stream < length self.old.kinds.items }
        requires cells { row_cells (read_cells texts.now row.now)
            ≡ get_or (cells_of self.old) stream [] }
        ensures ok { IfOk result (Takes texts.now texts.now
            (entries.Event stream form sync other (read_cells texts.now row.now)) self.old self.new) }
        ensures refused { IfErr result (IsRefused texts.now
            (entries.Event stream form sync other (read_cells texts.now row.now)) self.old) }
        ensures memory { result ≡ Err Refusal.Memory → WantsMemory texts.now
            (entries.Event stream form sync other (read_cells texts.now row.now)) self.old }
        ensures left { IfErr result (λ refusal. IsLeft refusal self.old self.new) }
        ensures err { OnErr result (StillAdmits texts.now texts.now self.old self.new) }
        ensures fixed { SameFixed self.old self.new }
        ensures released { self.new.released ≡ self.old.released }
        ensures pools { SamePools pools.old pools.new }
    {
        let bound = self.watermarks.bound(stream);
        if is_refused(self.policy, sync, bound) {
            return Err(Refusal::Late { time: sync, bound });
        }
        let line = EventLine {
            stream,
            form,
            sync,
            other,
            at: later(sync, bound),
            dropped: is_dropped(self.policy, sync, bound),
        };
        // each text is in the table once
        let _count = texts.len();
        let Ok(entered) = self.held.enter(pools, &line, row) else {
            return Err(Refusal::Memory);
        };
        let Some(answer) = entered else {
            return Err(Refusal::NoStart);
        };
        self.watermarks
            .raise_bound(stream, reduced(sync, self.policy.lateness));
        Ok(answer)
    }

    /// The punctuation that is due: the greatest that the bounds and marks allow, where it is above the last one.
    pub fn due(&self) -> Option<Time>
        ensures allowed { MatchOption result (WhateverFollowed self.now
            (λ texts a given. allowed self.now.policy (length self.now.kinds.items)
            a ≤ self.now.released)) (λ p. WhateverFollowed self.now
            (λ texts a given. (allowed self.now.policy (length self.now.kinds.items) a ≡ p)
            × (self.now.released < p))) }
        ensures later { IfSome result (λ p. (self.now.released < p) × (p ≤ inf)) }
    {
        let allowed = self.watermarks.allowed(self.policy);
        if is_before(self.released, allowed) {
            Some(allowed)
        } else {
            None
        }
    }

    /// Below the bound a line of the stream is late.
    pub fn bound(&self, stream: usize) -> Time
        requires { stream < length self.now.kinds.items }
        ensures { WhateverFollowed self.now (λ texts a given. result ≡ a.bound stream) }
    {
        self.watermarks.bound(stream)
    }

    /// Up to the mark punctuations close the stream.
    pub fn mark(&self, stream: usize) -> Time
        requires { stream < length self.now.kinds.items }
        ensures { WhateverFollowed self.now (λ texts a given. result ≡ a.mark stream) }
    {
        self.watermarks.mark(stream)
    }

    /// How many edges are pending and how many starts are open, dropped ones too, or the greatest number where there are more. It
    /// goes through them.
    pub fn held(&self) -> u64
        ensures count { WhateverFollowed self.now
            (λ texts a given. result ≡ min (length a.opens + total
            (λ l. length l) self.now.held.waiting.items) (2 ^ 64 - 1)) }
        ensures bound { WhateverFollowed self.now (λ texts a given.
            result ≤ may_hold (length self.now.kinds.items) self.now.released a) }
    {
        self.held.held()
    }

    /// The last punctuation at which edges were released, and 0 before the first.
    pub fn released(&self) -> Time
        ensures { result ≡ self.now.released }
    {
        self.released
    }
}

// What admission kept, taken up from saved entries.
ghost use Rattle.std.specs.Prelude.{◌≡◌, ◌↔◌, ◌%◌, ◌<◌, ◌≤◌, ℕ, List, ◌&&◌, true, false, nat_le, get_or, length, All, Err, IsTrue, IfOk, OnOk, OnErr};
ghost use Rattle.tw_rows.specs.declared.edge.Edge.{Edge as EdgeOf};
ghost use Rattle.edge_history.specs.Order.{is_real};
ghost use Rattle.edge_stream.specs.Entries.{saved_edge};
ghost use Rattle.row_reader.specs.Printed.{IsEnd};
ghost use Rattle.admission.specs.Admission.{Admission};
ghost use Rattle.ingress.specs.Admits.{cells_of, SameFixed, Admits};
ghost use Rattle.ingress.specs.Saving.{stream_of, IsSoundEntry, Resumes};
ghost use Rattle.ingress.specs.Loaded.{LoadsAll, TakesUp, IsSoundMark, AreSoundMarks, IsState, IsSoundEdge, IsGivenStart, IsSoundAs, cells_of_kinds};
ghost use Rattle.ingress.specs.Streams.{bound_in, mark_in};

use crate::held_streams::HeldStreams;
use crate::ingress::Ingress;
use crate::opens::{OpenKey, OpenStart};
use crate::watermarks::{Watermark, Watermarks};
use edge_stream::{LoadFault, Saved, SavedEntry, is_stored_as};
use std::alloc::Global;
use tw_rows::{Kind, Memory, Time};

// Whether the time is an event time, or infinity.
#[tactic(auto, unfolding(tw_rows::specs::Instant::inf))]
fn is_event_time(time: Time) -> bool
    ensures { IsTrue result ↔ IsEnd time }
{
    let word = time.word();
    word < 1 << 60 || word == Time::bounds().1.word()
}

// Whether both times of the entry are event times, or infinity.
fn has_event_times(entry: &SavedEntry) -> bool
    ensures { IsTrue result ↔ (IsEnd entry.now.sync × IsEnd entry.now.other) }
{
    is_event_time(entry.sync) && is_event_time(entry.other)
}

// Whether the entry, as an edge, is real and comes from the time on.
fn is_sound_edge(entry: &SavedEntry, last: Time) -> bool
    ensures { result ≡ (is_real (saved_edge entry.now) && nat_le last entry.now.sync) }
{
    let sync = entry.sync.word();
    let other = entry.other.word();
    let from = last.word();
    let infinity = Time::bounds().1.word();
    sync < infinity && other != sync && from <= sync
}

// Whether the times of an entry of that role may be there after the time.
fn are_sound_times(entry: &SavedEntry, role: u64, last: Time) -> bool
    ensures yes { IsTrue result → IsSoundAs role last entry.now }
    ensures no { result ≡ false → (role ≡ 0 → IsSoundEdge last entry.now) →
        (role ≡ 2 → IsGivenStart entry.now) → ⊥ }
{
    if role == 0 {
        return is_sound_edge(entry, last);
    }
    if role == 2 {
        return entry.sync == entry.other;
    }
    true
}

// Whether admission with columns of these kinds can have the entry at the punctuation.
fn is_sound_entry(kinds: &[Vec<Kind>], entry: &SavedEntry, last: Time) -> bool
    ensures yes { IsTrue result → IsSoundEntry (cells_of_kinds kinds.now) last entry.now }
    ensures no { result ≡ false → IsSoundEntry (cells_of_kinds kinds.now) last entry.now → ⊥ }
{
    let stream = entry.part / 3;
    if stream >= kinds.len() as u64 {
        return false;
    }
    if !is_stored_as(entry.cells.items(), &kinds[stream as usize]) {
        return false;
    }
    if !has_event_times(entry) {
        return false;
    }
    are_sound_times(entry, entry.part % 3, last)
}

impl HeldStreams {
    // Takes up the edge of an entry.
    fn take_up_edge(&mut self, entry: &SavedEntry, stream: usize) -> Result<(), Memory>
        requires stream { stream ≡ stream_of entry.now }
        requires low { stream < length self.old.waiting.items }
        requires role { entry.now.part % 3 ≡ 0 }
        ensures ok { OnOk result (TakesUp entry.now self.old self.new) }
        ensures len { length self.new.waiting.items ≡ length self.old.waiting.items }
    {
        self.put_by_rank(stream, entry.sync, entry.other, entry.cells.items())
    }

    // Takes up the open start of an entry.
    fn take_up_start(&mut self, entry: &SavedEntry, stream: usize) -> Result<(), Memory>
        requires stream { stream ≡ stream_of entry.now }
        requires role { 1 ≤ entry.now.part % 3 }
        ensures ok { OnOk result (TakesUp entry.now self.old self.new) }
        ensures len { length self.new.waiting.items ≡ length self.old.waiting.items }
    {
        let key = OpenKey {
            stream,
            given: entry.other,
            cells: entry.cells.clone()?,
        };
        let state = OpenStart {
            start: entry.sync,
            dropped: entry.part % 3 == 2,
        };
        self.opens.open(key, state)?;
        Ok(())
    }

    // Takes up an entry of one of the streams.
    fn take_up(&mut self, entry: &SavedEntry) -> Result<(), Memory>
        requires { stream_of entry.now < length self.old.waiting.items }
        ensures ok { OnOk result (TakesUp entry.now self.old self.new) }
        ensures len { length self.new.waiting.items ≡ length self.old.waiting.items }
    {
        let stream = (entry.part / 3) as usize;
        if entry.part % 3 == 0 {
            self.take_up_edge(entry, stream)
        } else {
            self.take_up_start(entry, stream)
        }
    }
}

// Whether admission with columns of these kinds can have the entries at the punctuation.
fn are_sound_entries(kinds: &[Vec<Kind>], entries: &[SavedEntry], last: Time) -> bool
    ensures { IsTrue result ↔ All (IsSoundEntry (cells_of_kinds kinds.now) last) entries.now }
{
    for entry in entries {
        if !is_sound_entry(kinds, entry, last) {
            return false;
        }
    }
    true
}

// What is held of the entries, of streams with columns of these kinds.
fn load_entries(
    alloc: Global,
    entries: &[SavedEntry],
    kinds: &[Vec<Kind>],
    capacity: usize,
) -> Result<HeldStreams, Memory>
    requires streams { All (λ e. stream_of e < length kinds.now) entries.now }
    requires width { All (λ k. length k.items ≤ 32) kinds.now }
    requires room { 1 ≤ capacity }
    ensures { IfOk result (LoadsAll (length kinds.now) entries.now entries.now) }
{
    let mut held = HeldStreams::new(alloc, kinds, capacity)?;
    for entry in entries {
        held.take_up(entry)?;
    }
    Ok(held)
}

// Whether a stream can have the bound and the mark at the punctuation.
fn is_sound_mark(bound: Time, mark: Time, last: Time) -> bool
    ensures { IsTrue result ↔ IsSoundMark last bound mark }
{
    is_event_time(bound) && is_event_time(mark) && last <= bound && mark <= bound
}

// Whether each stream can have its bound and its mark.
fn are_each_sound(bounds: &[Time], marks: &[Time], last: Time) -> bool
    requires { length marks.now ≡ length bounds.now }
    ensures { IsTrue result ↔ AreSoundMarks last bounds.now marks.now }
{
    for i in 0..bounds.len() {
        if !is_sound_mark(bounds[i], marks[i], last) {
            return false;
        }
    }
    true
}

// Whether there can be such a punctuation, and each stream can have its bound and its mark at it.
fn are_sound_marks(bounds: &[Time], marks: &[Time], last: Time) -> bool
    requires { length marks.now ≡ length bounds.now }
    ensures { IsTrue result ↔ (IsEnd last × AreSoundMarks last bounds.now marks.now) }
{
    is_event_time(last) && are_each_sound(bounds, marks, last)
}

impl Watermarks {
    /// These bounds and marks.
    pub(crate) fn of(alloc: Global, bounds: &[Time], marks: &[Time]) -> Result<Watermarks, Memory>
        requires { length marks.now ≡ length bounds.now }
        ensures len { IfOk result (λ w. length w.streams.items ≡ length bounds.now) }
        ensures bounds { IfOk result (λ w. (s : ℕ) → s < length bounds.now →
            bound_in w.streams.items s ≡ get_or bounds.now s 0) }
        ensures marks { IfOk result (λ w. (s : ℕ) → s < length bounds.now →
            mark_in w.streams.items s ≡ get_or marks.now s 0) }
    {
        let mut streams = Vec::new(alloc);
        for i in 0..bounds.len() {
            streams.push(Watermark {
                bound: bounds[i],
                mark: marks[i],
            })?;
        }
        Ok(Watermarks { streams })
    }
}

impl Ingress {
    /// Takes up entries that were saved, with the bounds and the marks of all streams and the last punctuation. They are no state
    /// exactly where it says so: that is tested before memory is taken. After a fault all stays as it was.
    pub fn load(
        &mut self,
        saved: &Saved,
        bounds: &[Time],
        marks: &[Time],
        last: Time,
    ) -> Result<(), LoadFault>
        requires bounds { length bounds.now ≡ length self.old.kinds.items }
        requires marks { length marks.now ≡ length self.old.kinds.items }
        ensures admits { OnOk result ((texts : List (List ℕ)) (a : Admission) (given : ℕ →
            List EdgeOf) → Resumes (cells_of self.old) saved.now (λ s. get_or bounds.now s 0)
            (λ s. get_or marks.now s 0) last texts a given → Admits texts a given self.new) }
        ensures sound { OnOk result (IsState (cells_of self.old) saved.now bounds.now marks.now
            last) }
        ensures state { (result ≡ Err LoadFault.NotState) ↔
            (¬ (IsState (cells_of self.old) saved.now bounds.now marks.now last)) }
        ensures released { OnOk result (self.new.released ≡ last) }
        ensures err { OnErr result (self.new ≡ self.old) }
        ensures fixed { SameFixed self.old self.new }
    {
        if !are_sound_marks(bounds, marks, last) {
            return Err(LoadFault::NotState);
        }
        let entries = saved.entries();
        if !are_sound_entries(&self.kinds, entries, last) {
            return Err(LoadFault::NotState);
        }
        let watermarks = Watermarks::of(self.alloc, bounds, marks)?;
        let held = load_entries(self.alloc, entries, &self.kinds, self.capacity)?;
        self.watermarks = watermarks;
        self.held = held;
        self.released = last;
        Ok(())
    }
}

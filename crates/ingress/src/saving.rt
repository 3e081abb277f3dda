// What admission keeps, as saved entries.
ghost use Rattle.std.specs.Prelude.{◌≡◌, ◌+◌, ◌*◌, ◌^◌, ◌<◌, ◌≤◌, ℕ, List, ◌∷◌, ◌++◌, [], cond, map, length, IfOk, OnOk};
ghost use Rattle.indexmap.specs.IndexMap.{IsUnique};
ghost use Rattle.tw_rows.specs.declared.edge.Edge.{Edge};
ghost use Rattle.edge_stream.specs.Entries.{entries_of};
ghost use Rattle.row_reader.specs.Printed.{IsEnd};
ghost use Rattle.admission.specs.Admission.{Admission};
ghost use Rattle.ingress.specs.Admits.{cells_of, Admits, WhateverFollowed, AreMarksOf};
ghost use Rattle.ingress.specs.Counts.{may_hold};
ghost use Rattle.ingress.specs.OpenKeys.{same_key};
ghost use Rattle.ingress.specs.Times.{IsTimed};
ghost use Rattle.ingress.specs.Saving.{Resumes};
ghost use Rattle.ingress.specs.Keeping.{cell_open, opens_in};
ghost use Rattle.ingress.specs.Loaded.{entry_of_open, waits_from};

use crate::by_rank::ByRank;
use crate::held_streams::HeldStreams;
use crate::ingress::Ingress;
use crate::opens::{OpenKey, OpenStart, OpenStarts};
use crate::waiting::Waiting;
use edge_stream::{EdgeList, Saved, SavedEntry, save_edges};
use std::alloc::Global;
use std::collections::VecDeque;
use tw_rows::Memory;

// The first part of a stream. So many streams that there is none have no room in memory.
fn first_part(stream: usize) -> Result<u64, Memory>
    ensures part { IfOk result (λ part. part ≡ 3 * stream) }
    ensures small { IfOk result (λ part. part + 2 < 2 ^ 64) }
{
    if stream < 0x4000_0000_0000_0000 {
        Ok(3 * stream as u64)
    } else {
        Err(Memory)
    }
}

impl ByRank {
    /// Adds the edges, in order, as entries of that part.
    pub(crate) fn save(&self, saved: &mut Saved, part: u64) -> Result<(), Memory>
        ensures { OnOk result (saved.new ≡ saved.old ++ entries_of part self.now) }
    {
        for (_, edges) in self.ranks.iter() {
            save_edges(saved, part, edges)?;
        }
        Ok(())
    }
}

// Adds the edges of a list as entries of that part.
fn save_queue(saved: &mut Saved, part: u64, queue: &EdgeList) -> Result<(), Memory>
    ensures { OnOk result (saved.new ≡ saved.old ++ entries_of part queue.now.edges) }
{
    let mut cursor = queue.cursor();
    'edges: while let Some(edge) = cursor.next()? {
        saved.push(SavedEntry {
            part,
            sync: edge.sync,
            other: edge.other,
            cells: edge.cells,
        })?;
    }
    Ok(())
}

impl Waiting {
    /// Adds the edges as entries of that part.
    pub(crate) fn save(&self, saved: &mut Saved, part: u64) -> Result<(), Memory>
        ensures { OnOk result (saved.new ≡ saved.old ++ entries_of part self.now) }
    {
        save_queue(saved, part, &self.queue)?;
        self.others.save(saved, part)
    }
}

// What an open start is of its stream.
fn role(start: &OpenStart) -> u64
    ensures { result ≡ cond start.now.dropped 2 1 }
{
    if start.dropped { 2 } else { 1 }
}

// Adds an entry of an open start.
fn save_start(saved: &mut Saved, part: u64, key: &OpenKey, start: &OpenStart) -> Result<(), Memory>
    requires part { part ≡ 3 * key.now.stream }
    requires small { part + 2 < 2 ^ 64 }
    ensures { OnOk result (saved.new ≡ saved.old ++ entry_of_open
        (cell_open key.now start.now) ∷ []) }
{
    let cells = key.cells.clone()?;
    saved.push(SavedEntry {
        part: part + role(start),
        sync: start.start,
        other: key.given,
        cells,
    })?;
    Ok(())
}

// Adds an entry of each open start of a key.
fn save_starts(saved: &mut Saved, key: &OpenKey, starts: &VecDeque<OpenStart>) -> Result<(), Memory>
    ensures { OnOk result (saved.new ≡ saved.old ++ map entry_of_open
        (map (cell_open key.now) starts.now.items)) }
{
    let part = first_part(key.stream)?;
    for i in 0..starts.len() {
        save_start(saved, part, key, &starts[i])?;
    }
    Ok(())
}

impl OpenStarts {
    /// Adds an entry of each open start, those of one key in order.
    pub(crate) fn save(&self, saved: &mut Saved) -> Result<(), Memory>
        ensures entries { OnOk result (saved.new ≡ saved.old
            ++ map entry_of_open (opens_in self.now.starts.entries)) }
        ensures unique { OnOk result (IsUnique same_key self.now.starts) }
    {
        for (key, starts) in self.starts.iter() {
            save_starts(saved, key, starts)?;
        }
        Ok(())
    }
}

impl HeldStreams {
    // Adds the edges that wait, stream by stream.
    fn save_waiting(&self, saved: &mut Saved) -> Result<(), Memory>
        ensures { OnOk result (saved.new ≡ saved.old ++ waits_from 0 self.now.waiting.items) }
    {
        for stream in 0..self.waiting.len() {
            let part = first_part(stream)?;
            self.waiting[stream].save(saved, part)?;
        }
        Ok(())
    }

    /// Adds the edges that wait, stream by stream, and the open starts.
    pub(crate) fn save(&self, saved: &mut Saved) -> Result<(), Memory>
        ensures entries { OnOk result (saved.new ≡ saved.old
            ++ (waits_from 0 self.now.waiting.items ++ map entry_of_open
            (opens_in self.now.opens.starts.entries))) }
        ensures unique { OnOk result (IsUnique same_key self.now.opens.starts) }
    {
        self.save_waiting(saved)?;
        self.opens.save(saved)?;
        Ok(())
    }
}

impl Ingress {
    /// What is kept, as entries: the edges that wait and the open starts. Bounds, marks and the last punctuation are told by
    /// calls of their own. What is saved between two lines can be taken up again.
    pub fn save(&self) -> Result<Saved, Memory>
        ensures resumes { IfOk result (λ saved.
            (texts : List (List ℕ)) (a : Admission) (given : ℕ → List Edge) (bounds marks : ℕ → ℕ) →
            Admits texts a given self.now → IsTimed a → IsEnd self.now.released →
            AreMarksOf self.now a bounds marks → Resumes (cells_of self.now) saved bounds marks
            self.now.released texts a given) }
        ensures few { IfOk result (λ saved. WhateverFollowed self.now (λ texts a given.
            length saved ≤ may_hold (length self.now.kinds.items) self.now.released a)) }
    {
        let mut saved = Saved::with_capacity(self.alloc, self.held() as usize)?;
        self.held.save(&mut saved)?;
        Ok(saved)
    }
}

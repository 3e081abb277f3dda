// The rows of a Group that are alive: a row that came as an interval is kept once, with its end.
ghost use Rattle.std.specs.Prelude.{◌≡◌, ◌+◌, ◌^◌, ◌-◌, ◌≤◌, ◌∷◌, ◌++◌, ℕ, suc, min, true, false, [], List, map, length, IfOk, OnOk, IfSome, IfNone};
ghost use Rattle.tw_rows.specs.Bag.{SameBag, total};
ghost use Rattle.tw_rows.specs.Instant.{inf};
ghost use Rattle.tw_rows.specs.declared.edge.Edge.{Edge};
ghost use Rattle.tw_rows.specs.declared.edge.HeldRow.{HeldRow};
ghost use Rattle.edge_history.specs.Order.{many, failing, is_end, is_from};
ghost use Rattle.edge_history.specs.Opens.{is_held};
ghost use Rattle.edge_stream.specs.Entries.{entries_of};
ghost use Rattle.sweep_laws.specs.Saving.{starts_of};
ghost use Rattle.sweep_laws.specs.Sweeps.{IsPast, StartsAt, SyncsRise};
ghost use Rattle.sweep_sides.specs.Waiting.{queued, AreTimed};
ghost use Rattle.snapshot_agg.specs.Changing.{Gains, GainTogether, StayTogether, row_since};
ghost use Rattle.snapshot_agg.specs.KeptRows.{row_ended};

use crate::queue::{Queue, comes_last};
use crate::row_queue::RowQueue;
use crate::saving::{save_edge_line, save_lives};
use edge_stream::Saved;
use std::alloc::Global;
use std::collections::VecDeque;
use std::marker::Model;
use tw_rows::{Cells, Datum, Edge, Memory, Time};

// Rows that are alive, some of them with their ends.
#[derive(Drop)]
pub(crate) struct Lives {
    // Rows of which no end is kept here: it has not come, or is pending in a Queue.
    others: RowQueue,
    // The end edges of the other rows, in the order of their syncs. Each says all of its row: its cells, its start, its end.
    ends: VecDeque<Edge>,
}

impl Model for Lives {
    ghost use Rattle.std.specs.Prelude.{◌≡◌, ◌++◌, map};
    ghost use Rattle.edge_history.specs.Order.{failing, is_end};
    ghost use Rattle.sweep_laws.specs.Sweeps.{SyncsRise};
    ghost use Rattle.snapshot_agg.specs.KeptRows.{KeptRows, row_ended};

    ghost Value = { KeptRows };

    ghost view = { λ l. record {
      rows = record {
        held = l.others.rows ++ map row_ended l.ends.items;
        ends = l.ends.items;
      };
    } };

    ghost invariant = { λ l. SyncsRise 0 l.ends.items × (failing is_end l.ends.items ≡ 0) };
}

// Takes out the first end edge, if it comes at the time.
fn pop_at(ends: &mut VecDeque<Edge>, t: Time) -> Option<Edge>
    ensures some { IfSome result (λ e. (ends.old.items ≡ e ∷ ends.new.items) × (e.sync ≡ t)) }
    ensures none { IfNone result ((ends.new ≡ ends.old) × IsPast t ends.old.items) }
{
    match ends.front() {
        Some(end) => {
            if end.sync != t {
                return None;
            }
        }
        None => return None,
    }
    ends.pop_front()
}

// Moves the rows of the end edges to the others, and the end edges to the queue.
fn settle_all(
    ends: &mut VecDeque<Edge>,
    others: &mut RowQueue,
    waiting: &mut Queue,
) -> Result<(), Memory>
    ensures fine { SyncsRise 0 ends.old.items × (failing is_end ends.old.items ≡ 0) →
        SyncsRise 0 ends.new.items × (failing is_end ends.new.items ≡ 0) }
    ensures none { OnOk result (ends.new.items ≡ []) }
    ensures rows { OnOk result ((w : HeldRow → ℕ) →
        total w others.new.rows + total w (map row_ended ends.new.items)
        ≡ total w others.old.rows + total w (map row_ended ends.old.items)) }
    ensures pending { OnOk result (StayTogether ends.old.items (queued waiting.old)
        ends.new.items (queued waiting.new)) }
    ensures own { OnOk result (AreTimed waiting.old → AreTimed waiting.new) }
{
    while let Some(end) = ends.pop_front() {
        others.add(end.cells.clone()?, end.other)?;
        waiting.put(end)?;
    }
    Ok(())
}

impl Lives {
    // No rows. Those that are found by their cells are found by these key columns.
    pub(crate) fn new(alloc: Global, key: &[usize]) -> Result<Lives, Memory>
        ensures held { IfOk result (λ l. l.rows.held ≡ []) }
        ensures ends { IfOk result (λ l. l.rows.ends ≡ []) }
    {
        Ok(Lives {
            others: RowQueue::new(alloc, key)?,
            ends: VecDeque::new(alloc),
        })
    }

    // Puts in a row of which no end is known.
    pub(crate) fn add(&mut self, cells: Cells, start: Time) -> Result<(), Memory>
        ensures held { OnOk result (Gains self.old.rows.held self.new.rows.held
            (row_since cells start)) }
        ensures ends { self.new.rows.ends ≡ self.old.rows.ends }
    {
        self.others.add(cells, start)?;
        Ok(())
    }

    // Puts in a row with its end, which is pending here if it comes behind the others, and else in the queue.
    pub(crate) fn keep(&mut self, waiting: &mut Queue, end: Edge) -> Result<(), Memory>
        requires end { is_end end ≡ true }
        ensures held { OnOk result (Gains self.old.rows.held self.new.rows.held (row_ended end)) }
        ensures pending { OnOk result (GainTogether self.old.rows.ends (queued waiting.old)
            self.new.rows.ends (queued waiting.new) end) }
        ensures own { OnOk result (AreTimed waiting.old → AreTimed waiting.new) }
        ensures late { OnOk result ((t : ℕ) → t ≤ end.sync →
            failing (is_from t) (queued waiting.old) ≡ 0 →
            failing (is_from t) (queued waiting.new) ≡ 0) }
    {
        if comes_last(&self.ends, end.sync) {
            self.ends.push_back(end)?;
            return Ok(());
        }
        self.others.add(end.cells.clone()?, end.other)?;
        waiting.put(end)?;
        Ok(())
    }

    // Takes out the first row that is kept with its end, if that comes at the time, and answers its end edge.
    pub(crate) fn end_first(&mut self, t: Time) -> Option<Edge>
        ensures ends { IfSome result (λ e. self.old.rows.ends ≡ e ∷ self.new.rows.ends) }
        ensures held { IfSome result (λ e.
            Gains self.new.rows.held self.old.rows.held (row_ended e)) }
        ensures at { IfSome result (λ e. (e.sync ≡ t) × (is_end e ≡ true)) }
        ensures none { IfNone result (self.new ≡ self.old) }
        ensures late { IfNone result (failing (is_from t) self.old.rows.ends ≡ 0 →
            failing (is_from (suc t)) self.old.rows.ends ≡ 0) }
    {
        pop_at(&mut self.ends, t)
    }

    // When the first row ends of those that are kept with their ends, and infinity if there is none.
    pub(crate) fn next_end(&self) -> Time
        ensures from { failing (is_from result) self.now.rows.ends ≡ 0 }
        ensures there { (result ≡ inf → ⊥) → StartsAt result self.now.rows.ends }
    {
        match self.ends.front() {
            Some(end) => end.sync,
            None => Time::bounds().1,
        }
    }

    // Takes out a row with these cells that began then, if there is one, and answers whether there was. No row may be kept with
    // its end.
    pub(crate) fn take(&mut self, cells: &[Datum], start: Time) -> Result<bool, Memory>
        requires settled { self.old.rows.ends ≡ [] }
        ensures settled { self.new.rows.ends ≡ [] }
        ensures taken { IfOk result (λ taken. taken ≡ true →
            Gains self.new.rows.held self.old.rows.held (row_since cells.now start)) }
        ensures none { IfOk result (λ taken. taken ≡ false →
            many (is_held cells.now start) self.old.rows.held ≡ 0) }
        ensures same { IfOk result (λ taken. taken ≡ false →
            SameBag self.old.rows.held self.new.rows.held) }
    {
        self.others.take(cells, start)
    }

    // Moves the ends that are kept here to the queue: no row is then kept with its end.
    pub(crate) fn settle(&mut self, waiting: &mut Queue) -> Result<(), Memory>
        ensures settled { OnOk result (self.new.rows.ends ≡ []) }
        ensures held { OnOk result (SameBag self.old.rows.held self.new.rows.held) }
        ensures pending { OnOk result (StayTogether self.old.rows.ends (queued waiting.old)
            self.new.rows.ends (queued waiting.new)) }
        ensures own { OnOk result (AreTimed waiting.old → AreTimed waiting.new) }
    {
        settle_all(&mut self.ends, &mut self.others, waiting)
    }

    // How many rows there are.
    pub(crate) fn len(&self) -> u64
        ensures { result ≡ min (length self.now.rows.held) (2 ^ 64 - 1) }
    {
        let others = self.others.len() as u64;
        others.saturating_add(self.ends.len() as u64)
    }

    // How many ends are kept here.
    pub(crate) fn ends_len(&self) -> u64
        ensures { result ≡ length self.now.rows.ends }
    {
        self.ends.len() as u64
    }

    // Adds the rows as entries of that part, each as its start.
    pub(crate) fn save(&self, saved: &mut Saved, part: u64) -> Result<(), Memory>
        ensures { OnOk result (saved.new ≡ saved.old
            ++ entries_of part (starts_of self.now.rows.held)) }
    {
        self.others.save(saved, part)?;
        save_lives(saved, part, &self.ends)?;
        Ok(())
    }

    // Adds the end edges that are kept here as entries of that part.
    pub(crate) fn save_ends(&self, saved: &mut Saved, part: u64) -> Result<(), Memory>
        ensures { OnOk result (saved.new ≡ saved.old ++ entries_of part self.now.rows.ends) }
    {
        save_edge_line(saved, part, &self.ends)?;
        Ok(())
    }
}

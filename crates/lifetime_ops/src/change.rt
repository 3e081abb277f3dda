// The changes of events by a Delay, a Hop, a Duration and a Mean, and how they are made in a batch.
ghost use Rattle.std.specs.Prelude.{◌≡◌, ◌<◌, ◌≤◌, OnOk, IfOk, length, map, true};
ghost use Rattle.tw_rows.specs.Instant.{inf, floor_to};
ghost use Rattle.tw_rows.specs.declared.edge.Edge.{Edge};
ghost use Rattle.batch.specs.Rows.{edges_of, edge_of};
ghost use Rattle.plan_laws.specs.Answers.{new_start, new_other, is_answered, answered_below};
ghost use Rattle.lifetime_ops.specs.Nodes.{node_of};
ghost use Rattle.lifetime_ops.specs.Times.{new_row, retimed};

use batch::Batch;
use occupancy::Occupancy;
use plan_model::Key;
use std::alloc::Global;
use tw_rows::{Memory, Time};

/// A change of events one by one: of their lifetimes, as Trill's `ShiftEventLifetime`, `HoppingWindowLifetime` and
/// `AlterEventDuration` make it, or of their cells. Where a new lifetime would begin at infinity or be empty, the event is
/// dropped: that is our profile.
#[derive(Drop)]
pub enum Change {
    /// Start and end move to later times by so much.
    Delay { by: u64 },
    /// The lifetime starts at the greatest multiple of the period that is not above its start, and lasts for the size.
    Hop { size: u64, period: u64 },
    /// The lifetime lasts for so long, whatever its end was.
    Duration { by: u64 },
    /// The lifetime stays. The last column, a count, is left out, and the columns `at` become their Euclidean quotients by it.
    Mean { at: Key },
}

// The greatest multiple of the period that is not above the time. Infinity stays.
fn floor(time: Time, period: u64) -> Time
    ensures { result ≡ floor_to period time }
{
    match time.get() {
        Some(n) if period != 0 => Time::from_word(n - n % period),
        Some(_) => Time::ZERO,
        None => time,
    }
}

impl Change {
    // The start of the new lifetime.
    fn start(&self, sync: Time) -> Time
        ensures { result ≡ new_start (node_of self.now) sync }
    {
        match self {
            Change::Delay { by } => sync.plus(*by),
            Change::Hop { period, .. } => floor(sync, *period),
            Change::Duration { .. } | Change::Mean { .. } => sync,
        }
    }

    // The other time of the new edge.
    fn other(&self, sync: Time, other: Time) -> Time
        ensures { result ≡ new_other (node_of self.now) sync other }
    {
        match self {
            Change::Delay { by } => other.plus(*by),
            Change::Hop { size, period } => floor(sync, *period).plus(*size),
            Change::Duration { by } => sync.plus(*by),
            Change::Mean { .. } => other,
        }
    }

    // Whether an edge of these times is answered.
    fn answers(&self, sync: Time, other: Time) -> bool
        ensures { (e : Edge) → e.sync ≡ sync → e.other ≡ other →
            result ≡ is_answered (node_of self.now) e }
    {
        match self {
            Change::Delay { by } => sync.plus(*by) < Time::bounds().1,
            Change::Hop { size, period } => other >= sync
                && floor(sync, *period) < floor(sync, *period).plus(*size),
            Change::Duration { by } => other >= sync && sync < sync.plus(*by),
            Change::Mean { .. } => true,
        }
    }

    /// The time below which edges are answered, of what is known below `to`.
    pub(crate) fn answered_below(&self, to: Time) -> Time
        ensures { result ≡ answered_below (node_of self.now) to }
    {
        match self {
            Change::Hop { period, .. } => floor(to, *period),
            Change::Delay { .. } | Change::Duration { .. } | Change::Mean { .. } => to,
        }
    }

    // Which rows of the batch are answered.
    fn mask(&self, alloc: Global, batch: &Batch) -> Result<Occupancy, Memory>
        ensures { IfOk result (λ mask. mask.items ≡ map
            (λ r. is_answered (node_of self.now) (edge_of r)) batch.now.rows) }
    {
        let mut mask = Occupancy::new(alloc, batch.rows())?;
        for i in 0..batch.rows() {
            mask.push(self.answers(batch.sync_at(i), batch.other_at(i)));
        }
        Ok(mask)
    }

    // Changes the times of all rows, occupied or not.
    fn set_times(&self, batch: &mut Batch)
        ensures { batch.new ≡ record batch.old { rows = map (new_row self.now) batch.old.rows } }
    {
        for i in 0..batch.rows() {
            let sync = batch.sync_at(i);
            let other = batch.other_at(i);
            batch.set_times(i, self.start(sync), self.other(sync, other));
        }
    }

    /// Leaves the edges of the batch that are answered, with their new times. Out of memory, the batch stays as it was.
    pub(crate) fn apply(&self, alloc: Global, batch: &mut Batch) -> Result<(), Memory>
        ensures edges { OnOk result (edges_of batch.new.rows
            ≡ retimed (node_of self.now) (edges_of batch.old.rows)) }
        ensures kinds { batch.new.kinds ≡ batch.old.kinds }
        ensures capacity { batch.new.capacity ≡ batch.old.capacity }
    {
        let mask = self.mask(alloc, batch)?;
        batch.keep(&mask);
        self.set_times(batch);
        Ok(())
    }
}

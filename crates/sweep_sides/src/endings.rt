// The ends of intervals whose starts are due, in the order of their times.
ghost use Rattle.std.specs.Prelude.{◌≡◌, ◌≤◌, ◌<◌, length, drop, [], ◌∷◌, IfSome, IfNone, IfOk, OnOk};
ghost use Rattle.std.specs.List.Sorted.{IsPermutation};
ghost use Rattle.sweep_sides.specs.Ends.{falls_at, is_near_end};

use std::alloc::Global;
use std::marker::Model;
use tw_rows::{Memory, Time};

/// The end of a lifetime whose start is due: the start stands at that place of the due edges, and has its cells.
#[derive(Clone, Copy)]
pub(crate) struct Ending {
    pub(crate) sync: Time,
    pub(crate) start: usize,
}

/// Ends in the order of their times. Contracts see those that are still to come.
#[derive(Drop)]
pub(crate) struct Endings {
    list: Vec<Ending>,
    // How many of the list came.
    came: usize,
}

impl Model for Endings {
    ghost use Rattle.std.specs.Prelude.{◌≤◌, List, drop, length};
    ghost use Rattle.sweep_sides.specs.declared.endings.Ending.{Ending};

    ghost Value = { List Ending };

    ghost view = { λ e. drop e.came e.list.items };

    ghost invariant = { λ e. e.came ≤ length e.list.items };
}

// How many ends may come after a new one.
const NEAR: usize = 16;

// Whether the end comes before the one in front of it.
fn falls(ends: &[Ending], at: usize) -> bool
    requires after_first { 1 ≤ at }
    requires within { at < length ends.now }
    ensures { result ≡ falls_at ends.now at }
{
    ends[at].sync < ends[at - 1].sync
}

// Moves the last end before those that come after its time.
fn sift(ends: &mut [Ending])
    ensures { IsPermutation ends.old ends.new }
{
    let mut left = ends.len();
    while left > 1 && falls(ends, left - 1) {
        ends.swap(left - 1, left - 2);
        left -= 1;
    }
}

// The same from a place on.
fn sift_from(ends: &mut [Ending], from: usize)
    requires { from ≤ length ends.old }
    ensures { IsPermutation (drop from ends.old) (drop from ends.new) }
{
    sift(&mut ends[from..]);
}

impl Endings {
    /// No end comes. Room for so many is made at once.
    pub(crate) fn new(alloc: Global, room: usize) -> Result<Endings, Memory>
        ensures { IfOk result (λ ends. ends ≡ []) }
    {
        Ok(Endings {
            list: Vec::with_capacity(alloc, room)?,
            came: 0,
        })
    }

    /// Whether the place of a new end is near the last ones, if they come in order.
    pub(crate) fn is_near(&self, sync: Time) -> bool
        ensures { result ≡ is_near_end sync self.now }
    {
        let len = self.list.len();
        len - self.came < NEAR || self.list[len - NEAR].sync <= sync
    }

    /// Puts an end behind those that come at its time or before it.
    pub(crate) fn put(&mut self, end: Ending) -> Result<(), Memory>
        ensures { OnOk result (IsPermutation (end ∷ self.old) self.new) }
    {
        self.list.push(end)?;
        sift_from(&mut self.list, self.came);
        Ok(())
    }

    /// Takes out the first end.
    pub(crate) fn pop(&mut self) -> Option<Ending>
        ensures some { IfSome result (λ end. self.old ≡ end ∷ self.new) }
        ensures none { IfNone result ((self.old ≡ []) × (self.new ≡ [])) }
    {
        let end = *self.list.get(self.came)?;
        self.came += 1;
        Some(end)
    }

    /// Takes out the first end, if it comes at the time or before it.
    pub(crate) fn pop_until(&mut self, t: Time) -> Option<Ending>
        ensures some { IfSome result (λ end. self.old ≡ end ∷ self.new) }
        ensures none { IfNone result (self.new ≡ self.old) }
    {
        if t < self.list.get(self.came)?.sync {
            return None;
        }
        self.pop()
    }
}

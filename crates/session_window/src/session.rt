// A Session: the `Swept` of its side, and one that keeps nothing yet.
ghost use Rattle.std.specs.Prelude.{◌≡◌, ◌≤◌, length, [], IfOk};
ghost use Rattle.plan_model.specs.declared.node.Node.TheVariants.{Session as SessionNode};
ghost use Rattle.sweep_sides.specs.Operating.{standing, IsNew};
ghost use Rattle.sweep_sides.specs.Sweepers.{new_standing};

use crate::open_rows::OpenRows;
use crate::sessions::Sessions;
use crate::side::SessionSide;
use end_queue::EndQueue;
use std::alloc::Global;
use sweep_sides::Swept;
use tw_rows::{Kind, Memory};

/// A Session: the rows of its child, each from its start to the end of the session of its key. What is kept is the rows of
/// the sessions that go on just before the time up to which its side is closed, and the starts from then on.
pub type Session = Swept<SessionSide>;

// No sessions and no starts, with this timeout and these key columns.
pub(crate) fn no_side(alloc: Global, timeout: u64, key: &[usize]) -> Result<SessionSide, Memory>
    ensures key { IfOk result (λ s. s.sessions.rows.key ≡ key.now) }
    ensures timeout { IfOk result (λ s. s.sessions.timeout ≡ timeout) }
    ensures rows { IfOk result (λ s. s.sessions.rows.rows ≡ []) }
    ensures ends { IfOk result (λ s. s.sessions.ends ≡ []) }
    ensures waiting { IfOk result (λ s. s.waiting ≡ []) }
{
    Ok(SessionSide {
        sessions: Sessions {
            alloc,
            timeout,
            rows: OpenRows::new(alloc, key)?,
            ends: EndQueue::new(alloc),
        },
        waiting: EndQueue::new(alloc),
    })
}

/// A Session of nothing yet, with this timeout and these key columns, of rows with columns of these kinds, in batches of that
/// capacity.
pub fn new_session(
    alloc: Global,
    timeout: u64,
    key: &[usize],
    kinds: &[Kind],
    capacity: usize,
) -> Result<Session, Memory>
    requires timeout { 1 ≤ timeout }
    requires width { length kinds.now ≤ 32 }
    requires room { 1 ≤ capacity }
    ensures stands { IfOk result (λ s. standing s
        ≡ new_standing (SessionNode 0 timeout key.now) kinds.now [] kinds.now capacity) }
    ensures opening { IfOk result IsNew }
{
    let side = no_side(alloc, timeout, key)?;
    Swept::new(alloc, side, kinds, &[], kinds, capacity)
}

// What a Follow keeps of its sides, and how it takes new edges in.
ghost use Rattle.std.specs.Prelude.{◌≡◌, ◌≤◌, ◌++◌, ◌↔◌, IsTrue, [], ℕ, All, map, List, OnOk, OnErr, IfOk};
ghost use Rattle.tw_rows.specs.Bag.{SameBag};
ghost use Rattle.tw_rows.specs.Cells.{datum_kind};
ghost use Rattle.tw_rows.specs.Kinds.{cell_kind_of};
ghost use Rattle.tw_rows.specs.Instant.{inf};
ghost use Rattle.tw_rows.specs.declared.edge.Edge.{Edge};
ghost use Rattle.tw_rows.specs.declared.kind.CellKind.{CellKind};
ghost use Rattle.edge_history.specs.Order.{failing, is_from, IsHistory};
ghost use Rattle.edge_history.specs.History.{of};
ghost use Rattle.edge_stream.specs.Listing.{cells_of};
ghost use Rattle.edge_stream.specs.Entries.{part_of};
ghost use Rattle.sweep_sides.specs.Waiting.{queued};
ghost use Rattle.sweep_laws.specs.Saving.{rows_of};
ghost use Rattle.follow_op.specs.Followed.{follows};
ghost use Rattle.follow_op.specs.Waits.{StartsRise};
ghost use Rattle.follow_op.specs.Intervals.{TellsAhead};
ghost use Rattle.follow_op.specs.Keys.{SameKeys};
ghost use Rattle.follow_op.specs.States.{FollowSound};

use crate::rows::FollowRows;
use edge_stream::{EdgeList, Saved, are_of_parts, edges_of_part};
use end_queue::EndQueue;
use std::alloc::Global;
use std::collections::VecDeque;
use sweep_sides::{are_rows, are_starts, can_wait, load_rows, load_waiting, put_starts, take_due};
use synopsis::HeldRow;
use tw_rows::{Edge, Kind, Memory, Time};

/// The left rows that wait for a right row, and the pending starts of both sides.
pub(crate) struct FollowSides {
    pub(crate) rows: FollowRows,
    pub(crate) left_waiting: EndQueue,
    pub(crate) right_waiting: EndQueue,
}

// By hand, so that its users cite this and not the destructors of its parts.
impl Drop for FollowSides {
    fn drop(self) {
        let FollowSides {
            rows: _rows,
            left_waiting: _left_waiting,
            right_waiting: _right_waiting,
        } = self;
    }
}

fn sync_of(edge: &Edge) -> u64
    ensures { result ≡ edge.now.sync }
{
    edge.sync.word()
}

// The rows that the edges start.
fn held_rows(alloc: Global, edges: &[Edge]) -> Result<VecDeque<HeldRow>, Memory>
    ensures { IfOk result (λ queue. queue.items ≡ rows_of edges.now) }
{
    let mut rows = VecDeque::new(alloc);
    for edge in edges {
        rows.push_back(HeldRow {
            cells: edge.cells.clone()?,
            start: edge.sync,
        })?;
    }
    Ok(rows)
}

// The rows of a part, in the order of their starts.
fn load_queue(alloc: Global, saved: &Saved, part: u64) -> Result<VecDeque<HeldRow>, Memory>
    ensures rows { IfOk result (λ queue. SameBag queue.items (rows_of (part_of part saved.now))) }
    ensures order { IfOk result (λ queue. StartsRise 0 queue.items) }
{
    let mut edges = edges_of_part(alloc, saved, part)?;
    edges.sort_by_key(|edge| sync_of(edge))?;
    let queue = held_rows(alloc, edges.as_slice())?;
    Ok(queue)
}

impl FollowSides {
    ghost use Rattle.follow_op.specs.States.{SidesKeep, AreSides};

    /// Takes the starts of both sides in, and answers the interval edges of the events that start before a time.
    pub(crate) fn advance(
        &mut self,
        left: &EdgeList,
        right: &EdgeList,
        to: Time,
    ) -> Result<Vec<Edge>, Memory>
        requires { to ≤ inf }
        ensures kept { IfOk result (λ answer. (from : ℕ) (hl hr : List Edge) → from ≤ to →
            1 ≤ self.old.rows.within → SidesKeep self.old from hl hr →
            IsHistory (hl ++ left.now.edges) → IsHistory (hr ++ right.now.edges) →
            failing (is_from from) left.now.edges ≡ 0 → failing (is_from from) right.now.edges ≡ 0 →
            SidesKeep self.new to (hl ++ left.now.edges) (hr ++ right.now.edges)
            × TellsAhead (follows self.old.rows.left.key self.old.rows.right_key.columns
            self.old.rows.within (of (hl ++ left.now.edges)) (of (hr ++ right.now.edges))) from to
            [] answer.items) }
        ensures sides { OnOk result ((from : ℕ) → from ≤ to →
            AreSides (cells_of left.now) (cells_of right.now) from self.old →
            AreSides (cells_of left.now) (cells_of right.now) to self.new) }
        ensures left_cells { OnOk result (All (λ e.
            map datum_kind e.cells ≡ cells_of left.now) left.now.edges) }
        ensures right_cells { OnOk result (All (λ e.
            map datum_kind e.cells ≡ cells_of right.now) right.now.edges) }
        ensures keys { SameKeys self.old.rows self.new.rows }
    {
        put_starts(&mut self.left_waiting, left)?;
        put_starts(&mut self.right_waiting, right)?;
        let left_due = take_due(&mut self.left_waiting, self.rows.alloc, to)?;
        let right_due = take_due(&mut self.right_waiting, self.rows.alloc, to)?;
        let mut answer = Vec::new(self.rows.alloc);
        self.rows
            .sweep(&mut answer, left_due.as_slice(), right_due.as_slice(), to)?;
        Ok(answer)
    }

    /// Takes up the rows, by these key columns, and the starts that were saved. Out of memory nothing changes.
    pub(crate) fn take_up(&mut self, saved: &Saved, left_key: &[usize]) -> Result<(), Memory>
        ensures rows { OnOk result (SameBag self.new.rows.left.rows
            (rows_of (part_of 0 saved.now))) }
        ensures queue { OnOk result (SameBag self.new.rows.queue.items
            (rows_of (part_of 0 saved.now))) }
        ensures order { OnOk result (StartsRise 0 self.new.rows.queue.items) }
        ensures left_waiting { OnOk result (SameBag (queued self.new.left_waiting)
            (part_of 1 saved.now)) }
        ensures right_waiting { OnOk result (SameBag (queued self.new.right_waiting)
            (part_of 2 saved.now)) }
        ensures sides { OnOk result ((left_kinds right_kinds : List CellKind) (to : ℕ) →
            FollowSound left_kinds right_kinds to saved.now →
            AreSides left_kinds right_kinds to self.new) }
        ensures err { OnErr result (self.new ≡ self.old) }
        ensures left_key { OnOk result (self.new.rows.left.key ≡ left_key.now) }
        ensures right_key { self.new.rows.right_key ≡ self.old.rows.right_key }
        ensures within { self.new.rows.within ≡ self.old.rows.within }
    {
        let alloc = self.rows.alloc;
        let left = load_rows(alloc, saved, 0, left_key)?;
        let queue = load_queue(alloc, saved, 0)?;
        let left_waiting = load_waiting(alloc, saved, 1)?;
        let right_waiting = load_waiting(alloc, saved, 2)?;
        self.rows.left = left;
        self.rows.queue = queue;
        self.left_waiting = left_waiting;
        self.right_waiting = right_waiting;
        Ok(())
    }
}

/// Whether saved entries can be the state of a Follow whose sides are closed up to a time, with columns of these kinds.
pub(crate) fn is_sound(saved: &Saved, left_kinds: &[Kind], right_kinds: &[Kind], to: Time) -> bool
    ensures { IsTrue result ↔ FollowSound (map cell_kind_of left_kinds.now)
        (map cell_kind_of right_kinds.now) to saved.now }
{
    if !are_of_parts(saved, 3) {
        return false;
    }
    if !are_rows(saved, 0, left_kinds, to) {
        return false;
    }
    if !can_wait(saved, 1, left_kinds, to) {
        return false;
    }
    if !are_starts(saved, 1) {
        return false;
    }
    if !can_wait(saved, 2, right_kinds, to) {
        return false;
    }
    are_starts(saved, 2)
}

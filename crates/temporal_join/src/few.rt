// A sweep over both sides of a Join while few of their rows are alive.
ghost use Rattle.std.specs.Prelude.{◌≡◌, ◌+◌, ◌<◌, ◌≤◌, ◌++◌, ◌∷◌, ℕ, suc, max, true, Bool, List, All, map, length, OnOk, IfOk};
ghost use Rattle.tw_rows.specs.Cells.{datum_kind};
ghost use Rattle.tw_rows.specs.Instant.{inf};
ghost use Rattle.tw_rows.specs.declared.edge.Edge.{Edge};
ghost use Rattle.edge_history.specs.Order.{failing};
ghost use Rattle.sweep_laws.specs.Sweeps.{SyncsRise, IsPast};
ghost use Rattle.temporal_join.specs.Lives.{is_begun};

use crate::lives::{Lives, lesser};
use crate::pairs::Pairing;
use edge_stream::Cursor;
use std::alloc::Global;
use tw_rows::{Edge, Memory, Time};

/// The rows of both sides that are alive, while they are few, each with its end.
#[derive(Drop)]
pub(crate) struct JoinLives {
    pub(crate) alloc: Global,
    pub(crate) left_key: Vec<usize>,
    pub(crate) right_key: Vec<usize>,
    pub(crate) left: Lives,
    pub(crate) right: Lives,
}

// So many rows of a side are kept in a list, and more of them by their keys.
const FEW: usize = 64;

fn later(a: Time, b: Time) -> Time
    ensures { result ≡ max a b }
{
    if a < b { b } else { a }
}

impl JoinLives {
    ghost use Rattle.temporal_join.specs.Few.{InstantPassed, SameLiveKeys, Went, SideFrom, NoneEnds, sync_ahead, first_at, first_passes};

    // Goes on past one instant: first the rows that end, and then those that start, whose cells move out of their edges.
    fn pass(
        &mut self,
        answer: &mut Vec<Edge>,
        t: Time,
        now_left: &mut [Edge],
        now_right: &mut [Edge],
    ) -> Result<(), Memory>
        requires left { failing (is_begun t) now_left.old ≡ 0 }
        requires right { failing (is_begun t) now_right.old ≡ 0 }
        ensures passed { OnOk result (t < inf → InstantPassed self.old self.new t now_left.old
            now_right.old answer.old.items answer.new.items) }
        ensures left_gone { OnOk result (NoneEnds t self.new.left.lives) }
        ensures right_gone { OnOk result (NoneEnds t self.new.right.lives) }
        ensures keys { SameLiveKeys self.old self.new }
    {
        let left = Pairing {
            alloc: self.alloc,
            left_key: self.left_key.as_slice(),
            right_key: self.right_key.as_slice(),
            right: false,
            at: t,
        };
        let right = Pairing {
            alloc: self.alloc,
            left_key: self.left_key.as_slice(),
            right_key: self.right_key.as_slice(),
            right: true,
            at: t,
        };
        left.end_lives(&mut self.left, &self.right, answer)?;
        right.end_lives(&mut self.right, &self.left, answer)?;
        left.start_lives(&mut self.left, &self.right, answer, now_left)?;
        right.start_lives(&mut self.right, &self.left, answer, now_right)?;
        Ok(())
    }

    // The sync of the next edge, and infinity where there is none.
    fn next_sync(cursor: &Cursor) -> Time
        ensures { result ≡ sync_ahead cursor.now.edges }
    {
        match cursor.times() {
            Some(times) => times.0,
            None => Time::bounds().1,
        }
    }

    /// A time before which no row ends and no edge comes.
    pub(crate) fn next_instant(&self, left: &Cursor, right: &Cursor) -> Time
        ensures left { SyncsRise 0 left.now.edges →
            SideFrom result self.now.left.lives left.now.edges }
        ensures right { SyncsRise 0 right.now.edges →
            SideFrom result self.now.right.lives right.now.edges }
    {
        let starts = lesser(JoinLives::next_sync(left), JoinLives::next_sync(right));
        let ends = lesser(self.left.next(), self.right.next());
        lesser(starts, ends)
    }

    fn is_next_at(cursor: &Cursor, t: Time) -> bool
        ensures { result ≡ first_at t cursor.now.edges }
    {
        match cursor.times() {
            Some(times) => times.0 == t,
            None => false,
        }
    }

    fn is_next_begun(cursor: &Cursor, t: Time) -> bool
        ensures { result ≡ first_passes (is_begun t) cursor.now.edges }
    {
        match cursor.times() {
            Some(times) => times.0 == t && t < times.1,
            None => true,
        }
    }

    // Takes the next edge out of the cursor, and puts it last.
    fn pull_one(cursor: &mut Cursor, now: &mut Vec<Edge>) -> Result<(), Memory>
        ensures edges { OnOk result (now.new.items ++ cursor.new.edges
            ≡ now.old.items ++ cursor.old.edges) }
        ensures passes { OnOk result ((p : Edge → Bool) → first_passes p cursor.old.edges ≡ true →
            failing p now.old.items ≡ 0 → failing p now.new.items ≡ 0) }
        ensures rest { OnOk result ((e : Edge) (rest : List Edge) → cursor.old.edges ≡ e ∷ rest →
            cursor.new.edges ≡ rest) }
        ensures cells { OnOk result (
            All (λ e. map datum_kind e.cells ≡ cursor.old.kinds) cursor.new.edges →
            All (λ e. map datum_kind e.cells ≡ cursor.old.kinds) cursor.old.edges) }
        ensures kinds { cursor.new.kinds ≡ cursor.old.kinds }
    {
        if let Some(edge) = cursor.next()? {
            now.push(edge)?;
        }
        Ok(())
    }

    // Takes the edges of the instant out of the cursor and puts them last. It stops before one that starts no row, and where
    // so many stand there, and tells whether it did not.
    fn pull(cursor: &mut Cursor, now: &mut Vec<Edge>, t: Time, room: usize) -> Result<bool, Memory>
        ensures edges { OnOk result (now.new.items ++ cursor.new.edges
            ≡ now.old.items ++ cursor.old.edges) }
        ensures begun { OnOk result (failing (is_begun t) now.old.items ≡ 0 →
            failing (is_begun t) now.new.items ≡ 0) }
        ensures past { IfOk result (λ whole. whole ≡ true → IsPast t cursor.new.edges) }
        ensures cells { OnOk result (
            All (λ e. map datum_kind e.cells ≡ cursor.old.kinds) cursor.new.edges →
            All (λ e. map datum_kind e.cells ≡ cursor.old.kinds) cursor.old.edges) }
        ensures kinds { cursor.new.kinds ≡ cursor.old.kinds }
    {
        'edges: while JoinLives::is_next_at(cursor, t) {
            if !JoinLives::is_next_begun(cursor, t) || now.len() >= room {
                return Ok(false);
            }
            JoinLives::pull_one(cursor, now)?;
        }
        Ok(true)
    }

    // How many rows more may start at an instant.
    fn room(lives: &Lives) -> usize {
        FEW.saturating_sub(lives.lives().len())
    }

    /// Goes from instant to instant, from the first on and before another time. It stops before an instant with an edge that starts no
    /// row, or where too many start, and tells whether it did not: the edges that it took out then stand in the lists.
    pub(crate) fn sweep(
        &mut self,
        answer: &mut Vec<Edge>,
        left: &mut Cursor,
        right: &mut Cursor,
        now_left: &mut Vec<Edge>,
        now_right: &mut Vec<Edge>,
        first: Time,
        to: Time,
    ) -> Result<bool, Memory>
        ensures went { IfOk result (λ whole. (from : ℕ) → from ≤ first →
            SyncsRise 0 left.old.edges → SyncsRise 0 right.old.edges →
            SideFrom first self.old.left.lives left.old.edges →
            SideFrom first self.old.right.lives right.old.edges →
            Went self.old self.new from to whole left.old.edges
            (now_left.new.items ++ left.new.edges) right.old.edges
            (now_right.new.items ++ right.new.edges) answer.old.items answer.new.items) }
        ensures left_cells { OnOk result (
            All (λ e. map datum_kind e.cells ≡ left.old.kinds) left.new.edges →
            All (λ e. map datum_kind e.cells ≡ left.old.kinds) left.old.edges) }
        ensures right_cells { OnOk result (
            All (λ e. map datum_kind e.cells ≡ right.old.kinds) right.new.edges →
            All (λ e. map datum_kind e.cells ≡ right.old.kinds) right.old.edges) }
        ensures left_kinds { OnOk result (left.new.kinds ≡ left.old.kinds) }
        ensures right_kinds { OnOk result (right.new.kinds ≡ right.old.kinds) }
        ensures keys { OnOk result (SameLiveKeys self.old self.new) }
    {
        now_left.clear();
        now_right.clear();
        // Its call tells the proof that it is no later than infinity.
        let _ = to.word();
        let mut t = first;
        'instants: while t < to {
            let left_whole = JoinLives::pull(left, now_left, t, JoinLives::room(&self.left))?;
            let right_whole = JoinLives::pull(right, now_right, t, JoinLives::room(&self.right))?;
            if !left_whole || !right_whole {
                return Ok(false);
            }
            self.pass(answer, t, now_left, now_right)?;
            now_left.clear();
            now_right.clear();
            t = later(self.next_instant(left, right), t.plus(1));
        }
        Ok(true)
    }
}

// The `impl Sweep` of a Session: how its side takes new edges in, and its state saved and loaded.
ghost use Rattle.std.specs.Prelude.{◌≡◌};

use crate::saving::{is_sound, load_side, save_open};
use crate::sessions::Sessions;
use edge_stream::{EdgeList, LoadFault, PartRow, Saved};
use end_queue::EndQueue;
use sweep_sides::{Sweep, put_starts, save_waiting, take_due};
use tw_rows::{Edge, Kind, Memory, Time};

/// The sessions that go on, and the pending starts.
pub struct SessionSide {
    pub(crate) sessions: Sessions,
    pub(crate) waiting: EndQueue,
}

// By hand, so that its users cite this and not the destructors of its parts.
impl Drop for SessionSide {
    fn drop(self) {
        let SessionSide {
            sessions: _sessions,
            waiting: _waiting,
        } = self;
    }
}

impl Sweep for SessionSide {
    ghost use Rattle.session_window.specs.Sides.{SideKeeps, SideFits, IsEmpty};
    ghost use Rattle.session_window.specs.Operating.{session_node, session_entries, session_row, Resumes};
    ghost use Rattle.session_window.specs.States.{SessionSound};

    ghost node = { session_node };

    ghost keeps = { λ s to hl hr out. SideKeeps s to hl out };

    ghost fits = { λ l r to s. SideFits l to s };

    ghost is_empty = { IsEmpty };

    ghost entries = { session_entries };

    ghost sound = { λ s l r to saved. SessionSound l to saved };

    ghost stored = { λ s l r to saved. SessionSound l to saved };

    ghost resumes = { λ s saved to hl hr out. Resumes s saved to hl out };

    ghost row_of_part = { session_row };

    fn closes(&self, left_to: Time, _right_to: Time) -> Time {
        left_to
    }

    fn advance(
        &mut self,
        left: &EdgeList,
        _right: &EdgeList,
        from: Time,
        to: Time,
    ) -> Result<Vec<Edge>, Memory> {
        put_starts(&mut self.waiting, left)?;
        let due = take_due(&mut self.waiting, self.sessions.alloc, to)?;
        let mut answer = Vec::new(self.sessions.alloc);
        self.sessions.sweep(&mut answer, due.as_slice(), from, to)?;
        Ok(answer)
    }

    fn held(&self) -> u64 {
        let rows = self.sessions.rows.len() as u64;
        let ends = self.sessions.ends.len() as u64;
        let waiting = self.waiting.len() as u64;
        rows.saturating_add(ends).saturating_add(waiting)
    }

    fn save(&self) -> Result<Saved, Memory> {
        let alloc = self.sessions.alloc;
        let mut saved = Saved::new(alloc);
        save_open(&mut saved, 0, &self.sessions.rows)?;
        save_waiting(alloc, &mut saved, 1, &self.waiting)?;
        Ok(saved)
    }

    fn load(
        &mut self,
        saved: &Saved,
        left_kinds: &[Kind],
        _right_kinds: &[Kind],
        to: Time,
    ) -> Result<(), LoadFault> {
        // Its call tells the proof that it is a time.
        let _ = to.word();
        if !is_sound(saved, left_kinds, to) {
            return Err(LoadFault::NotState);
        }
        let side = load_side(
            self.sessions.alloc,
            self.sessions.timeout,
            self.sessions.rows.columns(),
            saved,
            to,
        )?;
        *self = side;
        Ok(())
    }

    fn part_row(part: u64) -> Option<PartRow> {
        if part < 2 { Some(PartRow::Left) } else { None }
    }

    fn laws() {}
}

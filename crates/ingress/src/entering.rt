// Event lines in cells, and what each of them changes of the edges that are held and of the open starts.
ghost use Rattle.std.specs.Prelude.{◌≡◌, ◌<◌, None, length, IfOk, OnErr};
ghost use Rattle.tw_rows.specs.Rows.{Row};
ghost use Rattle.key_nodes.specs.Joins.{with_life};
ghost use Rattle.admission.specs.Answers.{became as became_of};
ghost use Rattle.ingress.specs.Keeping.{kept_state};
ghost use Rattle.ingress.specs.Changes.{SameHeld, Enters, StaysFit, NamesStart};
ghost use Rattle.ingress.specs.Ranks.{SamePools};

use crate::held_streams::{HeldStreams, infinity, is_before};
use crate::opens::OpenStart;
use admission::Admitted;
use batch::Pools;
use row_reader::Form;
use tw_rows::{Datum, Memory, Time};

/// An event line without its row: the times that it says, when it takes effect, and whether it is dropped.
#[derive(Clone, Copy)]
pub struct EventLine {
    pub stream: usize,
    pub form: Form,
    pub sync: Time,
    pub other: Time,
    pub at: Time,
    pub dropped: bool,
}

// What becomes of a row of the lifetime from `start` to `end`.
fn became(dropped: bool, start: Time, end: Time) -> Admitted
    ensures { (row : Row) → result ≡ became_of dropped (with_life row start end) }
{
    if dropped {
        Admitted::Dropped
    } else if is_before(start, end) {
        Admitted::Kept
    } else {
        Admitted::Emptied
    }
}

// The open start of a start line. One that is dropped keeps the start that was given.
fn open_state(line: &EventLine) -> OpenStart
    ensures { result ≡ kept_state line.now.sync
        (record { start = line.now.at; dropped = line.now.dropped }) }
{
    OpenStart {
        start: if line.dropped { line.sync } else { line.at },
        dropped: line.dropped,
    }
}

impl HeldStreams {
    /// What a line that takes effect at the bound of its stream or later gives is held. None where it ends an event that did
    /// not start: nothing changes then.
    pub fn enter(
        &mut self,
        pools: &mut Pools,
        line: &EventLine,
        cells: &[Datum],
    ) -> Result<Option<Admitted>, Memory>
        requires { line.now.stream < length self.old.waiting.items }
        ensures ok { IfOk result (Enters line.now.form line.now cells.now self.old self.new) }
        ensures none { IfOk result (λ answer. answer ≡ None → self.new ≡ self.old) }
        ensures err { OnErr result (SameHeld self.old self.new) }
        ensures named { OnErr result (NamesStart line.now.form line.now cells.now self.old) }
        ensures len { length self.new.waiting.items ≡ length self.old.waiting.items }
        ensures fit { StaysFit line.now.stream cells.now self.old self.new }
        ensures pools { SamePools pools.old pools.new }
    {
        match line.form {
            Form::Interval if line.dropped => Ok(Some(Admitted::Dropped)),
            Form::Interval => {
                self.add_row(pools, line.stream, cells, line.at, line.other)?;
                Ok(Some(became(false, line.at, line.other)))
            }
            Form::Start => {
                let key = self.opens.key(line.stream, line.sync, cells)?;
                self.open_start(pools, key, open_state(line))?;
                Ok(Some(became(line.dropped, line.at, infinity())))
            }
            Form::End => {
                let key = self.opens.key(line.stream, line.other, cells)?;
                let Some(state) = self.end_start(pools, &key, line.at)? else {
                    return Ok(None);
                };
                Ok(Some(became(state.dropped, state.start, line.at)))
            }
        }
    }
}

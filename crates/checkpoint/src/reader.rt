// A reader of checkpoints.
ghost use Rattle.std.specs.Prelude.{◌≡◌, ◌≢◌, ◌++◌, ◌∷◌, [], IfOk, IfErr, OnErr};
ghost use Rattle.checkpoint.specs.Text.{BeginsText, IsUnfinished};
ghost use Rattle.checkpoint.specs.Taking.{lines_taken, HasTaken};

use crate::form::Form;
use crate::reading::{Reading, ReadingStage, TakeFault};
use frozen_state::Frozen;
use std::alloc::Global;
use std::marker::Model;
use std::mem;
use tw_rows::{Memory, Time};

/// A reader of a checkpoint of one form. `lines_taken` are the lines that it took.
pub struct Reader {
    reading: Reading,
}

// By hand, so that its users cite this and not the destructors of its parts.
impl Drop for Reader {
    fn drop(self) {
        let Reader { reading: _reading } = self;
    }
}

impl Model for Reader {
    ghost use Rattle.std.specs.Coded.{codes};
    ghost use Rattle.checkpoint.specs.Taking.{ReaderView, CanTake};

    ghost Value = { ReaderView };

    ghost view = { λ r. record { form = r.reading.form; stage = r.reading.stage; frozen = r.reading.frozen } };

    ghost invariant = { λ r. CanTake r.reading.form r.reading.frozen r.reading.stage };
}

/// What a reader gave for a line.
#[derive(Drop)]
pub enum Taken {
    /// The checkpoint goes on.
    More,
    /// The line was the last one, and this is what was frozen.
    Whole(Frozen),
}

// What has nothing.
fn nothing(alloc: Global) -> Frozen {
    Frozen::new(
        0,
        Time::ZERO,
        Vec::new(alloc),
        Vec::new(alloc),
        Vec::new(alloc),
        Vec::new(alloc),
    )
}

impl Reader {
    /// A reader that took no line.
    pub fn new(alloc: Global, form: Form) -> Result<Reader, Memory>
        ensures form { IfOk result (λ r. r.form ≡ form) }
        ensures taken { IfOk result (λ r. lines_taken r ≡ []) }
        ensures going { IfOk result (λ r. r.stage ≢ ReadingStage.Ended) }
    {
        Ok(Reader {
            reading: Reading::new(alloc, form)?,
        })
    }

    /// The lines that it took begin a checkpoint and hold no whole one. The call does nothing but tell a proof of this.
    pub fn goes_on(&self)
        requires { self.now.stage ≢ ReadingStage.Ended }
        ensures { IsUnfinished self.now.form (lines_taken self.now) }
    {
        let _ended = self.reading.has_ended();
    }

    /// Takes the next line, which stands without its line feed. Where it is refused the reader is as it was.
    pub fn take(&mut self, line: &[u8]) -> Result<Taken, TakeFault>
        requires { self.old.stage ≢ ReadingStage.Ended }
        ensures taken { IfOk result (λ taken. HasTaken self.old line.now taken self.new) }
        ensures refused { IfErr result (λ fault. fault ≡ TakeFault.NotCheckpoint →
            ¬ (BeginsText self.old.form (lines_taken self.old ++ line.now ∷ []))) }
        ensures going { result ≡ Ok Taken.More → self.new.stage ≢ ReadingStage.Ended }
        ensures same { OnErr result (self.new ≡ self.old) }
        ensures form { self.new.form ≡ self.old.form }
    {
        match self.reading.take(line) {
            Ok(()) => {}
            Err(fault) => return Err(fault),
        }
        if self.reading.has_ended() {
            let frozen = mem::replace(&mut self.reading.frozen, nothing(self.reading.alloc));
            return Ok(Taken::Whole(frozen));
        }
        Ok(Taken::More)
    }
}

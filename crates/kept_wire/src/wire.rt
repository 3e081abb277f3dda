// The trait of wires whose output is a file, beside FILE, which keeps the state of a run.
ghost use Rattle.std.specs.Prelude.{◌≡◌, ℕ, List, [], ◌∷◌, Option, IfOk, OnOk, OnErr};
ghost use Rattle.wire_lines.specs.Journal.{Did, Start, AtEnd, CutAt, Sync, Keep, Adds};
ghost use Rattle.wire_lines.specs.Faults.{HasCause, IsOther};
ghost use Rattle.kept_wire.specs.Calls.{Told, Goes, HasReadCause};
ghost use Rattle.kept_wire.specs.Replaced.{HasReplaced};
ghost use Rattle.kept_wire.specs.Opened.{HasOpened};
ghost use Rattle.kept_wire.specs.Kept.{HasNotKept};

use crate::{MediumFailed, ReadFault};
use std::alloc::Global;
use wire_lines::Wire;

/// A wire whose output is a file, beside FILE, which keeps the state of a run.
///
/// What is done to the files stands in the journal, in order with what came in and went out: after a `Sync` a crash leaves all
/// that went out before it, and from a `Keep` on it leaves of FILE what it might have left before, or those bytes. Reads and
/// writes do nothing to FILE, and take nothing back that was synced. `open` counts its faults among those of reads, and the
/// other calls theirs among those of writes.
pub trait KeptWire: Wire {
    /// The disk of FILE, where the wire tells it.
    ghost told: { Self → Option Told };

    /// Brings FILE and its name to the disk, and reads it. None where there is none.
    fn open(&mut self, alloc: Global) -> Result<Option<Vec<u8>>, ReadFault>
        ensures told { Goes (told self.old) (told self.new) (HasOpened result) }
        ensures same { Adds (Self.journal self.old) (Self.journal self.new) [] }
        ensures cause { HasReadCause (Self.read_faults self.old) (Self.read_faults self.new)
            result }
        ensures other { Self.write_faults self.new ≡ Self.write_faults self.old };

    /// Before the first read: the input comes from its first byte on, and the output goes behind all that its file has, which is
    /// made where there is none. Answers how long it is.
    fn start_new(&mut self) -> Result<u64, MediumFailed>
        ensures ok { IfOk result (λ output. Adds (Self.journal self.old) (Self.journal self.new)
            (Did (Start 0 (AtEnd output)) ∷ [])) }
        ensures err { OnErr result (Adds (Self.journal self.old) (Self.journal self.new) []) }
        ensures cause { HasCause (Self.write_faults self.old) (Self.write_faults self.new) result }
        ensures other { IsOther (Self.read_faults self.old) (Self.read_faults self.new) result };

    /// Before the first read: the input comes from that byte on, and the output goes behind so many bytes of its file, which is
    /// cut there. It is an error where either has fewer.
    fn start_at(&mut self, input: u64, output: u64) -> Result<(), MediumFailed>
        ensures ok { OnOk result (Adds (Self.journal self.old) (Self.journal self.new)
            (Did (Start input (CutAt output)) ∷ [])) }
        ensures err { OnErr result (Adds (Self.journal self.old) (Self.journal self.new) []) }
        ensures cause { HasCause (Self.write_faults self.old) (Self.write_faults self.new) result }
        ensures other { IsOther (Self.read_faults self.old) (Self.read_faults self.new) result };

    /// Brings all that went out to the disk.
    fn sync_output(&mut self) -> Result<(), MediumFailed>
        ensures ok { OnOk result
            (Adds (Self.journal self.old) (Self.journal self.new) (Did Sync ∷ [])) }
        ensures err { OnErr result (Adds (Self.journal self.old) (Self.journal self.new) []) }
        ensures cause { HasCause (Self.write_faults self.old) (Self.write_faults self.new) result }
        ensures other { IsOther (Self.read_faults self.old) (Self.read_faults self.new) result };

    /// Replaces FILE by these bytes, whole at every moment. Where it fails a crash may leave either.
    fn keep(&mut self, bytes: &[u8]) -> Result<(), MediumFailed>
        ensures told { Goes (told self.old) (told self.new) (HasReplaced bytes.now result) }
        ensures ok { OnOk result
            (Adds (Self.journal self.old) (Self.journal self.new) (Did (Keep bytes.now) ∷ [])) }
        ensures err { OnErr result (HasNotKept (Self.journal self.old) (Self.journal self.new)
            (told self.old) (told self.new) bytes.now) }
        ensures cause { HasCause (Self.write_faults self.old) (Self.write_faults self.new) result }
        ensures other { IsOther (Self.read_faults self.old) (Self.read_faults self.new) result };
}

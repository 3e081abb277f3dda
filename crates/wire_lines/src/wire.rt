// The trait of wires: reads and writes, the counts of their faults, and the journal of what came in and went out.
ghost use Rattle.std.specs.Prelude.{◌≡◌, ◌≤◌, ◌<◌, ℕ, List, Option, length, IfOk};
ghost use Rattle.wire_lines.specs.Journal.{Entry, Reads, Writes};
ghost use Rattle.wire_lines.specs.Faults.{HasCause, IsOther};

/// A read failed, and nothing was taken in.
#[derive(Clone, Copy, Debug, PartialEq, Eq)]
pub struct ReadFailed;

/// A write failed. A wire that tells its journal gave nothing out by it.
#[derive(Clone, Copy, Debug, PartialEq, Eq)]
pub struct WriteFailed;

/// Where bytes come from and go to.
///
/// A wire counts its faults in a `u64` each way, so "it rose" means that the count rose, or
/// stands at its greatest. A wire that cannot tell what went over it, such as one over the
/// standard streams, has no journal; what is said of the bytes then says nothing.
pub trait Wire {
    /// What came in and went out so far, in order, where the wire tells it.
    ghost journal: { Self → Option (List Entry) };

    /// How often a read has failed.
    ghost read_faults: { Self → ℕ };

    /// How often a write has failed.
    ghost write_faults: { Self → ℕ };

    /// Takes the next bytes into the first places of the slice. 0 is the end of the input.
    fn read(&mut self, into: &mut [u8]) -> Result<usize, ReadFailed>
        requires { 0 < length into.old }
        ensures bound { IfOk result (λ n. n ≤ length into.new) }
        ensures told { Reads (journal self.old) (journal self.new) result into.new }
        ensures cause { HasCause (read_faults self.old) (read_faults self.new) result }
        ensures other { IsOther (write_faults self.old) (write_faults self.new) result };

    /// Gives out a prefix of the piece, of one byte at least.
    fn write(&mut self, piece: &[u8]) -> Result<usize, WriteFailed>
        requires { 0 < length piece.now }
        ensures some { IfOk result (λ n. 0 < n) }
        ensures bound { IfOk result (λ n. n ≤ length piece.now) }
        ensures told { Writes (journal self.old) (journal self.new) result piece.now }
        ensures cause { HasCause (write_faults self.old) (write_faults self.new) result }
        ensures other { IsOther (read_faults self.old) (read_faults self.new) result };
}

// Text that is due while lines that came in are still to be taken: it is held, so that one read is answered by few writes.
ghost use Rattle.std.specs.Prelude.{◌≡◌, ◌++◌, if◌then◌else◌, OnOk, OnErr};
ghost use Rattle.wire_lines.specs.Journal.{Grows, SentFront};
ghost use Rattle.wire_lines.specs.Faults.{HasCause, IsOther};
ghost use Rattle.tempo_cli.specs.Holding.{HoldsOn};

use wire_lines::{Wire, WriteFailed, send};

// What is held is written once it has more bytes than these.
const MOST: usize = 65536;

// Puts what is due behind what is held, and answers whether it did: not where much is held already, or memory is out.
fn add(held: &mut Vec<u8>, due: &[u8]) -> bool
    ensures { held.new.items ≡ (if result then held.old.items ++ due.now else held.old.items) }
{
    held.len() <= MOST && held.extend_from_slice(due).is_ok()
}

/// Holds what is due behind what is held already, or writes both: where much is held, or memory is out.
pub fn hold<W: Wire>(wire: &mut W, held: &mut Vec<u8>, due: &[u8]) -> Result<(), WriteFailed>
    ensures ok { OnOk result (Grows (W.journal wire.old) (W.journal wire.new)
        (HoldsOn held.old.items due.now held.new.items)) }
    ensures err { OnErr result (Grows (W.journal wire.old) (W.journal wire.new)
        (SentFront (held.old.items ++ due.now))) }
    ensures cause { HasCause (W.write_faults wire.old) (W.write_faults wire.new) result }
    ensures other { IsOther (W.read_faults wire.old) (W.read_faults wire.new) result }
{
    if add(held, due) {
        return Ok(());
    }
    send(wire, held)?;
    held.clear();
    send(wire, due)
}

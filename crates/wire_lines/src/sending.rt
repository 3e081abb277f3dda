// Bytes written in full, by as many writes as that takes.
ghost use Rattle.std.specs.Prelude.{OnOk, OnErr};
ghost use Rattle.wire_lines.specs.Journal.{Grows, SentAll, SentFront};
ghost use Rattle.wire_lines.specs.Faults.{HasCause, IsOther};

use crate::{Wire, WriteFailed};

/// Writes all the bytes, in order, and takes no memory. After a failure their first bytes were
/// written, and it is not tried again.
pub fn send<W: Wire>(wire: &mut W, bytes: &[u8]) -> Result<(), WriteFailed>
    ensures ok { OnOk result (Grows (W.journal wire.old) (W.journal wire.new) (SentAll bytes.now)) }
    ensures err { OnErr result
        (Grows (W.journal wire.old) (W.journal wire.new) (SentFront bytes.now)) }
    ensures cause { HasCause (W.write_faults wire.old) (W.write_faults wire.new) result }
    ensures other { IsOther (W.read_faults wire.old) (W.read_faults wire.new) result }
{
    let mut rest = bytes;
    while !rest.is_empty() {
        let count = wire.write(rest)?;
        rest = &rest[count..];
    }
    Ok(())
}

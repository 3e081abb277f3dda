// FILE replaced whole, by a file that is written beside it.
ghost use Rattle.wire_lines.specs.Faults.{HasCause};
ghost use Rattle.kept_wire.specs.Calls.{Goes};
ghost use Rattle.kept_wire.specs.Replaced.{HasReplaced};

use crate::{Medium, MediumFailed, Name};

/// Replaces FILE by these bytes. At every moment of the call a crash leaves of FILE what it might have left before the call, or
/// these bytes; after Ok it leaves these bytes and nothing else. So where FILE was whole before, it is whole at every moment.
/// After a failure it is either of the two, and may be replaced again: a call that failed is not made anew by itself, since what
/// a kernel could not write it may drop.
pub fn replace<M: Medium>(medium: &mut M, bytes: &[u8]) -> Result<(), MediumFailed>
    ensures told { Goes (M.told medium.old) (M.told medium.new) (HasReplaced bytes.now result) }
    ensures cause { HasCause (M.faults medium.old) (M.faults medium.new) result }
{
    medium.write(Name::Next, bytes)?;
    // A crash may leave any bytes in a file that is not synced, also behind a rename.
    medium.sync(Name::Next)?;
    medium.rename()?;
    // Until the folder is synced a crash may undo the rename.
    medium.sync_folder()
}

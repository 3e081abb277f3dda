// FILE brought to the disk and read, which a process does first.
ghost use Rattle.kept_wire.specs.Calls.{Goes, HasReadCause};
ghost use Rattle.kept_wire.specs.Opened.{HasOpened};

use crate::{Medium, Name, ReadFault};
use std::alloc::Global;

/// Brings FILE and its name to the disk, and reads it: None where there is none. A process that has just started calls it first.
/// One that was ended may have renamed FILE.new and not synced the folder, and a crash would undo what is read here.
pub fn open<M: Medium>(medium: &mut M, alloc: Global) -> Result<Option<Vec<u8>>, ReadFault>
    ensures told { Goes (M.told medium.old) (M.told medium.new) (HasOpened result) }
    ensures cause { HasReadCause (M.faults medium.old) (M.faults medium.new) result }
{
    let found = medium.read(alloc)?;
    let Some(bytes) = found else {
        medium.sync_folder()?;
        return Ok(None);
    };
    medium.sync(Name::File)?;
    medium.sync_folder()?;
    Ok(Some(bytes))
}

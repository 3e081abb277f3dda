// A medium: FILE, and FILE.new beside it in the same folder.
ghost use Rattle.std.specs.Prelude.{◌≡◌, ℕ, Option};
ghost use Rattle.std.specs.Result.{result_ok};
ghost use Rattle.wire_lines.specs.Faults.{HasCause};
ghost use Rattle.kept_wire.specs.Calls.{Told, Goes, HasRead, HasReadCause};
ghost use Rattle.kept_wire.specs.Calls.{HasWritten, HasSynced, HasRenamed, HasSyncedFolder};
ghost use Rattle.kept_wire.specs.declared.medium.ReadFault.TheVariants as faults;

use std::alloc::Global;

/// A file of a medium.
#[derive(Clone, Copy, Debug, PartialEq, Eq)]
pub enum Name {
    /// FILE, which is replaced.
    File,
    /// FILE.new, in which its next bytes are written.
    Next,
}

/// A call of a medium failed.
#[derive(Clone, Copy, Debug, PartialEq, Eq)]
pub struct MediumFailed;

/// One fault more where the answer is an error.
pub fn counted<T: Drop, E: Drop>(faults: &mut u64, answer: Result<T, E>) -> Result<T, MediumFailed>
    ensures cause { HasCause faults.old faults.new result }
    ensures value { result_ok result ≡ result_ok answer }
{
    match answer {
        Ok(value) => Ok(value),
        Err(_) => {
            *faults = faults.saturating_add(1);
            Err(MediumFailed)
        }
    }
}

/// Why FILE was not read.
#[derive(Clone, Copy, Debug, PartialEq, Eq)]
pub enum ReadFault {
    Failed,
    Memory,
}

impl From<MediumFailed> for ReadFault {
    ghost from_gives = { λ _ fault. fault ≡ faults.Failed };

    fn from(_failed: MediumFailed) -> ReadFault {
        ReadFault::Failed
    }
}

/// The folder of FILE and FILE.new, and the calls by which FILE is replaced.
///
/// The clauses say of the disk what is commonly assumed of a file system that keeps POSIX, and no more: a crash may leave any
/// bytes in a file that was written and not synced, and once it was synced just its bytes; a rename makes FILE.new FILE in one
/// step, and until the folder is synced a crash may undo it. After a sync that failed no later sync of the same bytes counts:
/// they have to be written anew. No contract can check that of a real disk: it is a premise. A medium over one tells no moments,
/// and what is said of them then says nothing.
///
/// A medium counts its faults in a `u64`.
pub trait Medium {
    /// The disk at each moment so far, and as it is now, where the medium tells them. A crash may come at any of them.
    ghost told: { Self → Option Told };

    /// How often a call has failed.
    ghost faults: { Self → ℕ };

    /// The bytes of FILE, and none where there is no FILE.
    fn read(&mut self, alloc: Global) -> Result<Option<Vec<u8>>, ReadFault>
        ensures told { Goes (told self.old) (told self.new) (HasRead result) }
        ensures cause { HasReadCause (faults self.old) (faults self.new) result };

    /// Makes the file anew, with these bytes. What it held is gone.
    fn write(&mut self, name: Name, bytes: &[u8]) -> Result<(), MediumFailed>
        ensures told { Goes (told self.old) (told self.new) (HasWritten name bytes.now result) }
        ensures cause { HasCause (faults self.old) (faults self.new) result };

    /// Brings the bytes of the file, once they are written, to the disk.
    fn sync(&mut self, name: Name) -> Result<(), MediumFailed>
        ensures told { Goes (told self.old) (told self.new) (HasSynced name result) }
        ensures cause { HasCause (faults self.old) (faults self.new) result };

    /// Makes FILE.new FILE, in the place of the one that was there.
    fn rename(&mut self) -> Result<(), MediumFailed>
        ensures told { Goes (told self.old) (told self.new) (HasRenamed result) }
        ensures cause { HasCause (faults self.old) (faults self.new) result };

    /// Brings the names of the folder to the disk.
    fn sync_folder(&mut self) -> Result<(), MediumFailed>
        ensures told { Goes (told self.old) (told self.new) (HasSyncedFolder result) }
        ensures cause { HasCause (faults self.old) (faults self.new) result };
}

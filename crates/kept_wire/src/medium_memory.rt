// A medium in memory, which crashes where it is told to.
ghost use Rattle.std.specs.Prelude.{◌≡◌, ◌≤◌, ◌+◌, ◌-◌, ◌^◌, ◌⊎◌, ◌∷◌, length, slice_get, OnOk, OnErr, option_map, vec_capacity};
ghost use Rattle.wire_lines.specs.Faults.{HasCause};
ghost use Rattle.kept_wire.specs.Disk.{Written, synced, with_content, renamed};
ghost use Rattle.kept_wire.specs.Calls.{with_synced};

use crate::{Medium, MediumFailed, Name, ReadFault};
use std::alloc::Global;
use std::marker::Model;
use std::mem;
use std::snapshot::Snapshot;

// A file. What a crash leaves of `Written` bytes is open.
#[derive(Drop)]
enum Stored {
    Absent,
    Written(Vec<u8>),
    Synced(Vec<u8>),
}

// FILE, FILE.new, and what FILE was since the folder was synced, the last first.
#[derive(Drop)]
struct MemoryDisk {
    file: Stored,
    next: Stored,
    earlier: Vec<Stored>,
}

impl Stored {
    ghost use Rattle.kept_wire.specs.MediumMemory.{content_of, file_of, left_of};

    // A file with these bytes on the disk, and none where they are None.
    fn of(file: Option<Vec<u8>>) -> Stored
        ensures { content_of result ≡ file_of (option_map (λ v. v.items) file) }
    {
        match file {
            Some(bytes) => Stored::Synced(bytes),
            None => Stored::Absent,
        }
    }

    // What a crash leaves of the file, where it leaves these of bytes that were not synced.
    fn left(self, torn: Vec<u8>) -> Option<Vec<u8>>
        ensures { option_map (λ v. v.items) result ≡ left_of (content_of self) torn.items }
    {
        match self {
            Stored::Absent => None,
            Stored::Written(_) => Some(torn),
            Stored::Synced(bytes) => Some(bytes),
        }
    }

    // Brings its bytes to the disk.
    fn sync(&mut self)
        ensures { content_of self.new ≡ synced (content_of self.old) }
    {
        match mem::replace(self, Stored::Absent) {
            Stored::Written(bytes) => *self = Stored::Synced(bytes),
            other => *self = other,
        }
    }
}

impl MemoryDisk {
    ghost use Rattle.kept_wire.specs.MediumMemory.{content_of, disk_of};

    // Puts bytes in the place of the file.
    fn write(&mut self, name: Name, bytes: Vec<u8>) -> Result<(), MediumFailed>
        ensures ok { OnOk result (disk_of self.new
            ≡ with_content name (Written bytes.items) (disk_of self.old)) }
        ensures err { OnErr result (disk_of self.new ≡ disk_of self.old) }
    {
        match name {
            Name::Next => {
                self.next = Stored::Written(bytes);
                Ok(())
            }
            Name::File => self.put_file(Stored::Written(bytes)),
        }
    }

    // Puts another file in the place of FILE, which a crash may bring back.
    fn put_file(&mut self, next: Stored) -> Result<(), MediumFailed>
        ensures ok { OnOk result (disk_of self.new
            ≡ with_content Name.File (content_of next) (disk_of self.old)) }
        ensures err { OnErr result (disk_of self.new ≡ disk_of self.old) }
    {
        if self.earlier.reserve(1).is_err() {
            return Err(MediumFailed);
        }
        let was = mem::replace(&mut self.file, next);
        match self.earlier.insert(0, was) {
            Ok(()) => Ok(()),
            Err(_) => unreachable!(),
        }
    }

    fn sync(&mut self, name: Name)
        ensures { disk_of self.new ≡ with_synced name (disk_of self.old) }
    {
        match name {
            Name::File => self.file.sync(),
            Name::Next => self.next.sync(),
        }
    }

    // Makes FILE.new FILE, where there is one.
    fn rename(&mut self) -> Result<(), MediumFailed>
        ensures ok { OnOk result (disk_of self.new ≡ renamed (disk_of self.old)) }
        ensures err { OnErr result (disk_of self.new ≡ disk_of self.old) }
    {
        if matches!(self.next, Stored::Absent) || self.earlier.reserve(1).is_err() {
            return Err(MediumFailed);
        }
        let next = mem::replace(&mut self.next, Stored::Absent);
        let was = mem::replace(&mut self.file, next);
        match self.earlier.insert(0, was) {
            Ok(()) => Ok(()),
            Err(_) => unreachable!(),
        }
    }

    // FILE as it is where back is 0, and else as it was so many changes ago. None where they are more than since the folder was
    // synced.
    fn file_back(self, back: usize) -> Option<Stored>
        ensures { option_map content_of result
            ≡ slice_get ((disk_of self).file ∷ (disk_of self).earlier) back }
    {
        let MemoryDisk {
            file,
            next: _,
            mut earlier,
        } = self;
        if back == 0 {
            return Some(file);
        }
        if back > earlier.len() {
            return None;
        }
        Some(earlier.remove(back - 1))
    }
}

// The disk as it is, and as it was before each call that was let go on; and how many may still be.
#[derive(Drop)]
struct Moments {
    disk: MemoryDisk,
    past: Vec<Snapshot<MemoryDisk>>,
    calls: u64,
}

impl Moments {
    ghost use Rattle.kept_wire.specs.MediumMemory.{told_of};
    ghost use Rattle.kept_wire.specs.Calls.{moved};
    ghost use Rattle.kept_wire.specs.Calls.{HasWritten, HasSynced, HasRenamed, HasSyncedFolder};

    // The disk as it is is one that was, unless no call goes on any more, or there is no memory.
    fn pass(&mut self) -> Result<(), MediumFailed>
        ensures ok { OnOk result (told_of self.new ≡ moved (told_of self.old)) }
        ensures fewer { OnOk result (self.old.calls ≡ self.new.calls + 1) }
        ensures err { OnErr result (told_of self.new ≡ told_of self.old) }
        ensures full { OnErr result ((self.old.calls ≡ 0)
            ⊎ (vec_capacity self.old.past ≤ length self.old.past.items)) }
    {
        if self.calls == 0 {
            return Err(MediumFailed);
        }
        self.calls -= 1;
        match self.past.push(Snapshot::of(&self.disk)) {
            Ok(()) => Ok(()),
            Err(_) => Err(MediumFailed),
        }
    }

    fn write(&mut self, alloc: Global, name: Name, bytes: &[u8]) -> Result<(), MediumFailed>
        ensures told { HasWritten name bytes.now result (told_of self.old) (told_of self.new) }
        ensures fewer { OnOk result (self.old.calls ≡ self.new.calls + 1) }
    {
        self.pass()?;
        match bytes.to_vec(alloc) {
            Ok(bytes) => self.disk.write(name, bytes),
            Err(_) => Err(MediumFailed),
        }
    }

    fn sync(&mut self, name: Name) -> Result<(), MediumFailed>
        ensures told { HasSynced name result (told_of self.old) (told_of self.new) }
        ensures fewer { OnOk result (self.old.calls ≡ self.new.calls + 1) }
    {
        self.pass()?;
        self.disk.sync(name);
        Ok(())
    }

    fn rename(&mut self) -> Result<(), MediumFailed>
        ensures told { HasRenamed result (told_of self.old) (told_of self.new) }
        ensures fewer { OnOk result (self.old.calls ≡ self.new.calls + 1) }
    {
        self.pass()?;
        self.disk.rename()
    }

    fn sync_folder(&mut self) -> Result<(), MediumFailed>
        ensures told { HasSyncedFolder result (told_of self.old) (told_of self.new) }
        ensures fewer { OnOk result (self.old.calls ≡ self.new.calls + 1) }
    {
        self.pass()?;
        self.disk.earlier.clear();
        Ok(())
    }
}

// One fault more, where there is one.
fn count(faults: &mut u64, answer: &Result<(), MediumFailed>)
    ensures { HasCause faults.old faults.new answer.now }
{
    if answer.is_err() {
        *faults = faults.saturating_add(1);
    }
}

/// A medium whose files are kept in memory, and whose calls fail from a given one on, as those of a process that is ended.
#[derive(Drop)]
pub struct MemoryMedium {
    alloc: Global,
    moments: Moments,
    faults: u64,
}

impl Model for MemoryMedium {
    ghost use Rattle.kept_wire.specs.MediumMemory.{MemoryView, told_of};

    ghost Value = { MemoryView };

    ghost view = { λ m. record {
      told = told_of m.moments;
      calls = m.moments.calls;
      faults = m.faults;
    } };
}

impl MemoryMedium {
    ghost use Rattle.kept_wire.specs.MediumMemory.{disk_of, started, restarted, left_back};

    /// FILE has these bytes, and where they are None there is none. So many writes, syncs and renames go on, and each one behind
    /// them fails; a read goes on always.
    pub fn new(alloc: Global, file: Option<Vec<u8>>, calls: u64) -> MemoryMedium
        ensures { result ≡ started (option_map (λ v. v.items) file) calls }
    {
        MemoryMedium {
            alloc,
            moments: Moments {
                disk: MemoryDisk {
                    file: Stored::of(file),
                    next: Stored::Absent,
                    earlier: Vec::new(alloc),
                },
                past: Vec::new(alloc),
                calls,
            },
            faults: 0,
        }
    }

    // Where it allocates, and its disk as it is.
    fn into_disk(self) -> (Global, MemoryDisk)
        ensures { disk_of result.1 ≡ self.told.now }
    {
        let MemoryMedium {
            alloc,
            moments,
            faults: _,
        } = self;
        let Moments {
            disk,
            past: _,
            calls: _,
        } = moments;
        (alloc, disk)
    }

    /// What the next process finds where this one was ended and the machine went on: the same disk, with nothing synced.
    pub fn killed(self) -> MemoryMedium
        ensures { result ≡ restarted self.told.now }
    {
        let (alloc, disk) = self.into_disk();
        MemoryMedium {
            alloc,
            moments: Moments {
                disk,
                past: Vec::new(alloc),
                calls: u64::MAX,
            },
            faults: 0,
        }
    }

    /// What a crash leaves: FILE as it is where `back` is 0, and else as it was so many changes ago, with the bytes `torn` where
    /// they were not synced. None where FILE has not changed so often since the folder was synced.
    pub fn crash(self, back: usize, torn: Vec<u8>) -> Option<MemoryMedium>
        ensures { result ≡ option_map (λ left. started left (2 ^ 64 - 1))
            (left_back self.told.now back torn.items) }
    {
        let (alloc, disk) = self.into_disk();
        let file = disk.file_back(back)?;
        Some(MemoryMedium::new(alloc, file.left(torn), u64::MAX))
    }
}

impl Medium for MemoryMedium {
    ghost use Rattle.std.specs.Prelude.{Some, ◌≡◌, ◌+◌, OnOk};
    ghost use Rattle.wire_lines.specs.Faults.{HasCause};
    ghost use Rattle.kept_wire.specs.Calls.{Goes, HasWritten, HasSynced, HasRenamed, HasSyncedFolder};

    ghost told = { λ m. Some m.told };

    ghost faults = { λ m. m.faults };

    fn read(&mut self, alloc: Global) -> Result<Option<Vec<u8>>, ReadFault> {
        match &self.moments.disk.file {
            Stored::Absent => Ok(None),
            Stored::Written(bytes) | Stored::Synced(bytes) => match bytes.to_vec(alloc) {
                Ok(bytes) => Ok(Some(bytes)),
                Err(_) => Err(ReadFault::Memory),
            },
        }
    }

    fn write(&mut self, name: Name, bytes: &[u8]) -> Result<(), MediumFailed>
        ensures told { Goes (Some self.old.told) (Some self.new.told)
            (HasWritten name bytes.now result) }
        ensures cause { HasCause self.old.faults self.new.faults result }
        ensures fewer { OnOk result (self.old.calls ≡ self.new.calls + 1) }
    {
        let answer = self.moments.write(self.alloc, name, bytes);
        count(&mut self.faults, &answer);
        answer
    }

    fn sync(&mut self, name: Name) -> Result<(), MediumFailed>
        ensures told { Goes (Some self.old.told) (Some self.new.told) (HasSynced name result) }
        ensures cause { HasCause self.old.faults self.new.faults result }
        ensures fewer { OnOk result (self.old.calls ≡ self.new.calls + 1) }
    {
        let answer = self.moments.sync(name);
        count(&mut self.faults, &answer);
        answer
    }

    fn rename(&mut self) -> Result<(), MediumFailed>
        ensures told { Goes (Some self.old.told) (Some self.new.told) (HasRenamed result) }
        ensures cause { HasCause self.old.faults self.new.faults result }
        ensures fewer { OnOk result (self.old.calls ≡ self.new.calls + 1) }
    {
        let answer = self.moments.rename();
        count(&mut self.faults, &answer);
        answer
    }

    fn sync_folder(&mut self) -> Result<(), MediumFailed>
        ensures told { Goes (Some self.old.told) (Some self.new.told) (HasSyncedFolder result) }
        ensures cause { HasCause self.old.faults self.new.faults result }
        ensures fewer { OnOk result (self.old.calls ≡ self.new.calls + 1) }
    {
        let answer = self.moments.sync_folder();
        count(&mut self.faults, &answer);
        answer
    }
}

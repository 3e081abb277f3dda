// A medium over the files of the system.
ghost use Rattle.std.specs.Prelude.{◌≡◌, ◌++◌, IfOk, codes, string_bytes};
ghost use Rattle.kept_wire.specs.Calls.{HasReadCause};
ghost use Rattle.kept_wire.specs.Folder.{folder_in};

use crate::{Medium, MediumFailed, Name, ReadFault, counted};
use std::alloc::{AllocError, Global};
use std::fs::OpenFile;
use std::io::{ErrorKind, Read, Write};
use std::path::Path;
use std::rt::Files;
use std::{fs, io};

/// FILE at a path, and FILE.new beside it.
///
/// It tells no moments, since no contract can say what a disk holds. That the calls of the system do what `Medium` says of them is
/// a premise; each method makes those calls that it is named for. FILE is a new file after each rename: it has the rights that
/// the process gives to one, and where a link stood at the path the file stands there now.
#[derive(Drop)]
pub struct FolderMedium<'a, R: Files> {
    rt: &'a R,
    file: String,
    next: String,
    folder: String,
    // A file that was written stays open up to its sync, whose answer is then of that write.
    file_open: Option<R::File>,
    next_open: Option<R::File>,
    faults: u64,
}

/// The folder that the file of this path lies in, `.` for a name alone: what is synced for the name of a file to be on the disk.
pub fn folder_of(path: &str) -> &str
    ensures { result.now ≡ folder_in path.now }
{
    match Path::new(path).parent() {
        Some(folder) if !folder.as_str().is_empty() => folder.as_str(),
        _ => ".",
    }
}

// All bytes of a file.
fn read_file<R: Files>(rt: &R, alloc: Global, path: &str) -> io::Result<Vec<u8>> {
    let mut file = fs::open(rt, path)?;
    let mut bytes = Vec::new(alloc);
    file.read_to_end(&mut bytes)?;
    Ok(bytes)
}

// A file with these bytes, made anew, which is still open.
fn write_file<R: Files>(rt: &R, path: &str, bytes: &[u8]) -> io::Result<R::File> {
    let mut file = fs::create(rt, path)?;
    file.write_all(bytes)?;
    Ok(file)
}

// Syncs the file that is open, and closes it; where none is, opens the one of this path for that.
fn sync_file<R: Files>(rt: &R, open: Option<R::File>, path: &str) -> io::Result<()> {
    match open {
        Some(file) => file.sync_all(),
        None => fs::open(rt, path)?.sync_all(),
    }
}

impl<'a, R: Files> FolderMedium<'a, R> {
    /// FILE is what this path leads to.
    pub fn new(alloc: Global, rt: &'a R, path: &str) -> Result<FolderMedium<'a, R>, AllocError>
        ensures file { IfOk result (λ m. string_bytes m.file ≡ path.now) }
        ensures next { IfOk result (λ m. string_bytes m.next ≡ path.now ++ codes ".new") }
        ensures folder { IfOk result (λ m. string_bytes m.folder ≡ folder_in path.now) }
        ensures unfailed { IfOk result (λ m. m.faults ≡ 0) }
    {
        let mut next = String::from_str(alloc, path)?;
        next.push_str(".new")?;
        Ok(FolderMedium {
            rt,
            file: String::from_str(alloc, path)?,
            next,
            folder: String::from_str(alloc, folder_of(path))?,
            file_open: None,
            next_open: None,
            faults: 0,
        })
    }
}

impl<'a, R: Files> Medium for FolderMedium<'a, R> {
    ghost use Rattle.std.specs.Prelude.{None};

    ghost told = { λ _. None };

    ghost faults = { λ m. m.faults };

    fn read(&mut self, alloc: Global) -> Result<Option<Vec<u8>>, ReadFault> {
        match read_file(self.rt, alloc, self.file.as_str()) {
            Ok(bytes) => Ok(Some(bytes)),
            Err(error) => match error.kind() {
                ErrorKind::NotFound => Ok(None),
                ErrorKind::OutOfMemory => Err(ReadFault::Memory),
                _ => {
                    self.faults = self.faults.saturating_add(1);
                    Err(ReadFault::Failed)
                }
            },
        }
    }

    fn write(&mut self, name: Name, bytes: &[u8]) -> Result<(), MediumFailed> {
        match name {
            Name::File => {
                let written = write_file(self.rt, self.file.as_str(), bytes);
                self.file_open = Some(counted(&mut self.faults, written)?);
            }
            Name::Next => {
                let written = write_file(self.rt, self.next.as_str(), bytes);
                self.next_open = Some(counted(&mut self.faults, written)?);
            }
        }
        Ok(())
    }

    fn sync(&mut self, name: Name) -> Result<(), MediumFailed> {
        let synced = match name {
            Name::File => sync_file(self.rt, self.file_open.take(), self.file.as_str()),
            Name::Next => sync_file(self.rt, self.next_open.take(), self.next.as_str()),
        };
        counted(&mut self.faults, synced)
    }

    fn rename(&mut self) -> Result<(), MediumFailed> {
        let renamed = fs::rename(self.rt, self.next.as_str(), self.file.as_str());
        counted(&mut self.faults, renamed)?;
        self.file_open = self.next_open.take();
        Ok(())
    }

    fn sync_folder(&mut self) -> Result<(), MediumFailed> {
        let synced = sync_file(self.rt, None, self.folder.as_str());
        counted(&mut self.faults, synced)
    }
}

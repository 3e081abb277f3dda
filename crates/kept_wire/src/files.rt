// A wire over the system's files.
ghost use Rattle.std.specs.Prelude.{◌≡◌, ◌≤◌, ◌<◌, length, IfOk};

use crate::{FolderMedium, KeptWire, MediumFailed, ReadFault, counted, folder_of, open, replace};
use std::alloc::Global;
use std::fs::{OpenFile, OpenOptions};
use std::io::{ErrorKind, Read, Seek, SeekFrom, Write};
use std::rt::Files;
use std::{fs, io};
use wire_lines::{ReadFailed, Wire, WriteFailed};

// Where bytes come from or go to. A file is open from the start of the run on.
#[derive(Drop)]
enum End<S: Drop, F: Drop> {
    Stream(S),
    Closed,
    Open(F),
}

/// A wire over an input and an output that are files or streams, beside FILE.
///
/// It tells no journal and no disk, since no contract can say what a file holds. Where the input or the output has no path it is
/// the stream: no byte of it is skipped or cut, and a sync does nothing. The output's file is appended to, and made where there is
/// none.
#[derive(Drop)]
pub struct FileWire<'a, R: Files, I: Read + Drop, O: Write + Drop> {
    rt: &'a R,
    medium: FolderMedium<'a, R>,
    input: Option<&'a str>,
    output: Option<&'a str>,
    source: End<I, R::File>,
    sink: End<O, R::File>,
    read_faults: u64,
    write_faults: u64,
}

// The next bytes of the source.
fn read_from<S: Read + Drop, F: Read + Drop>(
    source: &mut End<S, F>,
    into: &mut [u8],
) -> io::Result<usize>
    ensures { IfOk result (λ n. n ≤ length into.new) }
{
    match source {
        End::Stream(stream) => stream.read(into),
        End::Open(file) => file.read(into),
        End::Closed => Err(io::Error::from(ErrorKind::NotFound)),
    }
}

// A prefix of the piece goes out, of one byte at least.
fn write_to<S: Write + Drop, F: Write + Drop>(
    sink: &mut End<S, F>,
    piece: &[u8],
) -> io::Result<usize>
    ensures some { IfOk result (λ n. 0 < n) }
    ensures bound { IfOk result (λ n. n ≤ length piece.now) }
{
    let count = match sink {
        End::Stream(stream) => {
            let count = stream.write(piece)?;
            stream.flush()?;
            count
        }
        End::Open(file) => file.write(piece)?,
        End::Closed => 0,
    };
    if count == 0 {
        return Err(io::Error::from(ErrorKind::WriteZero));
    }
    Ok(count)
}

impl<'a, R: Files, I: Read + Drop, O: Write + Drop> FileWire<'a, R, I, O> {
    /// FILE is that of the medium. The input and the output are the files of these paths, where there are any.
    pub fn new(
        rt: &'a R,
        medium: FolderMedium<'a, R>,
        stdin: I,
        stdout: O,
        input: Option<&'a str>,
        output: Option<&'a str>,
    ) -> FileWire<'a, R, I, O>
        ensures unfailed { (result.read_faults ≡ 0) × (result.write_faults ≡ 0) }
    {
        let source = match input {
            Some(_) => End::Closed,
            None => End::Stream(stdin),
        };
        let sink = match output {
            Some(_) => End::Closed,
            None => End::Stream(stdout),
        };
        FileWire {
            rt,
            medium,
            input,
            output,
            source,
            sink,
            read_faults: 0,
            write_faults: 0,
        }
    }
}

// Opens the input behind so many bytes.
fn open_input<R: Files>(rt: &R, path: &str, skipped: u64) -> io::Result<R::File> {
    let mut file = fs::open(rt, path)?;
    if skipped > 0 {
        if file.metadata()?.len() < skipped {
            return Err(io::Error::from(ErrorKind::UnexpectedEof));
        }
        file.seek(SeekFrom::Start(skipped))?;
    }
    Ok(file)
}

// Opens the output, cuts it where that is asked for, and brings it and its name to the disk. Answers its length too.
fn open_output<R: Files>(rt: &R, path: &str, kept: Option<u64>) -> io::Result<(R::File, u64)> {
    let file = OpenOptions::new().append(true).create(true).open(rt, path)?;
    let length = file.metadata()?.len();
    let left = kept.unwrap_or(length);
    if length < left {
        return Err(io::Error::from(ErrorKind::UnexpectedEof));
    }
    if left < length {
        file.set_len(left)?;
    }
    file.sync_all()?;
    fs::open(rt, folder_of(path))?.sync_all()?;
    Ok((file, left))
}

impl<'a, R: Files, I: Read + Drop, O: Write + Drop> FileWire<'a, R, I, O> {
    // Opens both ends. Answers how long the output is.
    fn open_ends(&mut self, skipped: u64, kept: Option<u64>) -> io::Result<u64>
        ensures { (self.new.read_faults ≡ self.old.read_faults)
            × (self.new.write_faults ≡ self.old.write_faults) }
    {
        if let Some(path) = self.input {
            self.source = End::Open(open_input(self.rt, path, skipped)?);
        }
        let Some(path) = self.output else {
            return Ok(0);
        };
        let (file, length) = open_output(self.rt, path, kept)?;
        self.sink = End::Open(file);
        Ok(length)
    }

    // Syncs the output's file. After a failure it is closed: a later sync would not bring back what the system has dropped.
    fn sync_sink(&mut self) -> io::Result<()>
        ensures { (self.new.read_faults ≡ self.old.read_faults)
            × (self.new.write_faults ≡ self.old.write_faults) }
    {
        let synced = match &self.sink {
            End::Stream(_) => Ok(()),
            End::Open(file) => file.sync_all(),
            End::Closed => Err(io::Error::from(ErrorKind::NotFound)),
        };
        if synced.is_err() {
            self.sink = End::Closed;
        }
        synced
    }
}

impl<'a, R: Files, I: Read + Drop, O: Write + Drop> Wire for FileWire<'a, R, I, O> {
    ghost use Rattle.std.specs.Prelude.{None};

    ghost journal = { λ _. None };

    ghost read_faults = { λ w. w.read_faults };

    ghost write_faults = { λ w. w.write_faults };

    fn read(&mut self, into: &mut [u8]) -> Result<usize, ReadFailed> {
        match read_from(&mut self.source, into) {
            Ok(count) => Ok(count),
            Err(_) => {
                self.read_faults = self.read_faults.saturating_add(1);
                Err(ReadFailed)
            }
        }
    }

    fn write(&mut self, piece: &[u8]) -> Result<usize, WriteFailed> {
        match write_to(&mut self.sink, piece) {
            Ok(count) => Ok(count),
            Err(_) => {
                self.write_faults = self.write_faults.saturating_add(1);
                Err(WriteFailed)
            }
        }
    }
}

impl<'a, R: Files, I: Read + Drop, O: Write + Drop> KeptWire for FileWire<'a, R, I, O> {
    ghost use Rattle.std.specs.Prelude.{None};

    ghost told = { λ _. None };

    fn open(&mut self, alloc: Global) -> Result<Option<Vec<u8>>, ReadFault> {
        let opened = open(&mut self.medium, alloc);
        if let Err(ReadFault::Failed) = &opened {
            self.read_faults = self.read_faults.saturating_add(1);
        }
        opened
    }

    fn start_new(&mut self) -> Result<u64, MediumFailed> {
        let started = self.open_ends(0, None);
        counted(&mut self.write_faults, started)
    }

    fn start_at(&mut self, input: u64, output: u64) -> Result<(), MediumFailed> {
        let started = self.open_ends(input, Some(output));
        counted(&mut self.write_faults, started)?;
        Ok(())
    }

    fn sync_output(&mut self) -> Result<(), MediumFailed> {
        let synced = self.sync_sink();
        counted(&mut self.write_faults, synced)
    }

    fn keep(&mut self, bytes: &[u8]) -> Result<(), MediumFailed> {
        let kept = replace(&mut self.medium, bytes);
        counted(&mut self.write_faults, kept)
    }
}

// tempo: a query over streams of events, from standard input to standard output, or from a file to a file.
#![tactic(auto)]

use command_line::{Keeping, WordsFault, as_texts, read_words};
use kept_wire::{FileWire, FolderMedium};
use shard_apply::OpenGate;
use std::alloc::AllocError;
use std::io::{ErrorKind, Stderr, Stdin, Stdout};
use std::process::ExitCode;
use std::{env, fs};
use tempo_cli::{Status, note, run, run_kept};
use wire_lines::{ErrWire, StdWire};

// The words of the command line. Where one is not UTF-8 none of them is ours, and there are none.
fn words_given(rt: &HostRuntime) -> Result<Vec<String>, AllocError> {
    match env::args(rt) {
        Ok(args) => args.collect::<Vec<String>>(rt.alloc()),
        Err(error) if error.kind() == ErrorKind::OutOfMemory => Err(AllocError),
        Err(_) => Ok(Vec::new(rt.alloc())),
    }
}

// The file of this path; `-` stands for the standard stream.
fn file_named(path: &str) -> Option<&str> {
    if path == "-" { None } else { Some(path) }
}

// The wire of a run that keeps its state in a file.
fn wire_over_files<'a>(
    rt: &'a HostRuntime,
    keeping: Keeping<'a>,
) -> Result<FileWire<'a, HostRuntime, Stdin, Stdout>, AllocError> {
    let medium = FolderMedium::new(rt.alloc(), rt, keeping.checkpoint)?;
    let input = file_named(keeping.input);
    let output = file_named(keeping.output);
    Ok(FileWire::new(rt, medium, rt.stdin(), rt.stdout(), input, output))
}

// There was no memory to begin with.
fn out_of_memory(notes: &mut ErrWire<Stderr>) -> ExitCode {
    note(notes, &Status::Memory);
    ExitCode::from(Status::Memory.number())
}

fn main(rt: HostRuntime) -> ExitCode {
    let alloc = rt.alloc();
    let mut notes = ErrWire::new(rt.stderr());
    let Ok(words) = words_given(&rt) else {
        return out_of_memory(&mut notes);
    };
    let Ok(texts) = as_texts(alloc, &words) else {
        return out_of_memory(&mut notes);
    };
    let asked = match read_words(alloc, &texts) {
        Err(WordsFault::Memory) => return out_of_memory(&mut notes),
        asked => asked,
    };
    if let Ok(asked) = asked
        && let Some(keeping) = asked.keeping
    {
        // A standard stream that was closed leaves its descriptor to the next file: none of the run's is to be that one.
        let _taken = [(); 3].map(|()| fs::open(&rt, "/dev/null"));
        let Ok(mut wire) = wire_over_files(&rt, keeping) else {
            return out_of_memory(&mut notes);
        };
        let every = keeping.every;
        let status = run_kept(&rt, alloc, &asked, every, &mut wire, &mut notes, &OpenGate);
        return ExitCode::from(status.number());
    }
    let mut wire = StdWire::new(rt.stdin(), rt.stdout());
    let status = run(&rt, alloc, &texts, &mut wire, &mut notes, &OpenGate);
    ExitCode::from(status.number())
}

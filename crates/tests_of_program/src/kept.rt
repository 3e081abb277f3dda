// Runs that keep checkpoints, over files in memory, each of which a crash ends and the next one goes on with.
use crate::runs::{CLOSED, CLOSING, HOP};
use command_line::read_words;
use kept_wire::{MemoryFileWire, MemoryMedium};
use shard_apply::OpenGate;
use std::alloc::AllocGlobal;
use std::process::Abort;
use std::thread::Threads;
use tempo_cli::run_kept;
use tw_rows::Memory;
use wire_lines::MemoryWire;

// A run of the worked example over these files: its exit number.
fn run_on<R: Threads + Sync + AllocGlobal>(
    rt: &R,
    files: &mut MemoryFileWire,
) -> Result<u8, Memory> {
    let alloc = rt.alloc();
    let words = ["tempo", "--query", HOP, "--checkpoint", "state"];
    let Ok(asked) = read_words(alloc, &words) else {
        return Ok(2);
    };
    let mut notes = MemoryWire::new(alloc, Vec::new(alloc), 1, 4000, Vec::new(alloc))?;
    Ok(run_kept(rt, alloc, &asked, 1, files, &mut notes, &OpenGate).number())
}

// Asserts that a run of which so many calls of the wire, and of FILE's medium, go on, and one that goes on from what a crash left of
// it, write what one run does.
fn expect_whole<R: Threads + Sync + AllocGlobal + Abort>(
    rt: &R,
    calls: u64,
    of_file: u64,
) -> Result<(), Memory> {
    let alloc = rt.alloc();
    let mut input = Vec::from_slice(alloc, CLOSING)?;
    input.extend_from_slice(b"*,punct,inf\n")?;
    let medium = MemoryMedium::new(alloc, None, of_file);
    let mut files = MemoryFileWire::new(alloc, input, 9, Vec::new(alloc), medium, calls);
    let _first = run_on(rt, &mut files)?;
    let Some(mut left) = files.crash(0, Vec::new(alloc), 0) else {
        return Err(Memory);
    };
    assert_eq!(rt; run_on(rt, &mut left)?, 0, "{calls} {of_file}");
    assert!(rt; left.output() == CLOSED.as_bytes(), "{calls} {of_file}");
    Ok(())
}

#[test]
fn a_crash_at_each_call_loses_and_doubles_nothing(rt: HostRuntime) -> Result<(), Memory> {
    for number in 0..24 {
        expect_whole(&rt, number, u64::MAX)?;
        expect_whole(&rt, u64::MAX, number)?;
    }
    Ok(())
}

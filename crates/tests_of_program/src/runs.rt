// Whole runs over wires in memory, of which some fail.
use shard_apply::{Gate, OpenGate};
use std::alloc::AllocGlobal;
use std::process::Abort;
use std::thread::Threads;
use tempo_cli::run;
use tw_rows::Memory;
use wire_lines::MemoryWire;

pub(crate) const ALL: &str = "stream s(k text, v int); s";

const FILTER: &str = "stream s(k text, v int); s | where v > 10";

const TWO_INTERVALS: &[u8] = b"s,interval,1,5,a,12\ns,interval,2,4,b,7\n";

pub(crate) const HOP: &str = "stream s(k text, v int); s | hop 20 10";

pub(crate) const CLOSING: &[u8] = b"s,interval,15,16,a,1\n*,punct,17\n";

pub(crate) const CLOSED: &str =
    "*,punct,10\nout,start,10,inf,a,1\nout,end,30,10,a,1\n*,punct,inf\n";

/// What a run is given: its words, and an input that comes in pieces of `step` bytes; the call of number `failing` fails.
#[derive(Clone, Copy)]
pub(crate) struct Given<'a, 'b> {
    pub(crate) words: &'a [&'a str],
    pub(crate) input: &'b [u8],
    pub(crate) step: usize,
    pub(crate) failing: Option<u64>,
}

/// How a run ended: its exit number, what went out over the wire and over the notes, and how often the wire was called.
#[derive(Drop)]
pub(crate) struct Ran {
    pub(crate) number: u8,
    pub(crate) output: Vec<u8>,
    pub(crate) notes: Vec<u8>,
    pub(crate) steps: usize,
}

/// Runs what is given, where shards pass a gate.
pub(crate) fn run_past<R: Threads + Sync + AllocGlobal, G: Gate>(
    rt: &R,
    given: Given,
    gate: &G,
) -> Result<Ran, Memory> {
    let alloc = rt.alloc();
    let mut calls = Vec::new(alloc);
    if let Some(number) = given.failing {
        calls.push(number)?;
    }
    let input = Vec::from_slice(alloc, given.input)?;
    let mut wire = MemoryWire::new(alloc, input, given.step.max(1), 1 << 18, calls)?;
    let mut notes = MemoryWire::new(alloc, Vec::new(alloc), 1, 4000, Vec::new(alloc))?;
    let status = run(rt, alloc, given.words, &mut wire, &mut notes, gate);
    Ok(Ran {
        number: status.number(),
        output: Vec::from_slice(alloc, wire.output())?,
        notes: Vec::from_slice(alloc, notes.output())?,
        steps: wire.steps().len(),
    })
}

/// Runs what is given.
pub(crate) fn run_over<R: Threads + Sync + AllocGlobal>(
    rt: &R,
    given: Given,
) -> Result<Ran, Memory> {
    run_past(rt, given, &OpenGate)
}

/// The exit number of a run, what goes out, and the note.
pub(crate) type Wanted<'a> = (u8, &'a str, &'a str);

/// Asserts how a run ended.
pub(crate) fn check_ran<R: Abort>(rt: &R, ran: &Ran, (number, output, note): Wanted) {
    assert_eq!(rt; ran.number, number, "{output}{note}");
    assert!(rt;
        ran.output.as_slice() == output.as_bytes(),
        "{output}{note}"
    );
    assert!(rt; ran.notes.as_slice() == note.as_bytes(), "{output}{note}");
}

/// Runs what is given, asserts how that ends, and gives how often the wire was called.
pub(crate) fn expect<R: Threads + Sync + AllocGlobal + Abort>(
    rt: &R,
    given: Given,
    wanted: Wanted,
) -> Result<usize, Memory> {
    let ran = run_over(rt, given)?;
    check_ran(rt, &ran, wanted);
    Ok(ran.steps)
}

// A query, its input, the number of a call that fails, and what the run comes to then.
static FAILING: [(&str, &[u8], u64, Wanted<'static>); 8] = [
    (FILTER, TWO_INTERVALS, 0, (8, "", "read failed\n")),
    (FILTER, TWO_INTERVALS, 1, (8, "", "read failed\n")),
    (FILTER, TWO_INTERVALS, 2, (9, "", "write failed\n")),
    (HOP, CLOSING, 0, (8, "", "read failed\n")),
    (HOP, CLOSING, 1, (9, "", "write failed\n")),
    (HOP, CLOSING, 2, (8, "*,punct,10\n", "read failed\n")),
    (HOP, CLOSING, 3, (9, "*,punct,10\n", "write failed\n")),
    (HOP, CLOSING, 4, (0, CLOSED, "")),
];

#[test]
fn a_failed_call_has_its_status(rt: HostRuntime) -> Result<(), Memory> {
    for &(query, input, call, wanted) in FAILING.iter() {
        let given = Given {
            words: &["tempo", "--query", query],
            input,
            step: 65536,
            failing: Some(call),
        };
        expect(&rt, given, wanted)?;
    }
    Ok(())
}

const ADJUSTING: [&str; 9] = [
    "tempo",
    "--query",
    ALL,
    "--late",
    "adjust",
    "--lateness",
    "5",
    "--punctuate",
    "10",
];

// Four lines, of which the last is late where a line may be 5 older than the newest: it says 6, and the bound is 7.
const LATE_LINES: &[u8] =
    b"s,interval,3,20,a,1\ns,interval,12,20,a,2\ns,interval,8,20,a,3\ns,interval,6,20,a,4\n";

const NOTHING: &str = "*,punct,inf\n";

const ONE_LIFE: &str = "out,start,3,inf,a,1\nout,end,20,3,a,1\n*,punct,inf\n";

const TWO_LIVES: &str =
    "out,start,3,inf,a,1\nout,start,12,inf,a,2\nout,end,20,3,a,1\nout,end,20,12,a,2\n*,punct,inf\n";

const THREE_LIVES: &str = "out,start,3,inf,a,1\nout,start,8,inf,a,3\nout,start,12,inf,a,2\n\
    out,end,20,3,a,1\nout,end,20,12,a,2\nout,end,20,8,a,3\n\
    *,punct,inf\n";

const FOUR_LIVES: &str = "out,start,3,inf,a,1\nout,start,7,inf,a,4\nout,start,8,inf,a,3\n\
    out,start,12,inf,a,2\nout,end,20,3,a,1\nout,end,20,12,a,2\n\
    out,end,20,8,a,3\nout,end,20,7,a,4\n*,punct,inf\n";

// What the first bytes of these lines come to, where they are fewer than so many: the exit number, what goes out, and the note.
// A line that is cut off has no kind yet, or too few fields, or no value in column 2, or is whole but for its LF.
static FRONTS: [(usize, Wanted<'static>); 17] = [
    (1, (0, NOTHING, "")),
    (10, (4, "", "line 1: unknown kind\n")),
    (18, (4, "", "line 1: wrong number of fields\n")),
    (19, (4, "", "line 1: bad value in column 2\n")),
    (21, (0, ONE_LIFE, "")),
    (30, (4, "", "line 2: unknown kind\n")),
    (39, (4, "", "line 2: wrong number of fields\n")),
    (40, (4, "", "line 2: bad value in column 2\n")),
    (42, (0, TWO_LIVES, "")),
    (51, (4, "", "line 3: unknown kind\n")),
    (59, (4, "", "line 3: wrong number of fields\n")),
    (60, (4, "", "line 3: bad value in column 2\n")),
    (62, (0, THREE_LIVES, "")),
    (71, (4, "", "line 4: unknown kind\n")),
    (79, (4, "", "line 4: wrong number of fields\n")),
    (80, (4, "", "line 4: bad value in column 2\n")),
    (82, (0, FOUR_LIVES, "")),
];

// The first bytes of these lines, one by one, where a late line starts at the bound.
fn front(count: usize, failing: Option<u64>) -> Given<'static, 'static> {
    Given {
        words: &ADJUSTING,
        input: &LATE_LINES[..count.min(LATE_LINES.len())],
        step: 1,
        failing,
    }
}

#[test]
fn each_front_of_the_input_is_answered(rt: HostRuntime) -> Result<(), Memory> {
    let mut first = 0;
    for &(end, wanted) in FRONTS.iter() {
        for count in first..end {
            expect(&rt, front(count, None), wanted)?;
        }
        first = end;
    }
    assert_eq!(rt; first, LATE_LINES.len() + 1);
    Ok(())
}

#[test]
fn each_call_fails_in_turn(rt: HostRuntime) -> Result<(), Memory> {
    // 81 bytes are read one by one, then the end of the input, and then the output is written.
    for call in 0..84 {
        let wanted = match call {
            0..=81 => (8, "", "read failed\n"),
            82 => (9, "", "write failed\n"),
            _ => (0, FOUR_LIVES, ""),
        };
        let steps = expect(&rt, front(81, Some(call)), wanted)?;
        // No call comes after the one that failed.
        assert_eq!(rt; steps as u64, call.min(83), "call {call}");
    }
    Ok(())
}

// Words that are refused, with what the text of their refusal names, and the help, which names each option.
static REFUSED: [(&[&str], &[&str]); 4] = [
    (&[], &["--query"]),
    (&["tempo", "--query"], &["--query"]),
    (
        &["tempo", "--query", ALL, "--batch", "0"],
        &["--batch", "0"],
    ),
    (
        &["tempo", "--help"],
        &[
            "--query",
            "--mode",
            "--batch",
            "--workers",
            "--late",
            "--lateness",
            "--punctuate",
            "--header",
            "--number",
            "--events",
        ],
    ),
];

#[test]
fn other_words_are_refused(rt: HostRuntime) -> Result<(), Memory> {
    for &(words, names) in REFUSED.iter() {
        let given = Given {
            words,
            input: b"x",
            step: 1,
            failing: None,
        };
        let ran = run_over(&rt, given)?;
        assert_eq!(rt; (ran.number, ran.steps), (2, 0));
        let text = str::from_utf8(&ran.notes).unwrap_or("");
        for &name in names.iter() {
            assert!(rt; text.contains(name), "{name}");
        }
    }
    Ok(())
}

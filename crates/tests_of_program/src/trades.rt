// A run over trades: sums of minutes, joined with those of the minute before.
use crate::rows::expect_cut;
use crate::runs::{Given, expect, run_over, run_past};
use shard_apply::Gate;
use std::alloc::{AllocError, Global};
use std::sync::atomic::{AtomicBool, Ordering};
use tw_rows::Memory;

const MINUTES: &str = "stream trades(sym text, px int, qty int); \
    let g = trades | tumble 60 | group by sym : count as n, sum qty as q; \
    let old = g | delay 60 | select sym, q as q0; g | join old on sym";

// A header, and so many trades, one every 3 seconds, of five symbols in turn; each minute has four of each.
fn input(alloc: Global, count: u64) -> Result<Vec<u8>, AllocError> {
    let mut text = Vec::from_slice(alloc, b"stream,kind,start,end,sym,px,qty\n")?;
    for i in 0..count.min(200) {
        let time = 34200 + 3 * i;
        let (symbol, price, quantity) = (i % 5, 100 + i % 7, 1 + i / 20);
        let line = format!(in alloc;
            "trades,interval,{time},{},S{symbol},{price},{quantity}\n",
            time + 1
        )?;
        text.extend_from_slice(line.as_bytes())?;
    }
    Ok(text)
}

// The first lines that go out: all others are told by the stored run of the program.
const FIRST: &[u8] =
    b"*,punct,34200\n*,punct,34260\nout,start,34260,inf,S0,4,8,4\nout,start,34260,inf,S1,4,8,4\n";

// The words of a run with batches of this size and so many workers.
fn words_for<'a>(batch: &'a str, workers: &'a str) -> [&'a str; 10] {
    [
        "tempo",
        "--query",
        MINUTES,
        "--header",
        "--punctuate",
        "60",
        "--batch",
        batch,
        "--workers",
        workers,
    ]
}

// What is given to a run over the trades.
fn given<'a, 'b>(words: &'a [&'a str], input: &'b [u8]) -> Given<'a, 'b> {
    Given {
        words,
        input,
        step: 65536,
        failing: None,
    }
}

// Sizes of batches with numbers of workers. With a batch of 4096 or more there are shards.
static WAYS: [(&str, &str); 5] = [
    ("1", "1"),
    ("7", "2"),
    ("4096", "8"),
    ("8192", "16"),
    ("4096", "1"),
];

#[test]
fn minutes_are_joined_with_those_before(rt: HostRuntime) -> Result<(), Memory> {
    let input = input(rt.alloc(), 200)?;
    let ran = run_over(&rt, given(&words_for("1024", "1"), &input))?;
    assert!(rt; ran.output.starts_with(FIRST));
    let output = str::from_utf8(&ran.output).unwrap_or("");
    for &(batch, workers) in WAYS.iter() {
        expect(
            &rt,
            given(&words_for(batch, workers), &input),
            (0, output, ""),
        )?;
    }
    Ok(())
}

// The run is frozen after 100 trades, and then resumed.
#[test]
fn minutes_are_cut_in_two(rt: HostRuntime) -> Result<(), Memory> {
    let (first, input) = (input(rt.alloc(), 100)?, input(rt.alloc(), 200)?);
    let words = words_for("1024", "8");
    let given = given(&words, &input);
    let ran = run_over(&rt, given)?;
    let output = str::from_utf8(&ran.output).unwrap_or("");
    expect_cut(&rt, given, first.len(), (0, output, ""))
}

// A gate at which each of two shards, as it first comes, waits for the other, but not without end.
#[derive(Drop)]
struct Meeting {
    came: [AtomicBool; 2],
    met: [AtomicBool; 2],
}

impl Gate for Meeting {
    fn enter(&self, shard: usize) {
        if shard > 1 || self.came[shard].swap(true, Ordering::SeqCst) {
            return;
        }
        for _ in 0..100_000_000u64 {
            if self.came[1 - shard].load(Ordering::SeqCst) {
                self.met[shard].store(true, Ordering::SeqCst);
                return;
            }
        }
    }
}

// Of two shards that ran one after the other, the first would wait in vain.
#[test]
fn two_shards_meet(rt: HostRuntime) -> Result<(), Memory> {
    let gate = Meeting {
        came: [AtomicBool::new(false), AtomicBool::new(false)],
        met: [AtomicBool::new(false), AtomicBool::new(false)],
    };
    let input = input(rt.alloc(), 200)?;
    let ran = run_past(&rt, given(&words_for("7", "2"), &input), &gate)?;
    assert_eq!(rt; ran.number, 0);
    assert!(rt; gate.met[0].load(Ordering::SeqCst) && gate.met[1].load(Ordering::SeqCst));
    Ok(())
}

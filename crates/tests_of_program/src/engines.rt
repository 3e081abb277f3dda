// What an engine tells that it holds, by a call that no run makes.
use admission::{Lateness, Policy};
use plan_model::{Plan, QueryError};
use query_plan::plan;
use query_text::parse;
use shard_apply::OpenGate;
use std::alloc::{AllocError, Global};
use std::process::Abort;
use std::thread::Threads;
use tempo_engine::{Engine, Options};
use tw_rows::Memory;

const GROUP: &str = "stream s(k text, v int); s | group by k : count as n";

fn planned(alloc: Global, text: &str) -> Result<Plan, QueryError> {
    let query = parse(alloc, text)?;
    plan(alloc, &query)
}

const OPTIONS: Options = Options {
    batch: 2,
    workers: 2,
    policy: Policy {
        lateness: 0,
        late: Lateness::Refuse,
        period: 0,
    },
};

// Feeds the line of that number, to which the engine answers with a text.
fn feed<R: Threads + Sync + Abort>(
    rt: &R,
    engine: &mut Engine,
    number: u64,
    (line, text): (&str, &str),
) {
    let bytes = line.as_bytes();
    assert!(rt; bytes.len() <= 65536 && !bytes.contains(&b'\n'));
    match engine.feed_line(rt, &OpenGate, number, bytes) {
        Ok(answer) => assert!(rt; answer.as_slice() == text.as_bytes(), "{line}"),
        Err(_) => panic!(rt; "{line}"),
    }
}

// Feeds one row a second, each of the second after the one before.
fn feed_rows<R: Threads + Sync + Abort>(
    rt: &R,
    alloc: Global,
    engine: &mut Engine,
) -> Result<(), AllocError> {
    for i in 0..10000u64 {
        let line = format!(in alloc; "s,interval,{i},{},a,1", i + 1)?;
        feed(rt, engine, i + 1, (line.as_str(), ""));
    }
    Ok(())
}

// Asserts that the source and the group hold so many, at least and at most.
fn check_held<R: Abort>(
    rt: &R,
    engine: &Engine,
    least: [u64; 2],
    most: [u64; 2],
) -> Result<(), Memory> {
    let held = engine.held()?;
    assert_eq!(rt; held.len(), 2);
    for node in 0..2 {
        assert_eq!(rt; held[node].0, node);
        assert!(rt; (least[node]..=most[node]).contains(&held[node].1));
    }
    Ok(())
}

#[test]
fn an_engine_tells_what_it_holds(rt: HostRuntime) -> Result<(), QueryError> {
    let mut engine = Engine::new(rt.alloc(), planned(rt.alloc(), GROUP)?, OPTIONS)?;
    check_held(&rt, &engine, [0, 0], [0, 0])?;
    // The rows wait at the source, and nothing is kept of them yet by the group.
    feed_rows(&rt, rt.alloc(), &mut engine)?;
    check_held(&rt, &engine, [10000, 0], [u64::MAX, 0])?;
    let punctuation = ("*,punct,10000", "out,start,0,inf,a,1\n*,punct,10000\n");
    feed(&rt, &mut engine, 10001, punctuation);
    // One row has an end that is not below 10000.
    check_held(&rt, &engine, [0, 0], [2, 5])?;
    Ok(())
}

#[test]
fn a_source_alone_has_one_number(rt: HostRuntime) -> Result<(), QueryError> {
    let plan = planned(rt.alloc(), "stream s(k text, v int); s")?;
    let engine = Engine::new(rt.alloc(), plan, OPTIONS)?;
    let held = engine.held()?;
    assert_eq!(rt; held.len(), 1);
    Ok(())
}

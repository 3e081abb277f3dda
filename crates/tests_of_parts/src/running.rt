// Admission of two streams, line by line, and what is told of each line.
ghost use Rattle.std.specs.Prelude.{◌≡◌, [], ◌∷◌, length, IfOk};
ghost use Rattle.tw_rows.specs.declared.kind.CellKind.{CellKind};
ghost use Rattle.ingress.specs.Admits.{cells_of};

use crate::entries::{entry, number, policy, stream, stream_of, time, word, words_of};
use admission::{Admitted, Policy};
use batch::Pools;
use edge_stream::EdgeList;
use ingress::{Ingress, Refusal, slice_end};
use std::alloc::Global;
use tw_rows::{Memory, TextTable, Time};

/// Admission of the streams `s` and `t`, with a column of ints each.
#[derive(Drop)]
pub(crate) struct Run {
    policy: Policy,
    pub(crate) ingress: Ingress,
    ghost cells: { cells_of ingress ≡ (CellKind.Whole ∷ []) ∷ (CellKind.Whole ∷ []) ∷ [] },
    ghost count: { length ingress.kinds.items ≡ 2 },
    ghost capacity: { ingress.capacity ≡ 4 },
}

fn two_streams(alloc: Global, policy: Policy) -> Result<Ingress, Memory>
    ensures cells { IfOk result (λ i.
        cells_of i ≡ (CellKind.Whole ∷ []) ∷ (CellKind.Whole ∷ []) ∷ []) }
    ensures count { IfOk result (λ i. length i.kinds.items ≡ 2) }
    ensures capacity { IfOk result (λ i. i.capacity ≡ 4) }
{
    let s = stream(alloc, "s")?;
    let t = stream(alloc, "t")?;
    Ingress::new(alloc, policy, &[s, t], 4)
}

/// Admission under rules: `two`, or `one` where `t` is closed, so that only `s` holds punctuations back; then what becomes of
/// late lines, the lateness and the period.
pub(crate) fn begun(alloc: Global, rules: &str) -> Result<Run, Memory> {
    let words = words_of(alloc, rules)?;
    let policy = policy(&words);
    let mut run = Run {
        policy,
        ingress: two_streams(alloc, policy)?,
    };
    if word(&words, 0) == "one" {
        let _ = admitted(alloc, &mut run, &["t", "p", "inf"])?;
    }
    Ok(run)
}

/// Admits a line.
pub(crate) fn admitted(
    alloc: Global,
    run: &mut Run,
    words: &[&str],
) -> Result<Result<Admitted, Refusal>, Memory> {
    let entry = entry(alloc, words)?;
    let mut texts = TextTable::new(alloc);
    let mut pools = Pools::new(alloc, 8, 4)?;
    Ok(run.ingress.admit(entry, &mut texts, &mut pools))
}

fn push_number(alloc: Global, out: &mut String, number: u64) -> Result<(), Memory> {
    out.push_str(format!(in alloc; "{number}")?.as_str())?;
    Ok(())
}

fn push_time(alloc: Global, out: &mut String, time: Time) -> Result<(), Memory> {
    match time.get() {
        Some(number) => push_number(alloc, out, number),
        None => {
            out.push_str("inf")?;
            Ok(())
        }
    }
}

fn push_late(alloc: Global, out: &mut String, time: Time, bound: Time) -> Result<(), Memory> {
    out.push_str("late ")?;
    push_time(alloc, out, time)?;
    out.push_str(" below ")?;
    push_time(alloc, out, bound)?;
    out.push_str(",")?;
    Ok(())
}

fn push_refusal(alloc: Global, out: &mut String, refusal: &Refusal) -> Result<(), Memory> {
    match refusal {
        Refusal::NoStart => out.push_str("unmatched")?,
        Refusal::Memory => out.push_str("no memory")?,
        Refusal::Late { time, bound } => push_late(alloc, out, *time, *bound)?,
    }
    Ok(())
}

fn name(answer: Admitted) -> &'static str {
    match answer {
        Admitted::Skipped => "skipped",
        Admitted::Kept => "kept",
        Admitted::Dropped => "dropped",
        Admitted::Emptied => "emptied",
    }
}

// Admits a line and tells the answer.
fn push_answer(
    alloc: Global,
    out: &mut String,
    run: &mut Run,
    words: &[&str],
) -> Result<(), Memory> {
    match admitted(alloc, run, words)? {
        Ok(answer) => out.push_str(name(answer))?,
        Err(refusal) => push_refusal(alloc, out, &refusal)?,
    }
    Ok(())
}

fn count(lists: &[EdgeList]) -> u64 {
    let mut edges: u64 = 0;
    for list in lists {
        edges = edges.wrapping_add(list.len());
    }
    edges
}

// How many edges are released before the time.
fn released(alloc: Global, run: &mut Run, p: Time) -> Result<u64, Memory> {
    if p < run.ingress.released() {
        return Ok(0);
    }
    let mut pools = Pools::new(alloc, 8, 4)?;
    let lists = run.ingress.release(&mut pools, p)?;
    Ok(count(&lists))
}

// Releases at the punctuation that is due, if there is one, and tells of it.
fn push_due(alloc: Global, out: &mut String, run: &mut Run) -> Result<(), Memory> {
    let Some(p) = run.ingress.due() else {
        return Ok(());
    };
    let edges = released(alloc, run, p)?;
    out.push_str(" due ")?;
    push_time(alloc, out, p)?;
    out.push_str(" gives ")?;
    push_number(alloc, out, edges)
}

// Admits a line, and tells the answer, the bound of its stream after it (of `s` where it is of all streams), and the
// punctuation that is due then, with the number of edges that are released at it.
fn push_line(alloc: Global, out: &mut String, run: &mut Run, words: &[&str]) -> Result<(), Memory> {
    push_answer(alloc, out, run, words)?;
    out.push_str(" ")?;
    let bound = run.ingress.bound(stream_of(words).unwrap_or(0));
    push_time(alloc, out, bound)?;
    push_due(alloc, out, run)
}

// Begins anew, and goes on from what is saved, if that can be.
fn resumed(alloc: Global, run: &mut Run) -> Result<&'static str, Memory> {
    let bounds = [run.ingress.bound(0), run.ingress.bound(1)];
    let marks = [run.ingress.mark(0), run.ingress.mark(1)];
    let last = run.ingress.released();
    let saved = run.ingress.save()?;
    run.ingress = two_streams(alloc, run.policy)?;
    match run.ingress.load(&saved, &bounds, &marks, last) {
        Ok(()) => Ok("resumed"),
        Err(_) => Ok("refused"),
    }
}

// Releases the edges before a time, and tells where the first slice of them ends, for each of the sizes of batches that follow
// the time.
fn push_slices(
    alloc: Global,
    out: &mut String,
    run: &mut Run,
    words: &[&str],
) -> Result<(), Memory> {
    let p = time(word(words, 1));
    if p < run.ingress.released() {
        return Ok(());
    }
    let mut pools = Pools::new(alloc, 8, 4)?;
    let lists = run.ingress.release(&mut pools, p)?;
    for i in 2..words.len() {
        push_time(alloc, out, slice_end(&lists, p, number(words[i]) as usize)?)?;
        out.push_str(",")?;
    }
    Ok(())
}

// What is told of a line: at `slices` where slices end, at `held` how much is held, and at `resume` whether what was saved is
// loaded.
fn push_told(alloc: Global, out: &mut String, run: &mut Run, words: &[&str]) -> Result<(), Memory> {
    match word(words, 0) {
        "held" => push_number(alloc, out, run.ingress.held()),
        "slices" => push_slices(alloc, out, run, words),
        "resume" => {
            out.push_str(resumed(alloc, run)?)?;
            Ok(())
        }
        _ => push_line(alloc, out, run, words),
    }
}

// A line again, with what is told of it in place of what was to be told.
fn push_row(alloc: Global, out: &mut String, run: &mut Run, row: &str) -> Result<(), Memory> {
    let Some((line, _)) = row.split_once(" -> ") else {
        return Ok(());
    };
    let words = words_of(alloc, line)?;
    out.push_str(line)?;
    out.push_str(" -> ")?;
    push_told(alloc, out, run, &words)?;
    out.push_str("\n")?;
    Ok(())
}

/// The lines of a sequence, each with what is told of it.
pub(crate) fn told(alloc: Global, rules: &str, lines: &str) -> Result<String, Memory> {
    let mut out = String::new(alloc);
    let mut run = begun(alloc, rules)?;
    for row in lines.split('\n') {
        push_row(alloc, &mut out, &mut run, row)?;
    }
    Ok(out)
}

/// Opens so many starts at 1.
pub(crate) fn open_many(alloc: Global, run: &mut Run, count: u64) -> Result<(), Memory> {
    for _ in 0..count {
        let _ = admitted(alloc, run, &["s", "s", "1", "inf", "1"])?;
    }
    Ok(())
}

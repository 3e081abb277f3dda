// Sequences of lines with what is told of each line, all found by hand.
use crate::running::{admitted, begun, open_many, told};
use ingress::Refusal;
use std::test::Fail;

/// What a sequence shows, the rules under which it begins, and its lines, each with its answer, the bound of its stream after
/// it, and the punctuation that is due then, with the number of edges that are released at it.
static SEQUENCES: [(&str, &str, &str); 49] = [
    (
        "a late line is refused",
        "one refuse 5 10",
        "s i 3 20 1 -> kept 0\n\
         s i 12 20 2 -> kept 7\n\
         s i 8 20 3 -> kept 7\n\
         s i 6 20 4 -> late 6 below 7, 7\n\
         s i 15 20 5 -> kept 10 due 10 gives 2\n",
    ),
    (
        "a late line is dropped",
        "one drop 5 10",
        "s i 3 20 1 -> kept 0\n\
         s i 12 20 2 -> kept 7\n\
         s i 8 20 3 -> kept 7\n\
         s i 6 20 4 -> dropped 7\n\
         s i 15 20 5 -> kept 10 due 10 gives 2\n",
    ),
    (
        "a late line starts at the bound",
        "one adjust 5 10",
        "s i 3 20 1 -> kept 0\n\
         s i 12 20 2 -> kept 7\n\
         s i 8 20 3 -> kept 7\n\
         s i 6 20 4 -> kept 7\n\
         s i 15 20 5 -> kept 10 due 10 gives 3\n",
    ),
    (
        "an end names the start that was given",
        "one refuse 0 0",
        "s s 1 inf 1 -> kept 1\n\
         * p 3 -> kept 3 due 3 gives 1\n\
         s e 4 2 1 -> unmatched 3\n\
         s e 4 1 1 -> kept 4\n",
    ),
    (
        "a start that was moved to the bound can end as it starts",
        "one adjust 0 0",
        "s i 10 12 2 -> kept 10\n\
         s s 4 inf 1 -> kept 10\n\
         held -> 3\n\
         s e 7 4 1 -> emptied 10\n\
         held -> 1\n",
    ),
    (
        "each stream has a bound and a mark of its own",
        "two refuse 0 10",
        "s i 25 30 1 -> kept 25\n\
         t i 5 8 2 -> kept 5\n\
         t i 14 16 3 -> kept 14 due 10 gives 1\n\
         s p 40 -> kept 40\n\
         t p 22 -> kept 22 due 22 gives 1\n\
         t i 3 9 4 -> late 3 below 22, 22\n\
         held -> 1\n",
    ),
    (
        "the lateness is taken off, and a line at the bound is not late",
        "one refuse 3 0",
        "s i 10 11 1 -> kept 7\n\
         s i 7 8 2 -> kept 7\n\
         s i 6 8 3 -> late 6 below 7, 7\n",
    ),
    (
        "a lateness above the sync leaves the bound at 0",
        "one refuse 100 0",
        "s i 10 11 1 -> kept 0\n\
         s i 0 1 2 -> kept 0\n\
         s i 99 101 3 -> kept 0\n\
         s i 101 102 4 -> kept 1\n\
         s i 0 5 5 -> late 0 below 1, 1\n",
    ),
    (
        "the bound never falls",
        "one drop 0 0",
        "s i 9 12 1 -> kept 9\n\
         s i 4 12 2 -> dropped 9\n\
         * p 5 -> kept 9 due 5 gives 0\n",
    ),
    (
        "a punctuation is never late, and is due once",
        "one refuse 0 0",
        "* p 8 -> kept 8 due 8 gives 0\n\
         * p 8 -> kept 8\n\
         * p 3 -> kept 8\n\
         s i 8 9 1 -> kept 8\n\
         s i 7 9 1 -> late 7 below 8, 8\n",
    ),
    (
        "a skipped line makes nothing due",
        "one refuse 0 1",
        "skip -> skipped 0\n\
         s i 4 5 1 -> kept 4 due 4 gives 0\n\
         skip -> skipped 4\n",
    ),
    (
        "a multiple of the period is due where the bound reaches it",
        "one refuse 0 10",
        "s i 9 30 1 -> kept 9\n\
         s i 10 30 2 -> kept 10 due 10 gives 1\n\
         s i 19 30 3 -> kept 19\n\
         s i 31 32 4 -> kept 31 due 30 gives 2\n\
         s i 31 40 5 -> kept 31\n",
    ),
    (
        "of several multiples of the period the last is due",
        "one refuse 0 10",
        "s i 57 60 1 -> kept 57 due 50 gives 0\n\
         s i 59 60 1 -> kept 59\n",
    ),
    (
        "a line at the bound is not dropped",
        "one drop 0 0",
        "s i 5 6 1 -> kept 5\n\
         s i 5 7 2 -> kept 5\n\
         s i 4 7 2 -> dropped 5\n\
         held -> 2\n",
    ),
    (
        "a life that ends at the bound is empty",
        "one adjust 0 0",
        "s i 20 30 1 -> kept 20\n\
         s i 5 20 2 -> emptied 20\n\
         s i 5 21 3 -> kept 20\n\
         s i 5 8 4 -> emptied 20\n\
         held -> 2\n",
    ),
    (
        "a start at infinity stays open, and makes no row",
        "one adjust 0 0",
        "* p inf -> kept inf due inf gives 0\n\
         s i 5 inf 1 -> emptied inf\n\
         s s 5 inf 1 -> emptied inf\n\
         held -> 1\n\
         s e 9 5 1 -> emptied inf\n\
         s e 9 5 1 -> unmatched inf\n",
    ),
    (
        "an interval without an end is one edge",
        "one refuse 0 0",
        "s i 3 inf 1 -> kept 3\n\
         held -> 1\n\
         * p 10 -> kept 10 due 10 gives 1\n\
         held -> 0\n",
    ),
    (
        "a start and its end are released at their own times",
        "one refuse 0 0",
        "s s 2 inf 1 -> kept 2\n\
         held -> 2\n\
         s e 6 2 1 -> kept 6\n\
         held -> 2\n\
         * p 6 -> kept 6 due 6 gives 1\n\
         * p 7 -> kept 7 due 7 gives 1\n",
    ),
    (
        "of alike starts the first is closed",
        "one adjust 0 0",
        "s s 4 inf 1 -> kept 4\n\
         s i 9 10 2 -> kept 9\n\
         s s 4 inf 1 -> kept 9\n\
         s e 9 4 1 -> kept 9\n\
         s e 9 4 1 -> emptied 9\n\
         s e 9 4 1 -> unmatched 9\n",
    ),
    (
        "a late end is refused, and its start stays open",
        "one refuse 0 0",
        "s s 2 inf 1 -> kept 2\n\
         s i 8 9 2 -> kept 8\n\
         s e 5 2 1 -> late 5 below 8, 8\n\
         s e 8 2 1 -> kept 8\n",
    ),
    (
        "whether an end is late is asked before its start",
        "one refuse 0 0",
        "s i 8 9 2 -> kept 8\n\
         s e 5 2 1 -> late 5 below 8, 8\n\
         s e 8 2 1 -> unmatched 8\n",
    ),
    (
        "a late end closes at the bound",
        "one drop 0 0",
        "s s 2 inf 1 -> kept 2\n\
         s i 8 9 2 -> kept 8\n\
         s e 5 2 1 -> kept 8\n\
         * p 8 -> kept 8 due 8 gives 1\n\
         * p 9 -> kept 9 due 9 gives 2\n",
    ),
    (
        "a dropped start finds its end",
        "one drop 0 0",
        "s i 8 9 2 -> kept 8\n\
         s s 3 inf 1 -> dropped 8\n\
         held -> 2\n\
         s e 12 3 1 -> dropped 12\n\
         held -> 1\n\
         s e 12 3 1 -> unmatched 12\n",
    ),
    (
        "a start that was kept is closed before a later one that was dropped",
        "one drop 0 0",
        "s s 3 inf 1 -> kept 3\n\
         s i 8 9 2 -> kept 8\n\
         s s 3 inf 1 -> dropped 8\n\
         s e 10 3 1 -> kept 10\n\
         s e 10 3 1 -> dropped 10\n",
    ),
    (
        "an end of another row finds no start",
        "one refuse 0 0",
        "s s 3 inf 1 -> kept 3\n\
         s e 5 3 2 -> unmatched 3\n\
         s e 5 3 1 -> kept 5\n",
    ),
    (
        "an end of another stream finds no start",
        "two refuse 0 0",
        "s s 3 inf 1 -> kept 3\n\
         t e 5 3 1 -> unmatched 0\n\
         s e 5 3 1 -> kept 5\n",
    ),
    (
        "what is late in one stream is not in the other",
        "two refuse 0 0",
        "s i 10 12 1 -> kept 10\n\
         t i 3 4 2 -> kept 3\n\
         s i 9 12 3 -> late 9 below 10, 10\n\
         t i 9 12 3 -> kept 9\n",
    ),
    (
        "a punctuation of all streams raises each bound",
        "two refuse 0 0",
        "* p 6 -> kept 6 due 6 gives 0\n\
         t i 5 9 1 -> late 5 below 6, 6\n\
         s i 5 9 1 -> late 5 below 6, 6\n",
    ),
    (
        "a punctuation of a stream raises its bound alone",
        "two refuse 0 0",
        "s p 9 -> kept 9\n\
         t i 2 3 1 -> kept 2\n\
         t p 4 -> kept 4 due 4 gives 1\n\
         s i 8 9 1 -> late 8 below 9, 9\n",
    ),
    (
        "events raise no mark",
        "two refuse 0 0",
        "s i 50 51 1 -> kept 50\n\
         t i 60 61 2 -> kept 60\n\
         s p 20 -> kept 50\n\
         t p 30 -> kept 60 due 20 gives 0\n",
    ),
    (
        "the period goes by the least bound",
        "two adjust 2 5",
        "s i 12 20 1 -> kept 10\n\
         t i 9 20 2 -> kept 7 due 5 gives 0\n\
         t i 6 20 3 -> kept 7\n\
         t i 17 20 4 -> kept 15 due 10 gives 2\n",
    ),
    (
        "a stream without lines holds the others back",
        "two refuse 0 10",
        "s i 100 101 1 -> kept 100\n\
         s i 200 201 2 -> kept 200\n\
         held -> 2\n\
         t p inf -> kept inf due 200 gives 1\n\
         held -> 1\n",
    ),
    (
        "at infinity all is released",
        "one refuse 0 10",
        "s i 5 6 1 -> kept 5\n\
         s s 6 inf 2 -> kept 6\n\
         * p inf -> kept inf due inf gives 2\n\
         held -> 1\n",
    ),
    (
        "edges of one time are released together",
        "one refuse 0 0",
        "s i 4 9 1 -> kept 4\n\
         s i 4 9 1 -> kept 4\n\
         s i 4 9 2 -> kept 4\n\
         held -> 3\n\
         * p 4 -> kept 4 due 4 gives 0\n\
         * p 5 -> kept 5 due 5 gives 3\n",
    ),
    (
        "lines within the lateness may come in any order",
        "one refuse 10 0",
        "s i 12 20 1 -> kept 2\n\
         s i 5 20 2 -> kept 2\n\
         s i 3 20 3 -> kept 2\n\
         s i 8 20 4 -> kept 2\n\
         s i 12 20 5 -> kept 2\n\
         held -> 5\n\
         * p 6 -> kept 6 due 6 gives 2\n\
         * p 12 -> kept 12 due 12 gives 1\n\
         * p 13 -> kept 13 due 13 gives 2\n",
    ),
    (
        "a start that was moved to the bound may end later",
        "one adjust 0 0",
        "s i 10 12 2 -> kept 10\n\
         s s 4 inf 1 -> kept 10\n\
         s e 13 4 1 -> kept 13\n\
         * p 20 -> kept 20 due 20 gives 3\n",
    ),
    (
        "of two starts that were moved to the bound and end there one is left",
        "one adjust 0 0",
        "s i 10 12 2 -> kept 10\n\
         s s 4 inf 1 -> kept 10\n\
         s s 4 inf 1 -> kept 10\n\
         s e 7 4 1 -> emptied 10\n\
         * p 20 -> kept 20 due 20 gives 2\n\
         held -> 1\n",
    ),
    (
        "the last event time",
        "one refuse 0 0",
        "s i 1152921504606846975 inf 1 -> kept 1152921504606846975\n\
         * p inf -> kept inf due inf gives 1\n",
    ),
    (
        "the first event time",
        "one refuse 0 0",
        "s i 0 1 1 -> kept 0\n\
         s s 0 inf 2 -> kept 0\n\
         s e 1 0 2 -> kept 1\n\
         * p 1 -> kept 1 due 1 gives 2\n",
    ),
    (
        "an end raises the bound by its own time",
        "one refuse 2 0",
        "s s 5 inf 1 -> kept 3\n\
         s e 9 5 1 -> kept 7\n\
         s i 6 8 2 -> late 6 below 7, 7\n",
    ),
    (
        "a start that was refused is not there",
        "one refuse 0 0",
        "s i 8 9 1 -> kept 8\n\
         s s 7 inf 1 -> late 7 below 8, 8\n\
         s e 9 7 1 -> unmatched 8\n\
         held -> 1\n",
    ),
    (
        "the late end of a dropped start is dropped",
        "one drop 0 0",
        "s i 8 9 2 -> kept 8\n\
         s s 3 inf 1 -> dropped 8\n\
         s e 5 3 1 -> dropped 8\n\
         held -> 1\n",
    ),
    (
        "punctuations that are due rise, by the period or by a line",
        "one refuse 0 5",
        "s i 12 13 1 -> kept 12 due 10 gives 0\n\
         * p 11 -> kept 12 due 11 gives 0\n\
         * p 13 -> kept 13 due 13 gives 1\n\
         s i 16 17 1 -> kept 16 due 15 gives 0\n",
    ),
    (
        "a late start of a stream starts at the bound of that stream",
        "two adjust 0 0",
        "s i 30 31 1 -> kept 30\n\
         t i 10 11 1 -> kept 10\n\
         t s 4 inf 1 -> kept 10\n\
         t e 11 4 1 -> kept 11\n\
         s p 12 -> kept 30\n\
         t p 12 -> kept 12 due 12 gives 3\n\
         held -> 1\n",
    ),
    (
        "starts and edges go on as before",
        "one adjust 0 0",
        "s s 4 inf 1 -> kept 4\n\
         s i 6 20 1 -> kept 6\n\
         s s 7 inf 1 -> kept 7\n\
         held -> 5\n\
         resume -> resumed\n\
         held -> 5\n\
         s e 9 4 1 -> kept 9\n\
         s e 12 4 1 -> unmatched 9\n\
         * p 7 -> kept 9 due 7 gives 2\n\
         held -> 3\n",
    ),
    (
        "bounds and marks go on as before",
        "two refuse 0 10",
        "s i 25 30 1 -> kept 25\n\
         t i 5 8 2 -> kept 5\n\
         s p 40 -> kept 40\n\
         resume -> resumed\n\
         t p 22 -> kept 22 due 22 gives 1\n\
         s i 39 41 1 -> late 39 below 40, 40\n\
         held -> 1\n",
    ),
    (
        "dropped starts go on as before",
        "one drop 0 0",
        "s i 8 9 2 -> kept 8\n\
         s s 3 inf 1 -> dropped 8\n\
         resume -> resumed\n\
         s e 12 3 1 -> dropped 12\n\
         held -> 1\n",
    ),
    (
        "a slice ends where its batch is full, or behind the edges of one time",
        "one refuse 0 0",
        "s s 1 inf 1 -> kept 1\n\
         s s 1 inf 2 -> kept 1\n\
         s s 2 inf 3 -> kept 2\n\
         s s 5 inf 4 -> kept 5\n\
         slices 9 1 3 4 -> 2,5,9,\n",
    ),
    (
        "starts that were moved to the bound go on as before",
        "one adjust 0 0",
        "s i 10 12 2 -> kept 10\n\
         s s 4 inf 1 -> kept 10\n\
         resume -> resumed\n\
         s e 7 4 1 -> emptied 10\n\
         held -> 1\n",
    ),
];

#[test]
fn sequences_are_answered(rt: HostRuntime) -> Result<(), Fail> {
    for &(shows, rules, lines) in SEQUENCES.iter() {
        let told = told(rt.alloc(), rules, lines)?;
        assert!(rt; told.as_str() == lines, "{shows}: {told}");
    }
    Ok(())
}

#[test]
fn none_of_many_starts_is_closed(rt: HostRuntime) -> Result<(), Fail> {
    let alloc = rt.alloc();
    let mut run = begun(alloc, "one refuse 0 0")?;
    open_many(alloc, &mut run, 100_000)?;
    let answer = admitted(alloc, &mut run, &["s", "e", "5", "2", "1"])?;
    assert!(rt; answer == Err(Refusal::NoStart));
    assert!(rt; run.ingress.held() == 200_000);
    Ok(())
}

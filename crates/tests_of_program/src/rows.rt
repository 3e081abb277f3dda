// Whole runs of worked examples: each kind of node and of fault, and runs that a checkpoint cuts in two.
use crate::runs::{Given, Ran, Wanted, check_ran, expect, run_over};
use std::alloc::AllocGlobal;
use std::process::Abort;
use std::thread::Threads;
use tw_rows::Memory;

/// A run in words: a query, its further options, the lines that come in, and how it ends.
#[derive(Clone, Copy)]
pub(crate) struct Row {
    pub(crate) query: &'static str,
    pub(crate) options: &'static str,
    pub(crate) input: &'static str,
    pub(crate) wanted: Wanted<'static>,
}

/// The row of a text: a line of what it shows, or of nothing; the query; its options, if a line begins with `--`; the lines that
/// come in, of which the last has no LF where `=>` stands behind it; the exit number behind `=>`; what goes out; and the note
/// behind `!>`, if there is one.
pub(crate) fn row_of(text: &'static str) -> Option<Row> {
    let (_, text) = text.split_once('\n')?;
    let (query, text) = text.split_once('\n')?;
    let (options, text) = if text.starts_with("--") {
        text.split_once('\n')?
    } else {
        ("", text)
    };
    let (input, text) = text.split_once("=> ")?;
    let (number, text) = text.split_once('\n')?;
    let (output, note) = text.split_once("!> ").unwrap_or((text, ""));
    let number = number.parse::<u8>().ok()?;
    Some(Row {
        query,
        options,
        input,
        wanted: (number, output, note),
    })
}

// Runs of each kind of node and of fault, which come out so for any number of workers and any size of batches.
const ROWS: &str = "
stream s(k text, v int); s | group : count as n
s,interval,1,5,a,1
s,interval,3,8,a,1
=> 0
out,start,1,inf,1
out,end,3,1,1
out,start,3,inf,2
out,end,5,3,2
out,start,5,inf,1
out,end,8,5,1
*,punct,inf
----
stream s(k text, v int); s
s,interval,1,9,a,1
s,interval,3,6,a,1
=> 0
out,start,1,inf,a,1
out,start,3,inf,a,1
out,end,6,1,a,1
out,end,9,3,a,1
*,punct,inf
----
stream s(k text, v int); s
s,start,1,inf,a,1
=> 0
out,start,1,inf,a,1
*,punct,inf
----
stream s(k text, v int); s | tumble 10
s,interval,1,9,a,1
s,interval,9,12,a,1
=> 0
out,start,0,inf,a,1
out,start,0,inf,a,1
out,end,10,0,a,1
out,end,10,0,a,1
*,punct,inf
----
stream s(k text, v int); s | union s
s,interval,1,4,a,1
=> 0
out,start,1,inf,a,1
out,start,1,inf,a,1
out,end,4,1,a,1
out,end,4,1,a,1
*,punct,inf
----
stream s(k text, v int); s | tumble 10 | group : count as n
s,interval,3,4,a,1
s,interval,9,10,a,1
s,interval,10,11,a,1
=> 0
out,start,0,inf,2
out,end,10,0,2
out,start,10,inf,1
out,end,20,10,1
*,punct,inf
----
stream s(k text, v int); s | group : min v as lo, max v as hi
s,interval,0,4,a,5
s,interval,2,6,b,-3
=> 0
out,start,0,inf,5,5
out,end,2,0,5,5
out,start,2,inf,-3,5
out,end,4,2,-3,5
out,start,4,inf,-3,-3
out,end,6,4,-3,-3
*,punct,inf
----
stream s(k text, v int); s | hop 20 10
s,interval,15,16,a,1
*,punct,17
=> 0
*,punct,10
out,start,10,inf,a,1
out,end,30,10,a,1
*,punct,inf
----
stream s(k text, v int); s | session 5 by k
s,interval,1,2,a,1
s,interval,4,5,a,2
s,interval,9,10,a,3
=> 0
out,start,1,inf,a,1
out,start,4,inf,a,2
out,end,9,1,a,1
out,end,9,4,a,2
out,start,9,inf,a,3
out,end,14,9,a,3
*,punct,inf
----
stream s(k text, v int); s | group : sum v as t
s,interval,0,5,a,9223372036854775807
s,interval,5,9,a,1
=> 0
out,start,0,inf,9223372036854775807
out,end,5,0,9223372036854775807
out,start,5,inf,1
out,end,9,5,1
*,punct,inf
----
stream s(k text, v int); s | group : sum v as t
s,interval,0,6,a,9223372036854775807
s,interval,5,9,a,1
=> 6
!> node 1: overflow at 5, closing inf
----
stream s(k text, v int); s | group : sum v as t
s,interval,0,5,a,-1
s,interval,0,5,b,1
s,interval,0,5,c,9223372036854775807
=> 0
out,start,0,inf,9223372036854775807
out,end,5,0,9223372036854775807
*,punct,inf
----
stream l(k text, w int); stream r(k text, x int); l | join r on k
l,interval,1,7,a,1
r,interval,3,7,a,2
=> 0
out,start,3,inf,a,1,2
out,end,7,3,a,1,2
*,punct,inf
----
stream l(k text, w int); stream r(k text, x int); l | anti r on k
l,interval,2,9,a,1
r,interval,4,6,a,7
r,interval,6,8,a,8
=> 0
out,start,2,inf,a,1
out,end,4,2,a,1
out,start,8,inf,a,1
out,end,9,8,a,1
*,punct,inf
----
stream l(k text, w int); stream r(k text, x int); l | clip r on k
l,interval,3,20,a,1
r,interval,3,4,a,0
r,interval,8,9,a,0
=> 0
out,start,3,inf,a,1
out,end,8,3,a,1
*,punct,inf
----
stream s(k text, v int); s | duration 3 | delay 2
s,interval,5,100,a,1
=> 0
out,start,7,inf,a,1
out,end,10,7,a,1
*,punct,inf
----
stream s(k text, v int); s | extend 4
s,interval,5,9,a,1
=> 0
out,start,5,inf,a,1
out,end,13,5,a,1
*,punct,inf
----
stream s(k text, v int); s | delay 7
*,punct,3
=> 0
*,punct,10
*,punct,inf
----
stream out(n int); out
out,start,1,inf,1
out,end,3,1,1
out,start,3,inf,2
out,end,5,3,2
out,start,5,inf,1
out,end,8,5,1
*,punct,inf
out,start,9,inf,3
=> 5
out,start,1,inf,1
out,end,3,1,1
out,start,3,inf,2
out,end,5,3,2
out,start,5,inf,1
out,end,8,5,1
*,punct,inf
!> line 8: late, 9 below inf
----
stream s(k text, v int); s
s,interval,1,2,\"a,b\",-3
=> 0
out,start,1,inf,\"a,b\",-3
out,end,2,1,\"a,b\",-3
*,punct,inf
----
stream s(t text, i int, d dec(2), b bool, u text); s
s,interval,0,inf,\"a,b\",-5,-0.05,true,\"c\"\"d\"
=> 0
out,start,0,inf,\"a,b\",-5,-0.05,true,\"c\"\"d\"
*,punct,inf
----
stream s(p dec(2), q int); s | where p >= 1.50 | select p * q as t, q
s,interval,0,5,1.50,3
s,interval,0,5,1.49,9
s,interval,1,5,-0.05,1
=> 0
out,start,0,inf,4.50,3
out,end,5,0,4.50,3
*,punct,inf
----
stream s(p dec(2), q int); s | where p >= 1.50 | select p * q as t, q
s,interval,0,5,1.5,3
=> 4
!> line 1: bad value in column 1
----
stream s(p dec(2), q int); s | where p >= 1.50 | select p * q as t, q
s,interval,0,5,-0.00,3
=> 4
!> line 1: bad value in column 1
----
stream s(p dec(2), q int); s | where p >= 1.50 | select p * q as t, q
s,interval,0,5,-92233720368547758.08,3
s,interval,0,5,1.49,9
=> 0
*,punct,inf
----
stream s(p dec(2), q int); s | where p > 1.5
=> 3
!> query: type clash in item 2
----
stream l(k text, w int); stream r(k text, x int); l | left r on k else -1
l,interval,1,7,a,1
r,interval,3,5,a,2
=> 0
out,start,1,inf,a,1,-1
out,end,3,1,a,1,-1
out,start,3,inf,a,1,2
out,end,5,3,a,1,2
out,start,5,inf,a,1,-1
out,end,7,5,a,1,-1
*,punct,inf
----
stream s(k text, v int); s | group : count as n | coalesce | duration 2
s,interval,1,5,a,1
s,interval,3,8,a,1
=> 0
out,start,1,inf,1
out,end,3,1,1
out,start,3,inf,2
out,end,5,3,2
out,start,5,inf,1
out,end,7,5,1
*,punct,inf
----
stream s(k text, v int); s | coalesce | tumble 10
s,interval,1,9,a,1
s,interval,9,12,a,1
=> 0
out,start,0,inf,a,1
out,end,10,0,a,1
*,punct,inf
----
stream s(k text, v int); s | group : avg v as m
s,interval,0,4,a,-3
s,interval,2,6,b,0
=> 0
out,start,0,inf,-3
out,end,2,0,-3
out,start,2,inf,-2
out,end,4,2,-2
out,start,4,inf,0
out,end,6,4,0
*,punct,inf
----
stream s(k text, v int); s | top 1 by v
s,interval,1,5,a,3
s,interval,3,8,b,7
s,interval,4,6,c,7
=> 0
out,start,1,inf,a,3
out,end,3,1,a,3
out,start,3,inf,b,7
out,start,4,inf,c,7
out,end,6,4,c,7
out,end,8,3,b,7
*,punct,inf
----
stream l(k text, w int); stream r(k text, x int); l | follow r on k within 5
l,interval,1,2,a,1
r,interval,1,2,a,7
r,interval,4,5,a,8
r,interval,5,6,a,9
l,interval,10,11,a,2
r,interval,15,16,a,3
=> 0
out,start,4,inf,a,1,8
out,end,6,4,a,1,8
*,punct,inf
----
stream s(k text, v int); s
=> 0
*,punct,inf
---- A CR at the end of a line, an empty line, and a last line without LF.
stream s(k text, v int); s | where v > 10
s,interval,1,5,a,12\r

s,interval,2,4,b,7=> 0
out,start,1,inf,a,12
out,end,5,1,a,12
*,punct,inf
---- What is due is written before the fault of a later line, even in one piece.
stream s(k text, v int); s
s,start,1,inf,a,1
*,punct,3
s,end,4,2,a,1
=> 4
out,start,1,inf,a,1
*,punct,3
!> line 3: no open start
----
stream s(k text, v int); s
s,interval,3,5,a,1
s,interval,2,5,a,1
=> 5
!> line 2: late, 2 below 3
----
stream s(k text, v int); s
s,interval,1,9,a,1
*,punct,3
=> 0
out,start,1,inf,a,1
*,punct,3
out,end,9,1,a,1
*,punct,inf
---- Two groups whose sums pass the greatest number: node 3 from 2 on, and node 1 from 8 on. The lowest node is told.
stream s(k text, v int); let a = s | group : sum v as t; s | where v > 0 | group : sum v as u | union a
s,interval,0,8,a,-10
s,interval,1,20,a,9223372036854775807
s,interval,2,20,b,5
=> 6
!> node 1: overflow at 8, closing inf
---- Fields in quotes, an empty text, a CR at the ends of lines, the ends of the ints, and a text of other characters.
stream s(k text, v int); s
\r
s,interval,0,1,,0\r
\"s\",\"interval\",\"1\",\"2\",\"a\",\"1\"
s,interval,7,inf,a,9223372036854775807
s,interval,7,9,\"a\"\"b\",-9223372036854775808
s,interval,8,9,\"\"\"\",1
s,interval,9,11,\u{feff}é\0 ,1
=> 0
out,start,0,inf,,0
out,end,1,0,,0
out,start,1,inf,a,1
out,end,2,1,a,1
out,start,7,inf,a,9223372036854775807
out,start,7,inf,\"a\"\"b\",-9223372036854775808
out,start,8,inf,\"\"\"\",1
out,end,9,8,\"\"\"\",1
out,end,9,7,\"a\"\"b\",-9223372036854775808
out,start,9,inf,\u{feff}é\0 ,1
out,end,11,9,\u{feff}é\0 ,1
*,punct,inf
---- The last two times.
stream s(k text, v int); s
s,interval,1152921504606846974,1152921504606846975,a,1
s,interval,1152921504606846975,inf,a,2
=> 0
out,start,1152921504606846974,inf,a,1
out,end,1152921504606846975,1152921504606846974,a,1
out,start,1152921504606846975,inf,a,2
*,punct,inf
----
stream s(k text, v int); s
*,punct,0
s,start,4,inf,a,1
s,end,5,4,a,1
\"*\",\"punct\",\"17\"
s,punct,18
*,punct,1152921504606846975
*,punct,inf
=> 0
out,start,4,inf,a,1
out,end,5,4,a,1
*,punct,17
*,punct,18
*,punct,1152921504606846975
*,punct,inf
----
stream t(f bool, g bool, h text); t
t,interval,1,2,true,false,x y
=> 0
out,start,1,inf,true,false,x y
out,end,2,1,true,false,x y
*,punct,inf
----
stream d(p dec(2), q int); d
d,interval,0,5,1.50,3
d,interval,1,5,0.00,3
d,interval,2,6,-0.05,3
d,interval,3,7,\"12.34\",3
d,interval,4,8,-92233720368547758.08,3
d,interval,5,9,92233720368547758.07,3
=> 0
out,start,0,inf,1.50,3
out,start,1,inf,0.00,3
out,start,2,inf,-0.05,3
out,start,3,inf,12.34,3
out,start,4,inf,-92233720368547758.08,3
out,end,5,1,0.00,3
out,end,5,0,1.50,3
out,start,5,inf,92233720368547758.07,3
out,end,6,2,-0.05,3
out,end,7,3,12.34,3
out,end,8,4,-92233720368547758.08,3
out,end,9,5,92233720368547758.07,3
*,punct,inf
---- Each operator, and which of two binds closer.
stream s(a int, b int, c int, u bool, t text); s | select a - b - c as a, a * b div 7 mod 3 + 1 as b, (a + 1) * 2 - -3 div 4 mod 5 as c, - - 2 as d, u or u and not u as e, (u or u) and not u as f, not not u as g, t = 'it''s' as h, t <> '''' as i, false or a < b or a = b as j, a <= 10 as k, a > 10 as l, a >= b as m, not a = b as n, false <> true as o, -0.25 as p
s,interval,1,2,10,3,2,true,it's
=> 0
out,start,1,inf,5,2,18,2,true,false,true,true,true,false,true,false,true,true,true,-0.25
out,end,2,1,5,2,18,2,true,false,true,true,true,false,true,false,true,true,true,-0.25
*,punct,inf
----
stream l(k text); stream r(k text, x int, y dec(1)); l | left r on k else -1, 2.5
l,interval,1,3,a
=> 0
out,start,1,inf,a,-1,2.5
out,end,3,1,a,-1,2.5
*,punct,inf
----
stream s(k text, g int, v int); s | top 1 per k, g by v
s,interval,1,5,a,1,3
s,interval,2,4,a,2,7
s,interval,3,4,a,1,9
=> 0
out,start,1,inf,a,1,3
out,start,2,inf,a,2,7
out,end,3,1,a,1,3
out,start,3,inf,a,1,9
out,end,4,3,a,1,9
out,end,4,2,a,2,7
out,start,4,inf,a,1,3
out,end,5,4,a,1,3
*,punct,inf
----
stream s(k text, v int); s | group by k : sum v as a, min v as b, max v as c, count as n, avg v as m
s,interval,1,4,a,3
s,interval,2,4,a,-6
s,interval,2,3,b,1
=> 0
out,start,1,inf,a,3,3,3,1,3
out,end,2,1,a,3,3,3,1,3
out,start,2,inf,a,-3,-6,3,2,-2
out,start,2,inf,b,1,1,1,1,1
out,end,3,2,b,1,1,1,1,1
out,end,4,2,a,-3,-6,3,2,-2
*,punct,inf
---- The end of a start that is extended.
stream s(k text, v int); s | extend 4
s,start,2,inf,a,2
s,interval,3,5,a,1
s,end,6,2,a,2
=> 0
out,start,2,inf,a,2
out,start,3,inf,a,1
out,end,9,3,a,1
out,end,10,2,a,2
*,punct,inf
---- Of two lives that end at 9 one goes on.
stream s(k text, v int); s | coalesce
s,interval,1,9,a,7
s,interval,1,9,a,7
s,interval,2,3,a,5
s,interval,9,12,a,7
=> 0
out,start,1,inf,a,7
out,start,1,inf,a,7
out,start,2,inf,a,5
out,end,3,2,a,5
out,end,9,1,a,7
out,end,12,1,a,7
*,punct,inf
---- Both rows of 5 are shown, since one row is greater; from 3 to 6 two are.
stream s(k text, v int); s | top 2 by v
s,interval,1,20,a,9
s,interval,1,10,a,5
s,interval,1,10,a,5
s,interval,3,6,a,9
=> 0
out,start,1,inf,a,5
out,start,1,inf,a,5
out,start,1,inf,a,9
out,end,3,1,a,5
out,end,3,1,a,5
out,start,3,inf,a,9
out,end,6,1,a,9
out,start,6,inf,a,5
out,start,6,inf,a,5
out,end,10,6,a,5
out,end,10,6,a,5
out,end,20,3,a,9
*,punct,inf
---- Sessions of two keys.
stream s(k text, v int); s | session 5 by k
s,interval,1,2,g,1
s,interval,4,5,g,2
s,interval,8,9,e,3
s,interval,9,10,g,4
=> 0
out,start,1,inf,g,1
out,start,4,inf,g,2
out,start,8,inf,e,3
out,end,9,1,g,1
out,end,9,4,g,2
out,start,9,inf,g,4
out,end,13,8,e,3
out,end,14,9,g,4
*,punct,inf
---- A partner is followed by another, and a row without partners.
stream l(k text, w int); stream r(k text, x int); l | anti r on k
l,interval,2,9,a,7
l,interval,3,10,b,5
r,start,4,inf,a,1
r,end,6,4,a,1
r,interval,6,8,a,2
=> 0
out,start,2,inf,a,7
out,start,3,inf,b,5
out,end,4,2,a,7
out,start,8,inf,a,7
out,end,9,8,a,7
out,end,10,3,b,5
*,punct,inf
---- A row is clipped once, by a later start of its key.
stream l(k text, w int); stream r(k text, x int); l | clip r on k
l,interval,3,99,a,7
r,start,3,inf,a,0
l,interval,4,99,b,5
r,start,8,inf,a,0
=> 0
out,start,3,inf,a,7
out,start,4,inf,b,5
out,end,8,3,a,7
out,end,99,4,b,5
*,punct,inf
";

// The sizes of the pieces in which the input comes, of batches, and the numbers of workers.
static WAYS: [(usize, &str, &str); 3] = [
    (1, "1024", "1"),
    (65536, "1", "4"),
    (65536, "4096", "16"),
];

#[test]
fn worked_rows_come_out(rt: HostRuntime) -> Result<(), Memory> {
    for text in ROWS.split("----") {
        let Some(row) = row_of(text) else {
            panic!(rt; "no row: {text}");
        };
        for &(step, batch, workers) in WAYS.iter() {
            let given = Given {
                words: &[
                    "tempo",
                    "--query",
                    row.query,
                    "--batch",
                    batch,
                    "--workers",
                    workers,
                ],
                input: row.input.as_bytes(),
                step,
                failing: None,
            };
            expect(&rt, given, row.wanted)?;
        }
    }
    Ok(())
}

// Runs what is given in another mode, over another input.
fn run_in<R: Threads + Sync + AllocGlobal>(
    rt: &R,
    given: Given,
    mode: &'static str,
    input: &[u8],
) -> Result<Ran, Memory> {
    let mut words = Vec::from_slice(rt.alloc(), given.words)?;
    words.extend_from_slice(&["--mode", mode])?;
    let given = Given {
        words: &words,
        input,
        step: given.step,
        failing: None,
    };
    run_over(rt, given)
}

/// Asserts that a run that is frozen behind so many bytes of its input, and then resumed with the others, comes out as one run.
pub(crate) fn expect_cut<R: Threads + Sync + AllocGlobal + Abort>(
    rt: &R,
    given: Given,
    at: usize,
    wanted: Wanted,
) -> Result<(), Memory> {
    let (before, behind) = given.input.split_at(at.min(given.input.len()));
    let frozen = run_in(rt, given, "freeze", before)?;
    if frozen.number != 0 {
        check_ran(rt, &frozen, wanted);
        return Ok(());
    }
    let Some(start) = frozen.output.iter().position(|byte| *byte == b'#') else {
        panic!(rt; "no checkpoint");
    };
    let (text, checkpoint) = frozen.output.split_at(start);
    let mut lines = Vec::from_slice(rt.alloc(), checkpoint)?;
    lines.extend_from_slice(behind)?;
    let mut resumed = run_in(rt, given, "resume", &lines)?;
    let mut output = Vec::from_slice(rt.alloc(), text)?;
    output.extend_from_slice(&resumed.output)?;
    resumed.output = output;
    check_ran(rt, &resumed, wanted);
    Ok(())
}

#[test]
fn worked_rows_are_cut_in_two(rt: HostRuntime) -> Result<(), Memory> {
    for text in ROWS.split("----") {
        let Some(row) = row_of(text) else {
            panic!(rt; "no row: {text}");
        };
        let given = Given {
            words: &["tempo", "--query", row.query, "--workers", "3"],
            input: row.input.as_bytes(),
            step: 65536,
            failing: None,
        };
        for at in 0..=given.input.len() {
            if at == 0 || given.input[at - 1] == b'\n' {
                expect_cut(&rt, given, at, row.wanted)?;
            }
        }
    }
    Ok(())
}

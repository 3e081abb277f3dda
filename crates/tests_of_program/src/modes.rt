// Whole runs of worked examples: with options, and in other modes.
use crate::rows::row_of;
use crate::runs::{Given, expect};
use tw_rows::Memory;

// Runs with options and in other modes.
const CASES: &str = "
stream l(k text, w int); stream r(k text, x int); l | union r
--punctuate 10
l,interval,25,30,a,1
r,interval,5,8,b,2
r,interval,14,16,c,3
l,punct,40
r,punct,22
=> 0
out,start,5,inf,b,2
out,end,8,5,b,2
*,punct,10
out,start,14,inf,c,3
out,end,16,14,c,3
*,punct,22
out,start,25,inf,a,1
out,end,30,25,a,1
*,punct,inf
----
stream l(k text, w int); stream r(k text, x int); l | union r
--punctuate 10
l,interval,25,30,a,1
r,interval,5,8,b,2
r,interval,14,16,c,3
l,punct,40
r,punct,22
r,interval,3,9,d,4
=> 5
out,start,5,inf,b,2
out,end,8,5,b,2
*,punct,10
out,start,14,inf,c,3
out,end,16,14,c,3
*,punct,22
!> line 6: late, 3 below 22
----
stream s(k text, v int); s | where v > 10 | select k
--mode explain
x=> 0
0 source - event 0 k:text,v:int
1 where 0 event 0 k:text,v:int
2 select 1 event 0 k:text
root 2
----
stream trades(sym text, px int, qty int); let g = trades | tumble 60 | group by sym : count as n, sum qty as q; let old = g | delay 60 | select sym, q as q0; g | join old on sym
--mode explain
x=> 0
0 source - event 0 sym:text,px:int,qty:int
1 hop 0 event 60 sym:text,px:int,qty:int
2 group 1 snapshot 60 sym:text,n:int,q:int
3 delay 2 snapshot 120 sym:text,n:int,q:int
4 select 3 snapshot 120 sym:text,q0:int
5 join 2,4 snapshot 120 sym:text,n:int,q:int,q0:int
root 5
----
stream s(k text, v int); s | duration 3 | extend 4 | session 5 by k | clip s on k | union s
--mode explain
x=> 0
0 source - event 0 k:text,v:int
1 duration 0 event 3 k:text,v:int
2 extend 1 event 7 k:text,v:int
3 session 2 event 12 k:text,v:int
4 clip 3,0 event 12 k:text,v:int
5 union 4,0 event 12 k:text,v:int
root 5
----
stream m(v int); m | hop 20 10 | group : count as n | delay 5
--mode explain
x=> 0
0 source - event 0 v:int
1 hop 0 event 20 v:int
2 group 1 snapshot 20 n:int
3 delay 2 snapshot 25 n:int
root 3
----
stream s(k text, v int); s | group : avg v as m | coalesce
--mode explain
x=> 0
0 source - event 0 k:text,v:int
1 group 0 snapshot 0 m:int,count:int
2 mean 1 snapshot 0 m:int
3 coalesce 2 event 0 m:int
root 3
----
stream l(k text, w int); stream r(k text, x int); l | left r on k else -1
--mode explain
x=> 0
0 source - event 0 k:text,w:int
1 source - event 0 k:text,x:int
2 join 0,1 snapshot 0 k:text,w:int,x:int
3 group 1 snapshot 0 k:text
4 anti 0,3 snapshot 0 k:text,w:int
5 select 4 snapshot 0 k:text,w:int,x:int
6 union 2,5 snapshot 0 k:text,w:int,x:int
root 6
----
stream s(k text, v int); s | top 1000 per k by v
--mode explain
x=> 0
0 source - event 0 k:text,v:int
1 top 0 snapshot 0 k:text,v:int
root 1
----
stream l(k text, w int); stream r(k text, x int); l | follow r on k within 5
--mode explain
x=> 0
0 source - event 0 k:text,w:int
1 source - event 0 k:text,x:int
2 follow 0,1 event 5 k:text,w:int,x:int
root 2
----
stream s(p dec(2), q int); let m = s | where p >= 1.50 | select p * q as t, q; let n = m | select q; m
--mode explain
x=> 0
0 source - event 0 p:dec(2),q:int
1 where 0 event 0 p:dec(2),q:int
2 select 1 event 0 t:dec(2),q:int
3 select 2 event 0 q:int
root 2
----
stream trades(sym text, px int, qty int); trades | group by sym : sum qty as q
--mode cut
x=> 0
trades by sym
----
stream trades(sym text, px int); trades
--mode cut
x=> 0
trades by sym
trades by px
----
stream trades(sym text, px int); trades | group : count as n
--mode cut
x=> 0
no way: node 1 has no column by which its rows are cut
----
stream l(k text, v int); stream r(k text, v int); l | union r | select 1 as one
--mode cut
x=> 0
no way: node 3 has no column by which its rows are cut
----
stream trades(sym text, px int); stream quotes(sym text, bid int); trades | join quotes on sym
--mode cut
x=> 0
trades by sym, quotes by sym
----
stream l(k text, w int); stream r(k text, x int); l | left r on k else 1
--mode cut
x=> 0
l by k, r by k
----
stream a(v int); stream b(v int); a | union b
--mode cut
x=> 0
a by v, b by v
----
stream s(k text, v int); s | select v as w
--mode cut
x=> 0
s by v
----
stream s(v int); s | where v >
--mode cut
x=> 3
!> query: syntax at 30
----
stream s(k text, v int); s | where v = 'a'
--mode explain
x=> 3
!> query: type clash in item 2
----
stream s(k text, v int); q
--mode explain
x=> 3
!> query: unknown name in item 1
----
stream s(v int); s | where v >
--mode explain
x=> 3
!> query: syntax at 30
----
stream s(k text, v int); s
--lateness 5 --punctuate 10
s,interval,3,20,a,1
s,interval,12,20,a,2
s,interval,8,20,a,3
s,interval,6,20,a,4
=> 5
!> line 4: late, 6 below 7
----
stream s(k text, v int); s
--lateness 5 --punctuate 10 --late drop
s,interval,3,20,a,1
s,interval,12,20,a,2
s,interval,8,20,a,3
s,interval,6,20,a,4
=> 0
out,start,3,inf,a,1
out,start,8,inf,a,3
out,start,12,inf,a,2
out,end,20,3,a,1
out,end,20,12,a,2
out,end,20,8,a,3
*,punct,inf
----
stream s(k text, v int); s
--late adjust
s,interval,10,12,b,2
s,start,4,inf,a,1
s,end,7,4,a,1
=> 0
out,start,10,inf,b,2
out,end,12,10,b,2
*,punct,inf
---- A byte order mark before the first line, which says nothing or something.
stream s(k text, v int); s
\u{feff}=> 0
*,punct,inf
----
stream s(k text, v int); s
\u{feff}\r=> 0
*,punct,inf
----
stream s(k text, v int); s
\u{feff}s,interval,1,2,a,1=> 0
out,start,1,inf,a,1
out,end,2,1,a,1
*,punct,inf
----
stream s(k text, v int); s
\u{feff}\"s\",interval,1,2,a,1=> 0
out,start,1,inf,a,1
out,end,2,1,a,1
*,punct,inf
----
stream trades(id int, sym text, px int, qty int); trades
--mode sample --events 1000 --number 7
x=> 0
starts 1000
ends 1000
puncts 11
----
stream trades(id int, sym text, px int); trades
--mode sample --events 1000 --number 7
x=> 4
!> line 1: wrong number of fields
----
stream l(k text, w int); stream r(k text, x int); l | union r
--mode freeze
l,punct,40
=> 0
#tempo,1
#query,73747265616d206c286b20746578742c207720696e74293b2073747265616d2072286b20746578742c207820696e74293b206c207c20756e696f6e2072
#options,1,refuse,0,0
#time,1,0
#bound,40,40
#bound,0,0
#end
----
stream l(k text, w int); stream r(k text, x int); l | union r
--mode resume
#tempo,1
#query,73747265616d206c286b20746578742c207720696e74293b2073747265616d2072286b20746578742c207820696e74293b206c207c20756e696f6e2072
#options,1,refuse,0,0
#time,1,0
#bound,40,40
#bound,0,0
#end
r,punct,22
=> 0
*,punct,22
*,punct,inf
----
stream s(k text, v int); s
--mode freeze
s,start,1,inf,a,1
*,punct,3
=> 0
out,start,1,inf,a,1
*,punct,3
#tempo,1
#query,73747265616d2073286b20746578742c207620696e74293b2073
#options,1,refuse,0,0
#time,2,3
#bound,3,3
#text,a
#entry,in,0,1,1,1,0,1
#entry,out,0,0,1,inf,0,1
#end
----
stream s(k text, v int); s
--mode resume
#tempo,1
#query,73747265616d2073286b20746578742c207620696e74293b2073
#options,1,refuse,0,0
#time,2,3
#bound,3,3
#text,a
#entry,in,0,1,1,1,0,1
#entry,out,0,0,1,inf,0,1
#end
s,end,4,1,a,1
=> 0
out,end,4,1,a,1
*,punct,inf
----
stream s(k text, v int); s
--mode resume
#tempo,1
#query,73747265616d2073286b20746578742c207620696e74293b2073
#options,1,refuse,0,0
#time,2,3
#bound,x
=> 12
!> line 5: not a checkpoint
----
stream s(k text, v int); s
--mode resume
#tempo,1
#query,73747265616d2073286b20746578742c207620696e74293b2073
#options,1,refuse,0,0
#time,2,3
#bound,3,3
#text,a
#entry,in,0,1,1,1,0,1
#entry,out,0,0,1,inf,0,1
=> 12
!> line 9: not a checkpoint
----
stream s(k text, v int); s
--mode resume --workers 2
#tempo,1
#query,73747265616d2073286b20746578742c207620696e74293b2073
#options,1,refuse,0,0
#time,2,3
#bound,3,3
#text,a
#entry,in,0,1,1,1,0,1
#entry,out,0,0,1,inf,0,1
#end
s,end,4,1,a,1
=> 12
!> line 3: not a checkpoint
----
stream s(k text, v int); s | where v > 0
--mode resume
#tempo,1
#query,73747265616d2073286b20746578742c207620696e74293b2073
#options,1,refuse,0,0
#time,2,3
#bound,3,3
#text,a
#entry,in,0,1,1,1,0,1
#entry,out,0,0,1,inf,0,1
#end
s,end,4,1,a,1
=> 12
!> line 2: not a checkpoint
";

// The sizes of the pieces in which the input comes.
static STEPS: [usize; 2] = [1, 65536];

#[test]
fn other_modes_come_out(rt: HostRuntime) -> Result<(), Memory> {
    for text in CASES.split("----") {
        let Some(row) = row_of(text) else {
            panic!(rt; "no row: {text}");
        };
        let mut words = Vec::from_slice(rt.alloc(), &["tempo", "--query", row.query])?;
        for word in row.options.split_whitespace() {
            words.push(word)?;
        }
        for &step in STEPS.iter() {
            let given = Given {
                words: &words,
                input: row.input.as_bytes(),
                step,
                failing: None,
            };
            expect(&rt, given, row.wanted)?;
        }
    }
    Ok(())
}

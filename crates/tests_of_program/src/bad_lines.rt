// Lines that are refused, each with its note, and the longest lines that are not.
use crate::runs::{ALL, Given, Ran, check_ran, expect, run_over};
use std::alloc::{AllocError, AllocGlobal, Global};
use std::process::Abort;
use std::thread::Threads;
use tw_rows::Memory;

// Streams with columns of each kind.
const MORE: &str =
    "stream s(k text, v int); stream b(f bool, g bool, h text); stream d(p dec(2), q int); s";

// Lines that are refused, each with its cause.
const BAD: &str = "\
s,interval,1152921504606846976,inf,a,1 -> bad time
s,interval,1,1152921504606846976,a,1 -> bad time
s,interval,1,18446744073709551617,a,1 -> bad time
s,interval,inf,inf,a,1 -> bad time
s,interval,01,2,a,1 -> bad time
s,interval,1,02,a,1 -> bad time
s,interval,+1,2,a,1 -> bad time
s,interval,1,+2,a,1 -> bad time
s,interval,-0,2,a,1 -> bad time
s,interval,-1,2,a,1 -> bad time
s,interval, 1,2,a,1 -> bad time
s,interval,1 ,2,a,1 -> bad time
s,interval,,2,a,1 -> bad time
s,interval,1,,a,1 -> bad time
s,interval,1,Inf,a,1 -> bad time
s,interval,1,infinity,a,1 -> bad time
s,interval,00,2,a,1 -> bad time
s,interval,2,2,a,1 -> bad life
s,interval,3,2,a,1 -> bad life
s,start,1,5,a,1 -> bad time
s,start,inf,inf,a,1 -> bad time
s,start,4,Inf,a,1 -> bad time
s,end,1,1,a,1 -> bad life
s,end,1,5,a,1 -> bad life
s,end,inf,1,a,1 -> bad time
s,end,5,inf,a,1 -> bad time
*,punct,1152921504606846976 -> bad time
*,punct,007 -> bad time
*,punct, -> bad time
*,punct -> wrong number of fields
*,punct,1,2 -> wrong number of fields
* -> unknown kind
*,interval,1,2,a,1 -> unknown kind
*,Punct,1 -> unknown kind
S,interval,1,2,a,1 -> unknown stream
s ,interval,1,2,a,1 -> unknown stream
,interval,1,2,a,1 -> unknown stream
s -> unknown kind
s, -> unknown kind
s,punct,01 -> bad time
s,punct -> wrong number of fields
s,punct,1,2,a,1 -> wrong number of fields
r,punct,1 -> unknown stream
s,jump,1,2,a,1 -> unknown kind
s,interval -> wrong number of fields
s,interval,1,2,a -> wrong number of fields
s,interval,1,2,a,1, -> wrong number of fields
s,interval,x,2,a -> wrong number of fields
s,interval,1,2,a,9223372036854775808 -> bad value in column 2
s,interval,1,2,a,-9223372036854775809 -> bad value in column 2
s,interval,1,2,a,x -> bad value in column 2
s,interval,1,2,a,+1 -> bad value in column 2
s,interval,1,2,a,01 -> bad value in column 2
s,interval,1,2,a,-0 -> bad value in column 2
s,interval,1,2,a,inf -> bad value in column 2
s,interval,1,2,a, -> bad value in column 2
b,interval,1,2,True,0,x -> bad value in column 1
b,interval,1,2,true,0,x -> bad value in column 2
s,interval,1,2,a\"b\"c,1 -> odd quotes
s,interval,1,2,\"a,1 -> odd quotes
s,interval,1,2,\"a\"b,1 -> odd quotes
s,interval,1,2,a,1\r\r -> stray return
d,interval,0,5,92233720368547758.08,3 -> bad value in column 1
d,interval,0,5,1.5,3 -> bad value in column 1
d,interval,0,5,-0.00,3 -> bad value in column 1
d,interval,0,5,1.500,3 -> bad value in column 1
d,interval,0,5,150,3 -> bad value in column 1
d,interval,0,5,.50,3 -> bad value in column 1
d,interval,0,5,01.50,3 -> bad value in column 1
d,interval,0,5,+1.50,3 -> bad value in column 1
d,interval,0,5,1.50,3.00 -> bad value in column 2
b,interval,1,2,a,1 -> wrong number of fields
r,interval,1,2,a,1 -> unknown stream
\u{feff}\u{feff}s,interval,1,2,a,1 -> unknown stream
s,inter\rval,1,2,a,1 -> stray return
\r\r -> stray return
s,\r\" -> stray return
s,interval,1,2,\"a\rb\",1 -> stray return
zz,\" -> odd quotes
zz,jump -> unknown stream
s,interval,9,2,a,x -> bad life
t,interval,1,2,a,1 -> unknown stream
s,interval,1,2,a\r,1 -> stray return";

// Other bytes that are refused, each with the note.
static BYTES: [(&[u8], &str); 10] = [
    (b"\n\xEF\xBB\xBF", "line 2: unknown stream\n"),
    (
        b"\n\xEF\xBB\xBFs,interval,1,2,a,1",
        "line 2: unknown stream\n",
    ),
    (b"\n\xEF\xBB\xBF\r", "line 2: unknown stream\n"),
    (
        b"\n\xEF\xBB\xBF\"s\",interval,1,2,a,1",
        "line 2: odd quotes\n",
    ),
    (b"\xEF\xBB", "line 1: not utf-8\n"),
    (b"\xFF", "line 1: not utf-8\n"),
    (b"s,interval,1,2,\xFF,1", "line 1: not utf-8\n"),
    (b"s,interval,1,2,\xED\xA0\x80,1", "line 1: not utf-8\n"),
    (b"\xFF\r\r", "line 1: not utf-8\n"),
    (b"s,interval,1,2,\xff,1", "line 1: not utf-8\n"),
];

// Runs over one bad line.
fn expect_bad<R: Threads + Sync + AllocGlobal + Abort>(
    rt: &R,
    input: &[u8],
    note: &str,
) -> Result<(), Memory> {
    let given = Given {
        words: &["tempo", "--query", MORE],
        input,
        step: 65536,
        failing: None,
    };
    expect(rt, given, (4, "", note))?;
    Ok(())
}

#[test]
fn bad_lines_are_told(rt: HostRuntime) -> Result<(), Memory> {
    for row in BAD.split('\n') {
        let Some((line, cause)) = row.split_once(" -> ") else {
            panic!(rt; "no row: {row}");
        };
        let note = format!(in rt.alloc(); "line 1: {cause}\n")?;
        expect_bad(&rt, line.as_bytes(), note.as_str())?;
    }
    for &(input, note) in BYTES.iter() {
        expect_bad(&rt, input, note)?;
    }
    Ok(())
}

// A text, and then so many times `x`, and another text.
fn with_long(
    alloc: Global,
    before: &str,
    count: usize,
    after: &str,
) -> Result<Vec<u8>, AllocError> {
    let mut bytes = Vec::from_slice(alloc, before.as_bytes())?;
    let longer = bytes.len().saturating_add(count);
    bytes.resize(longer, b'x')?;
    bytes.extend_from_slice(after.as_bytes())?;
    Ok(bytes)
}

// Runs over a text, and then so many times `x`, and another text.
fn run_long<R: Threads + Sync + AllocGlobal>(
    rt: &R,
    before: &str,
    count: usize,
    after: &str,
) -> Result<Ran, Memory> {
    let input = with_long(rt.alloc(), before, count, after)?;
    let given = Given {
        words: &["tempo", "--query", ALL],
        input: &input,
        step: 65536,
        failing: None,
    };
    run_over(rt, given)
}

#[test]
fn a_line_has_65536_bytes_at_most(rt: HostRuntime) -> Result<(), Memory> {
    let ran = run_long(&rt, "s,interval,1,5,", 65519, ",1\n")?;
    assert_eq!(rt; ran.number, 0);
    let mut whole = with_long(rt.alloc(), "out,start,1,inf,", 65519, ",1\n")?;
    let end = with_long(rt.alloc(), "out,end,5,1,", 65519, ",1\n*,punct,inf\n")?;
    whole.extend_from_slice(&end)?;
    assert!(rt; ran.output == whole);
    Ok(())
}

// What stands around the `x` of lines that are too long, and how many there are.
static TOO_LONG: [(&str, usize, &str); 2] = [("s,interval,1,5,", 65520, ",1\n"), ("", 65537, "")];

// What is read of a line that is too long is refused, and no byte is read behind that.
#[test]
fn a_longer_line_is_not_read_to_its_end(rt: HostRuntime) -> Result<(), Memory> {
    for &(before, count, after) in TOO_LONG.iter() {
        let ran = run_long(&rt, before, count, after)?;
        check_ran(&rt, &ran, (4, "", "line 1: too long\n"));
        assert_eq!(rt; ran.steps, 2);
    }
    Ok(())
}

// Texts against the queries that they spell: whether they have a plan, or their first fault, all found by hand.
use plan_model::{QueryError, QueryFault};
use query_plan::plan;
use query_text::parse;
use std::alloc::Global;
use tw_rows::Memory;

// Why a text has no plan.
fn fault(alloc: Global, text: &str) -> Option<QueryError> {
    match parse(alloc, text) {
        Ok(query) => plan(alloc, &query).err(),
        Err(error) => Some(error),
    }
}

fn syntax_at(at: usize) -> QueryError {
    QueryError::Fault(QueryFault::Syntax { at })
}

// Texts that stop being a query, each with the place: in their streams, lets or tests, in another step, or at a word that is no
// name.
const SYNTAX: &str = "\
s -> 0
 -> 0
stream  -> 7
select -> 0
stream s v int); s -> 9
stream s(); s -> 9
stream s(v ); s -> 11
stream s(v v); s -> 11
stream s(v int int); s -> 15
stream s(v int, ); s -> 16
stream s(v int) s -> 16
stream s(v int);  -> 17
stream s(v int); s x -> 19
stream s(v int); s; -> 18
stream s(v int); 3 -> 17
stream s(v int); let = s; s -> 21
stream s(v int); let m s; s -> 23
stream s(v int); let m = ; s -> 25
stream s(v int); let m = s m -> 27
stream s(v int); let m = s; ; -> 28
stream s(v int); let m = s; stream t(v int); m -> 28
stream s(v int); let m = s;  -> 28
stream s(v int); s | where v > -> 30
stream s(v int); s | where ) -> 27
stream s(v int); s | where (v -> 29
stream s(v int); s | where v) -> 28
stream s(v int); s | where v v -> 29
stream s(v int); s | where v = 1 = 2 -> 33
stream s(v int); s | where v < 1 >= 2 -> 33
stream s(v int); s | where not or -> 31
stream s(v int); s | where v + * 2 -> 31
stream s(v int); s | where v and and v -> 33
stream s(v int); s | where v = not v -> 31
stream s(v int); s | where v div 0 -> 33
stream s(v int); s | where v mod v -> 33
stream s(v int); s | where v div -1 -> 33
stream s(v int); s | where v div (2) -> 33
stream s(v int); s | where 1 1 -> 29
stream s(v int); s | where 01 -> 28
stream s(v int); s | where 1a -> 28
stream s(v int); s | where v = 'abc -> 31
stream s(v int); s | where v = 'a' 'b' -> 35
stream s(v int); s | where v = 9223372036854775808 -> 31
stream s(v int); s | where aaaaaaaaaaaaaaaaaaaaaaaaaaaaaaaaaaaaaaaaaaaaaaaaaaaaaaaaaaaaaaaaa -> 27
stream s(v int); s | where v ! 3 -> 29
stream s(v int); s | where v = @ -> 31
stream s(v int); s | where v = \"a\" -> 31
stream s(v int); s | where v as w -> 29
stream s(p dec); s -> 14
stream s(p dec()); s -> 15
stream s(p dec(0)); s -> 15
stream s(p dec(19)); s -> 15
stream s(p dec(2, q int); s -> 16
stream s(p dec(v)); s -> 15
stream s(p dec(1.5)); s -> 15
stream s(p dec(2) 3); s -> 18
stream s(p deci(2)); s -> 11
stream s(v int); s | where v = 1. -> 32
stream s(v int); s | where v = 1.5.5 -> 34
stream s(v int); s | where v = .5 -> 31
stream s(v int); s | where v = 0.1234567890123456789 -> 31
stream s(v int); s | where v = 9223372036854775807.1 -> 31
stream s(v int); s | where v = 01.5 -> 32
stream s(v int); s | where v div 1.5 -> 33
stream s(v int); s | where v = 'it''s -> 31
stream s(v int); s | where v = 'a'' -> 31
stream s(v int); s |  -> 21
stream s(v int); s | v -> 21
stream s(v int); s | | where true -> 21
stream s(v int); s | where | union t -> 27
stream s(v int); s | where (v | union t -> 30
stream s(v int); s | select  -> 28
stream s(v int); s | select v,  -> 31
stream s(v int); s | select v + 1 -> 33
stream s(v int); s | select v + 1 , v -> 34
stream s(v int); s | select v as 1 -> 33
stream s(v int); s | select 1 | delay 1 -> 30
stream s(v int); s | select v w -> 30
stream s(v int); s | select v as w as x -> 35
stream s(v int); s | select (v) -> 31
stream s(v int); s | select v * as w -> 32
stream s(v int); s | union 3 -> 27
stream s(v int); s | union  -> 27
stream s(v int); s | union t t -> 29
stream s(v int); s | delay v -> 27
stream s(v int); s | delay -1 -> 27
stream s(v int); s | delay 1.5 -> 27
stream s(v int); s | hop 5  -> 27
stream s(v int); s | hop 105 -> 28
stream s(v int); s | hop v 5 -> 25
stream s(v int); s | hop 1 2 3 -> 29
stream s(v int); s | tumble 5 5 -> 30
stream s(v int); s | session by v -> 29
stream s(v int); s | session 5 by  -> 34
stream s(v int); s | session 5 on v -> 31
stream s(v int); s | clip t by v -> 28
stream s(v int); s | clip on v -> 26
stream s(v int); s | join t on v,  -> 34
stream s(v int); s | join t on 1 -> 31
stream s(v int); s | anti on v -> 26
stream s(v int); s | group count as n -> 27
stream s(v int); s | group : sum as s -> 33
stream s(v int); s | group : count n -> 35
stream s(v int); s | group : count as  -> 38
stream s(v int); s | group by : count as n -> 30
stream s(v int); s | group : count as n,  -> 41
stream s(v int); s | group : v -> 29
stream s(v int); s | group by v sum v as s -> 32
stream s(v int); s | group by v : min v , max v as m -> 40
stream s(v int); s | coalesce 5 -> 30
stream s(v int); s | left | delay 1 -> 26
stream s(v int); s | left r else  -> 33
stream s(v int); s | left r else 1 2 -> 35
stream s(v int); s | left r else v -> 33
stream s(v int); s | left r else - 'a' -> 35
stream s(v int); s | left r else - - 1 -> 35
stream s(v int); s | left r else 1,  -> 36
stream s(v int); s | left r on k by v -> 33
stream s(v int); s | left r else (1) -> 33
stream s(v int); s | top 0 by v -> 25
stream s(v int); s | top 5 v -> 27
stream s(v int); s | top 5 by  -> 30
stream s(v int); s | top 5 per by v -> 31
stream s(v int); s | top v by v -> 25
stream s(v int); s | top 5 by v, w -> 31
stream s(v int); s | follow r  -> 30
stream s(v int); s | follow r within 0 -> 37
stream s(v int); s | follow r within 1.5 -> 37
stream s(v int); s | follow r by k within 5 -> 30
stream s(v int); s | follow r on k  -> 35
stream s(v int); s | group : avg as m -> 33
stream s(v int); s | group : left as m -> 29
stream s(v int); s | top 0 by 1 | left 5 -> 25
stream s(v int); s | union xxxxxxxxxxxxxxxxxxxxxxxxxxxxxxxxxxxxxxxxxxxxxxxxxxxxxxxxxxxxxxxxx | top 0 -> 27
stream s(v int); s | where v as x | follow r within 0 -> 29
stream stream(v int); s -> 7
stream let(v int); s -> 7
stream where(v int); s -> 7
stream select(v int); s -> 7
stream union(v int); s -> 7
stream delay(v int); s -> 7
stream hop(v int); s -> 7
stream tumble(v int); s -> 7
stream duration(v int); s -> 7
stream extend(v int); s -> 7
stream session(v int); s -> 7
stream clip(v int); s -> 7
stream join(v int); s -> 7
stream anti(v int); s -> 7
stream group(v int); s -> 7
stream by(v int); s -> 7
stream on(v int); s -> 7
stream as(v int); s -> 7
stream and(v int); s -> 7
stream or(v int); s -> 7
stream not(v int); s -> 7
stream div(v int); s -> 7
stream mod(v int); s -> 7
stream true(v int); s -> 7
stream false(v int); s -> 7
stream int(v int); s -> 7
stream bool(v int); s -> 7
stream text(v int); s -> 7
stream count(v int); s -> 7
stream sum(v int); s -> 7
stream min(v int); s -> 7
stream max(v int); s -> 7
stream dec(v int); s -> 7
stream coalesce(v int); s -> 7
stream left(v int); s -> 7
stream else(v int); s -> 7
stream avg(v int); s -> 7
stream top(v int); s -> 7
stream per(v int); s -> 7
stream follow(v int); s -> 7
stream within(v int); s -> 7
stream s(v int); s | where v<=1<>2 -> 31
stream s(v int); s | where v < = 1 -> 31
stream s(v int); s | where v = 1.50x -> 35
é! -> 0";

#[test]
fn texts_are_read_as_the_grammar_says(rt: HostRuntime) {
    for row in SYNTAX.split('\n') {
        let Some((text, place)) = row.split_once(" -> ") else {
            panic!(rt; "no row: {row}");
        };
        let want = place.parse::<usize>().ok().map(syntax_at);
        assert_eq!(rt; fault(rt.alloc(), text), want, "of {text}");
    }
}

// Queries of each production, with the faults of those that have no plan.
static QUERIES: [(&str, Option<QueryFault>); 103] = [
    (
        "stream s(v int); s | where v = 'a\nb'",
        Some(QueryFault::Syntax { at: 31 }),
    ),
    ("stream s(v int); s", None),
    ("stream s(v int, w bool, x text); s", None),
    ("stream a(v int); stream b(w text); a", None),
    ("stream s(v int); let m = s; m", None),
    (
        "stream s(v int); let m = s | where v > 3; let n = m | delay 1; n",
        None,
    ),
    ("stream\ts(v\r\nint);s|where v>3", None),
    (
        "stream s(v int); s | where v = 1 or v = 2 and not v = 3",
        None,
    ),
    (
        "stream s(v int); s | where (v + 1) * 2 - -3 div 4 mod 5 < 6",
        None,
    ),
    ("stream s(v int); s | where not not true", None),
    ("stream s(v int); s | where false <> true", None),
    (
        "stream s(v int); s | where x <> 'a''b'",
        Some(QueryFault::UnknownName { item: 2 }),
    ),
    ("stream s(v int); s | where '' <= '''' ", None),
    ("stream s(v int); s | where v >= 3", None),
    ("stream s(v int); s | where v = 1and v = 2", None),
    ("stream s(v int); s | where v = 9223372036854775807", None),
    (
        "stream s(v int); s | where aaaaaaaaaaaaaaaaaaaaaaaaaaaaaaaaaaaaaaaaaaaaaaaaaaaaaaaaaaaaaaaa",
        Some(QueryFault::UnknownName { item: 2 }),
    ),
    ("stream s(v int); s | select v", None),
    ("stream s(v int); s | select v, v + 1 as w", None),
    ("stream s(v int); s | select v as w", None),
    (
        "stream s(v int); s | select (v) as w, -v as x, 1 as y, 'a' as z, not v as u, true as t, v and v as q, v or v as r, v = v as p",
        Some(QueryFault::TypeClash { item: 2 }),
    ),
    (
        "stream s(v int); s | union t",
        Some(QueryFault::UnknownName { item: 2 }),
    ),
    ("stream s(v int); s | delay 0", None),
    ("stream s(v int); s | duration 7", None),
    ("stream s(v int); s | extend 0", None),
    ("stream s(v int); s | tumble 5", None),
    (
        "stream s(v int); s | hop 5 10",
        Some(QueryFault::BadWindow { item: 2 }),
    ),
    (
        "stream s(v int); s | hop 00",
        Some(QueryFault::BadWindow { item: 2 }),
    ),
    ("stream s(v int); s | session 5", None),
    ("stream s(v int); s | session 5 by v", None),
    (
        "stream s(v int); s | session 5 by v, w",
        Some(QueryFault::UnknownName { item: 2 }),
    ),
    (
        "stream s(v int); s | clip t",
        Some(QueryFault::UnknownName { item: 2 }),
    ),
    (
        "stream s(v int); s | clip t on v",
        Some(QueryFault::UnknownName { item: 2 }),
    ),
    (
        "stream s(v int); s | join t on v, w",
        Some(QueryFault::UnknownName { item: 2 }),
    ),
    (
        "stream s(v int); s | join t",
        Some(QueryFault::UnknownName { item: 2 }),
    ),
    (
        "stream s(v int); s | anti t",
        Some(QueryFault::UnknownName { item: 2 }),
    ),
    (
        "stream s(v int); s | anti t on v",
        Some(QueryFault::UnknownName { item: 2 }),
    ),
    ("stream s(v int); s | group : count as n", None),
    (
        "stream s(v int); s | group by v : sum v as a, min v as b, max v as c",
        None,
    ),
    (
        "stream s(v int); s | group by v, w : count as n | where n > 1",
        Some(QueryFault::UnknownName { item: 2 }),
    ),
    ("stream s(p dec(2), q int); s", None),
    ("stream s(p dec(18)); s", None),
    ("stream s(p dec(1), q bool, r dec(9), t text); s", None),
    ("stream s(p dec(2)); s | where p >= 1.50", None),
    (
        "stream s(p dec(18)); s | where p = 9.223372036854775807 or p < 0.000000000000000001",
        None,
    ),
    (
        "stream s(v int); s | where v = 92233720368547758.07",
        Some(QueryFault::TypeClash { item: 2 }),
    ),
    (
        "stream s(v int); s | where v = 1.5and v = 0.0",
        Some(QueryFault::TypeClash { item: 2 }),
    ),
    (
        "stream s(v int); s | select 1.5 as a, -0.25 as b, (1.5) as c",
        None,
    ),
    ("stream s(v int); s | coalesce", None),
    ("stream s(v int); s | coalesce | tumble 5", None),
    (
        "stream s(v int); s | left r",
        Some(QueryFault::UnknownName { item: 2 }),
    ),
    (
        "stream s(v int); s | left r on k",
        Some(QueryFault::UnknownName { item: 2 }),
    ),
    (
        "stream s(v int); s | left r else 0 | where v > 1",
        Some(QueryFault::UnknownName { item: 2 }),
    ),
    (
        "stream s(v int); s | left r on k, l else -1, - 2.50, 0.5, 'x''y', true, false",
        Some(QueryFault::UnknownName { item: 2 }),
    ),
    ("stream s(v int); s | top 1 by v", None),
    (
        "stream s(v int); s | top 10 per k, l by v",
        Some(QueryFault::UnknownName { item: 2 }),
    ),
    (
        "stream s(v int); s | follow r within 5",
        Some(QueryFault::UnknownName { item: 2 }),
    ),
    (
        "stream s(v int); s | follow r on k, l within 9223372036854775807",
        Some(QueryFault::UnknownName { item: 2 }),
    ),
    ("stream s(v int); s | group : avg v as m", None),
    (
        "stream s(v int); s | group by k : count as n, avg v as m, sum v as t",
        Some(QueryFault::UnknownName { item: 2 }),
    ),
    (
        "stream s(v int); s | where v = 'a'''",
        Some(QueryFault::TypeClash { item: 2 }),
    ),
    ("stream s(k text, v int); s", None),
    ("stream s(k text, v int); s | where v > 10", None),
    ("stream a(k text); stream b(v int); a", None),
    ("stream s(k text, v int); s | top 1000 per k by v", None),
    (
        "stream s(k text, v int); s | group : avg v as m | coalesce",
        None,
    ),
    (
        "stream s(k text, v int); let m = s | where v > 10; let n = m | select k; m",
        None,
    ),
    (
        "stream s(p dec(2), q int); s | where p >= 1.50 | select p * q as t, q",
        None,
    ),
    (
        "stream s(k text, v int); s | group by k : max v as m, count as n | join s on k",
        None,
    ),
    (
        "stream s(k text, v int); stream t(k text); s | anti t on k",
        None,
    ),
    (
        "stream s(k text, v int); s | where v = 'a'",
        Some(QueryFault::TypeClash { item: 2 }),
    ),
    (
        "stream s(k text, v int); q",
        Some(QueryFault::UnknownName { item: 1 }),
    ),
    (
        "stream s(v int); stream s(v int); s",
        Some(QueryFault::NameTaken { item: 1 }),
    ),
    (
        "stream s(v int, v text); s",
        Some(QueryFault::NameTaken { item: 0 }),
    ),
    (
        "stream s(v int); let s = s; s",
        Some(QueryFault::NameTaken { item: 1 }),
    ),
    (
        "stream s(v int); let m = m; s",
        Some(QueryFault::UnknownName { item: 1 }),
    ),
    (
        "stream s(v int); let m = s | where v > 1; m | where w > 1",
        Some(QueryFault::UnknownName { item: 4 }),
    ),
    (
        "stream s(v int); s | hop 3 2",
        Some(QueryFault::BadWindow { item: 2 }),
    ),
    (
        "stream s(p dec(2)); s | where p > 1.5",
        Some(QueryFault::TypeClash { item: 2 }),
    ),
    (
        "stream s(p dec(2), q dec(3)); s | where p = q",
        Some(QueryFault::TypeClash { item: 2 }),
    ),
    (
        "stream s(p dec(2)); s | select p * p as x",
        Some(QueryFault::TypeClash { item: 2 }),
    ),
    (
        "stream s(p dec(2)); s | select p + 1 as x",
        Some(QueryFault::TypeClash { item: 2 }),
    ),
    (
        "stream s(p dec(2)); s | select p div 2 as x",
        Some(QueryFault::TypeClash { item: 2 }),
    ),
    (
        "stream s(p dec(2)); s | group : avg p as m",
        Some(QueryFault::TypeClash { item: 2 }),
    ),
    (
        "stream s(p dec(2)); s | group : sum p as t, avg q as m",
        Some(QueryFault::UnknownName { item: 2 }),
    ),
    (
        "stream s(v int); s | coalesce | hop 3 2",
        Some(QueryFault::BadWindow { item: 3 }),
    ),
    (
        "stream s(k text, v int); s | top 1001 per k by v",
        Some(QueryFault::BadWindow { item: 2 }),
    ),
    (
        "stream s(k text, v int); s | top 1001 per k by k",
        Some(QueryFault::TypeClash { item: 2 }),
    ),
    (
        "stream s(k text, v int); s | top 1001 per w by k",
        Some(QueryFault::UnknownName { item: 2 }),
    ),
    (
        "stream l(k text, w int); stream r(k text, x int); l | left r on k",
        Some(QueryFault::TypeClash { item: 3 }),
    ),
    (
        "stream l(k text, w int); stream r(k text, x int); l | left r on k else 'a'",
        Some(QueryFault::TypeClash { item: 3 }),
    ),
    (
        "stream l(k text, w int); stream r(k text, x int); l | left r on k else 1, 2",
        Some(QueryFault::TypeClash { item: 3 }),
    ),
    (
        "stream l(k text, w int); stream r(k text, x int); l | left r on w else 1",
        Some(QueryFault::UnknownName { item: 3 }),
    ),
    (
        "stream l(k text, w int); stream r(k int, x int); l | follow r on k within 5",
        Some(QueryFault::TypeClash { item: 3 }),
    ),
    (
        "stream l(k text, w int); stream r(k text, x int); l | join r on k, k",
        Some(QueryFault::NameTaken { item: 3 }),
    ),
    (
        "stream s(v int); s | delay 1152921504606846976 | hop 3 2",
        Some(QueryFault::BadWindow { item: 3 }),
    ),
    (
        "stream s(v int); s | delay 1152921504606846977",
        Some(QueryFault::ReachTooLong { item: 2 }),
    ),
    ("stream Stream(_1 int); Stream | where _1 > 0", None),
    (
        "stream s(k text, v int); s | group : count as n | hop 20 10",
        Some(QueryFault::NotEventLevel { item: 3 }),
    ),
    (
        "stream s(k text, v int); s | group by k : count as n | follow s on k within 5",
        Some(QueryFault::NotEventLevel { item: 3 }),
    ),
    (
        "stream s(k text, v int); s | hop 15 10",
        Some(QueryFault::BadWindow { item: 2 }),
    ),
    (
        "stream s(c0 int, c1 int, c2 int, c3 int, c4 int, c5 int, c6 int, c7 int, c8 int, c9 int, c10 int, c11 int, c12 int, c13 int, c14 int, c15 int, c16 int, c17 int, c18 int, c19 int, c20 int, c21 int, c22 int, c23 int, c24 int, c25 int, c26 int, c27 int, c28 int, c29 int, c30 int, c31 int); s",
        None,
    ),
    (
        "stream s(c0 int, c1 int, c2 int, c3 int, c4 int, c5 int, c6 int, c7 int, c8 int, c9 int, c10 int, c11 int, c12 int, c13 int, c14 int, c15 int, c16 int, c17 int, c18 int, c19 int, c20 int, c21 int, c22 int, c23 int, c24 int, c25 int, c26 int, c27 int, c28 int, c29 int, c30 int, c31 int, c32 int); s",
        Some(QueryFault::TooManyColumns { item: 0 }),
    ),
];

#[test]
fn queries_have_a_plan_or_a_fault(rt: HostRuntime) {
    for &(text, want) in QUERIES.iter() {
        assert_eq!(rt;
            fault(rt.alloc(), text),
            want.map(QueryError::Fault),
            "of {text}"
        );
    }
}

// A text of three parts, of which the second stands so many times.
fn repeated(
    alloc: Global,
    front: &str,
    part: &str,
    times: usize,
    end: &str,
) -> Result<String, Memory> {
    let mut text = String::from_str(alloc, front)?;
    for _ in 0..times {
        text.push_str(part)?;
    }
    text.push_str(end)?;
    Ok(text)
}

// Long texts in three parts, the second of which stands so many times, with their faults.
static LONG: [(&str, &str, usize, &str, Option<QueryFault>); 17] = [
    (
        "stream s(v int); s | where ",
        "-",
        200,
        "'a''",
        Some(QueryFault::Syntax { at: 227 }),
    ),
    ("stream s(v int); s", " ", 65_518, "", None),
    (
        "stream s(v int); s",
        " ",
        65_519,
        "",
        Some(QueryFault::TooLarge),
    ),
    (
        "stream s(v int); s | where ",
        "-",
        199,
        "v",
        Some(QueryFault::TypeClash { item: 2 }),
    ),
    (
        "stream s(v int); s | where ",
        "-",
        200,
        "v",
        Some(QueryFault::LongExpr { at: 227 }),
    ),
    (
        "stream s(v int); s | where ",
        "-",
        200,
        " | delay 1",
        Some(QueryFault::Syntax { at: 228 }),
    ),
    (
        "stream s(v int); s | where ",
        "(",
        200,
        "",
        Some(QueryFault::Syntax { at: 227 }),
    ),
    (
        "stream s(v int); s | where ",
        "(",
        201,
        "",
        Some(QueryFault::LongExpr { at: 227 }),
    ),
    (
        "stream s(v int); s | where ",
        "(",
        300,
        "",
        Some(QueryFault::LongExpr { at: 227 }),
    ),
    (
        "stream s(v int); s | where ",
        "(",
        200,
        "=",
        Some(QueryFault::Syntax { at: 227 }),
    ),
    (
        "stream s(v int); s | where ",
        "v=v|where ",
        150,
        "v",
        Some(QueryFault::TypeClash { item: 152 }),
    ),
    (
        "stream s(v int); s | where ",
        "v v",
        150,
        "",
        Some(QueryFault::Syntax { at: 29 }),
    ),
    (
        "stream s(v int); s | where v = 1",
        ", v",
        1,
        "",
        Some(QueryFault::Syntax { at: 32 }),
    ),
    (
        "stream s(v int); s | where ",
        "(",
        99,
        "-v)))))))))))))))))))))))))))))))))))))))))))))))))))))))))))))))))))))))))))))))))))))))))))))))))))",
        Some(QueryFault::TypeClash { item: 2 }),
    ),
    (
        "stream s(v int); s",
        " | delay 1",
        300,
        "",
        Some(QueryFault::TooManyNodes { item: 257 }),
    ),
    ("stream s(v int); s", " | where v > 0", 255, "", None),
    (
        "stream s(v int); s",
        " | where v > 0",
        256,
        "",
        Some(QueryFault::TooManyNodes { item: 257 }),
    ),
];

#[test]
fn long_texts_keep_the_limits(rt: HostRuntime) -> Result<(), Memory> {
    for &(front, part, times, end, want) in LONG.iter() {
        let text = repeated(rt.alloc(), front, part, times, end)?;
        let found = fault(rt.alloc(), &text);
        assert_eq!(rt; found, want.map(QueryError::Fault), "of {front}{part}..");
    }
    Ok(())
}

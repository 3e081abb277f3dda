// Lists of edges that are cut at instants.
ghost use Rattle.std.specs.Prelude.{◌≡◌, ◌+◌, ◌≤◌, length, take, drop};
ghost use Rattle.edge_history.specs.Order.{failing};
ghost use Rattle.sweep_laws.specs.Sweeps.{is_at, IsPast, IsNext};

use tw_rows::{Edge, Time};

/// What is left of a list where so many edges are done.
pub fn rest(edges: &[Edge], done: usize) -> &[Edge]
    requires { done ≤ length edges.now }
    ensures { result.now ≡ drop done edges.now }
{
    &edges[done..]
}

/// How many edges of the instant the list begins with.
pub fn first_instant(rest: &[Edge], t: Time) -> usize
    ensures within { result ≤ length rest.now }
    ensures same { failing (is_at t) (take result rest.now) ≡ 0 }
    ensures next { IsPast t (drop result rest.now) }
{
    for i in 0..rest.len() {
        if rest[i].sync != t {
            return i;
        }
    }
    rest.len()
}

/// The next instant of two lists, of which one has an edge.
pub fn next_instant(left: &[Edge], right: &[Edge]) -> Time
    requires { 1 ≤ length left.now + length right.now }
    ensures { IsNext result left.now right.now }
{
    match (left.get(0), right.get(0)) {
        (Some(a), Some(b)) => { if a.sync < b.sync { a.sync } else { b.sync } }
        (Some(a), None) => a.sync,
        (None, Some(b)) => b.sync,
        (None, None) => Time::bounds().0,
    }
}

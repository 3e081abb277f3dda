// What is no state of an operator, or of an output, is refused where it is loaded.
use anti_join::new_anti;
use edge_stream::{LoadFault, Operator, Saved, SavedEntry};
use egress::Egress;
use plan_model::Agg;
use session_window::new_session;
use snapshot_agg::Grouped;
use std::alloc::Global;
use std::test::Fail;
use tw_rows::{Cells, Datum, Kind, Time};
use union_clip::new_clip;

const INT: [Kind; 1] = [Kind::Int];

/// The other time of a start.
const INF: u64 = 2305843009213693952;

// An entry: its part, its two times, and the int of its row.
type Entry = (u64, u64, u64, i64);

fn saved_of(alloc: Global, entries: &[Entry]) -> Result<Saved, Fail> {
    let mut saved = Saved::new(alloc);
    for (part, sync, other, int) in entries {
        saved.push(SavedEntry {
            part: *part,
            sync: Time::ZERO.plus(*sync),
            other: Time::ZERO.plus(*other),
            cells: Cells::from_slice(alloc, &[Datum::Int(*int)])?,
        })?;
    }
    Ok(saved)
}

// Whether the operator, closed up to 7 on both sides, tells that the entries are no state of it.
fn refuses<O: Operator>(alloc: Global, operator: O, entries: &[Entry]) -> Result<bool, Fail>
    requires { O.is_opening operator }
{
    let saved = saved_of(alloc, entries)?;
    let seven = Time::ZERO.plus(7);
    let mut operator = operator;
    Ok(matches!(
        operator.load(&saved, seven, seven),
        Err(LoadFault::NotState)
    ))
}

/// Of an anti-join a free time at or after the closing, and two of one key; of a clip a right end that waits; of a session an
/// end that waits.
#[test]
fn what_is_no_state_of_a_sweep_is_refused(rt: HostRuntime) -> Result<(), Fail> {
    let alloc = rt.alloc();
    let anti = new_anti(alloc, &[0], &[0], &INT, &INT, 2)?;
    assert!(rt; refuses(alloc, anti, &[(0, 2, INF, 5), (4, 1000, INF, 5)])?);
    let anti = new_anti(alloc, &[0], &[0], &INT, &INT, 2)?;
    assert!(rt;
        refuses(
            alloc,
            anti,
            &[(0, 2, INF, 5), (4, 3, INF, 5), (4, 4, INF, 5)]
        )?
    );
    let clip = new_clip(alloc, &[0], &[0], &INT, &INT, 2)?;
    assert!(rt; refuses(alloc, clip, &[(0, 3, INF, 1), (2, 9, 4, 1)])?);
    let session = new_session(alloc, 5, &[0], &INT, 2)?;
    assert!(rt; refuses(alloc, session, &[(0, 3, INF, 1), (1, 9, 4, 1)])?);
    Ok(())
}

/// Of a count a row that begins at the closing or later, which is not alive yet; and an interval that waits, where starts and
/// ends alone do.
#[test]
fn what_is_no_state_of_a_group_is_refused(rt: HostRuntime) -> Result<(), Fail> {
    let alloc = rt.alloc();
    let group = Grouped::new(alloc, &[], &[Agg::Count], &INT, &INT, 2)?;
    assert!(rt; refuses(alloc, group, &[(0, 9, INF, 1)])?);
    let group = Grouped::new(alloc, &[], &[Agg::Count], &INT, &INT, 2)?;
    assert!(rt; refuses(alloc, group, &[(1, 9, 12, 1)])?);
    Ok(())
}

/// Of an output at 7 a row that begins later, and two equal ones of which the later start comes first.
#[test]
fn what_is_no_state_of_an_output_is_refused(rt: HostRuntime) -> Result<(), Fail> {
    let alloc = rt.alloc();
    let states: [&[Entry]; 2] = [&[(0, 7, 9, 1)], &[(0, 3, 9, 1), (0, 2, 9, 1)]];
    for entries in states {
        let saved = saved_of(alloc, entries)?;
        let mut egress = Egress::new(alloc, &INT)?;
        let loaded = egress.load(&saved, Time::ZERO.plus(7));
        assert!(rt; matches!(loaded, Err(LoadFault::NotState)));
    }
    Ok(())
}

// A sample against the reference.
use sample_trades::Sample;
use tw_rows::Memory;

// The lines of the sample of number 7.
static SAMPLE: [&str; 2] = [
    "trades,interval,1,4,0,S0,107,7",
    "trades,interval,3,16,1,S0,117,2",
];

#[test]
fn a_sample_is_that_of_its_number(rt: HostRuntime) -> Result<(), Memory> {
    let mut sample = Sample::new(7, 2);
    let mut line = Vec::new(rt.alloc());
    for &wanted in SAMPLE.iter() {
        if let Some(next) = sample.next_line() {
            next.write(&mut line)?;
        }
        assert!(rt; line.as_slice() == wanted.as_bytes(), "{wanted}");
    }
    assert!(rt; sample.next_line().is_none());
    Ok(())
}

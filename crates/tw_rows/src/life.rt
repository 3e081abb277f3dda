// Lifetimes, and times rounded down.
ghost use Rattle.std.specs.Prelude.{◌≡◌, ◌<◌, ◌≤◌, IsTrue, ◌↔◌};
ghost use Rattle.tw_rows.specs.Instant.{inf, floor_to as floor_of};

use crate::time::Time;

/// The lifetime [start, end) of an event: it is alive from `start` on and before `end`, which may be infinity.
#[derive(Clone, Copy, Debug, PartialEq, Eq)]
pub struct Life {
    pub start: Time,
    pub end: Time,
}

/// Whether an event of this lifetime is alive at the time.
pub fn in_life(life: &Life, t: Time) -> bool
    ensures { IsTrue result ↔ ((life.now.start ≤ t) × (t < life.now.end)) }
{
    life.start <= t && t < life.end
}

/// The greatest multiple of the period that is not above the time; infinity stays.
#[tactic(auto, unfolding(crate::specs::Instant::inf))]
pub fn floor_to(t: Time, period: u64) -> Time
    requires { 0 < period }
    ensures { result ≡ floor_of period t }
{
    match t.get() {
        Some(number) => match Time::new(number - number % period) {
            Some(floor) => floor,
            None => t,
        },
        None => t,
    }
}

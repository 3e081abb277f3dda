// Times: the instants, and infinity after them all.
ghost use Rattle.std.specs.Prelude.{◌≡◌, ◌<◌, ◌≤◌, ◌-◌, ℕ, IsNone, IfSome, ◌↔◌, Bool, if◌then◌else◌, nat_lt};
ghost use Rattle.tw_rows.specs.Instant.{inf, later, earlier};

use std::marker::Model;

/// A time of the line of time: an instant from 0 to 2^61 - 1, or infinity (`inf`), which is greater than every instant. The unit is the user's own.
#[derive(Clone, Copy, Debug, PartialEq, Eq, PartialOrd, Ord)]
pub struct Time {
    number: u64,
}

impl Model for Time {
    ghost use Rattle.std.specs.Prelude.{ℕ, ◌≤◌};
    ghost use Rattle.tw_rows.specs.Instant.{inf};

    ghost Value = { ℕ };

    ghost view = { λ t. t.number };

    ghost invariant = { λ t. t.number ≤ inf };

    ghost inverse = { λ n. record { number = n } };
}

// The number that stands for infinity.
const INFINITY: u64 = 2305843009213693952;

#[tactic(auto, unfolding(crate::specs::Instant::inf))]
impl Time {
    /// The first instant.
    pub const ZERO: Time = Time { number: 0 };

    /// Infinity, written `inf`.
    pub const INF: Time = Time { number: INFINITY };

    /// The instant of that number. There is none above 2^61 - 1.
    pub fn new(n: u64) -> Option<Time>
        ensures none { IsNone result ↔ (inf ≤ n) }
        ensures some { IfSome result (λ t. t ≡ n) }
    {
        if n < INFINITY {
            Some(Time { number: n })
        } else {
            None
        }
    }

    /// The number of an instant. Infinity has none.
    pub fn get(self) -> Option<u64>
        ensures none { IsNone result ↔ (self ≡ inf) }
        ensures some { IfSome result (λ n. n ≡ self) }
        ensures within { self ≤ inf }
    {
        if self.number < INFINITY {
            Some(self.number)
        } else {
            None
        }
    }

    /// The number with which the time is kept: that of an instant is its own, and that of infinity is greater than each.
    pub fn word(self) -> u64
        ensures word { result ≡ self }
        ensures within { self ≤ inf }
    {
        self.number
    }

    /// The time that is kept with that number.
    pub fn from_word(word: u64) -> Time
        requires { word ≤ inf }
        ensures { result ≡ word }
    {
        Time { number: word }
    }

    /// The time `d` later: infinity where the sum is no instant, and infinity stays.
    pub fn plus(self, d: u64) -> Time
        ensures { result ≡ later d self }
    {
        if d < INFINITY - self.number {
            Time {
                number: self.number + d,
            }
        } else {
            Time { number: INFINITY }
        }
    }

    /// The time `d` earlier, but not before 0; infinity stays.
    pub fn less(self, d: u64) -> Time
        ensures { result ≡ earlier d self }
    {
        if self.number < INFINITY {
            Time {
                number: self.number.saturating_sub(d),
            }
        } else {
            self
        }
    }

    /// The first instant and infinity, as `ZERO` and `INF` have them.
    pub fn bounds() -> (Time, Time)
        ensures zero { result.0 ≡ 0 }
        ensures infinity { result.1 ≡ inf }
    {
        (Time::ZERO, Time::INF)
    }
}

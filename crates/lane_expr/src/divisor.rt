// Division by a divisor that is known beforehand, by a multiplication.
ghost use Rattle.std.specs.Prelude.{◌≡◌, ℕ, pos, ◌+◌, ◌*◌, ◌^◌, ◌/◌, ◌%◌, ◌<◌, ◌≤◌};
ghost use Rattle.std.specs.Int.{int_div_euclid, int_rem_euclid};
ghost use Rattle.lane_expr.specs.Reciprocals.{IsReciprocal, size_of};

/// A divisor from 1 to 2^63 - 1, and its reciprocal as a fraction of 2^(63 + shift), rounded up.
#[derive(Clone, Copy, Drop)]
pub struct Divisor {
    by: u64,
    factor: u64,
    shift: u32,
    ghost reciprocal: { IsReciprocal by factor shift },
}

impl Divisor {
    /// The divisor with its reciprocal.
    pub fn new(by: u64) -> Divisor
        requires above { 1 ≤ by }
        requires below { by < 2 ^ 63 }
        ensures { result.by ≡ by }
    {
        let shift = 64 - (by - 1).leading_zeros();
        let top = 1u128 << (63 + shift);
        let divisor = u128::from(by);
        let factor = (top + divisor - 1) / divisor;
        Divisor {
            by,
            factor: factor as u64,
            shift,
        }
    }

    /// The quotient whose rest is not negative.
    #[inline(always)]
    pub fn quotient(&self, n: i64) -> i64
        ensures { result ≡ int_div_euclid n (pos self.now.by) }
    {
        let whole = self.quotient_of_size(size(n)) as i64;
        if n < 0 { -1 - whole } else { whole }
    }

    /// The rest, which is not negative.
    #[inline(always)]
    pub fn rest(&self, n: i64) -> i64
        ensures { result ≡ int_rem_euclid n (pos self.now.by) }
    {
        let size = size(n);
        let rest = size - self.quotient_of_size(size) * self.by;
        let turned = if n < 0 { self.by - 1 - rest } else { rest };
        turned as i64
    }

    // The quotient of a number below 2^63 that is not negative.
    #[inline(always)]
    fn quotient_of_size(&self, n: u64) -> u64
        requires { n < 2 ^ 63 }
        ensures { result ≡ n / self.now.by }
    {
        let product = u128::from(2 * n) * u128::from(self.factor);
        ((product >> 64) as u64) >> self.shift
    }
}

// The number without its sign: `n` where it is not negative, and else -1 - `n`.
#[inline(always)]
fn size(n: i64) -> u64
    ensures below { result < 2 ^ 63 }
    ensures value { result ≡ size_of n }
{
    let whole = if n < 0 { -1 - n } else { n };
    whole as u64
}

// Which of two times comes first.
ghost use Rattle.std.specs.Prelude.{◌≡◌, nat_lt};

use tw_rows::Time;

/// Whether a time comes before another one.
pub(crate) fn is_before(a: Time, b: Time) -> bool
    ensures { result ≡ nat_lt a b }
{
    a < b
}

// The numbers that texts spell, whole ones and ones with places.
ghost use Rattle.std.specs.Prelude.{◌≡◌, ◌++◌, ◌∷◌, ◌^◌, ◌<◌, ◌≤◌, ℕ, List, IfSome, IfNone, length, take, decimal, IsTrue, false};
ghost use Rattle.std.specs.Char.{digit_value};
ghost use Rattle.std.specs.Str.Parse.{AllDigits, digits_value_after};
ghost use Rattle.row_reader.specs.NumberTexts.{units_text};
ghost use Rattle.row_reader.specs.Number.{units_of, number_of, below_zero, above_zero, has_minus};

fn is_digit(byte: u8) -> bool
    ensures digit { IsTrue result → (48 ≤ byte) × (byte ≤ 57) }
    ensures other { result ≡ false → 10 ≤ digit_value byte }
{
    matches!(byte, b'0'..=b'9')
}

// The number that the digit is.
fn digit_of(byte: u8) -> u64
    requires { (48 ≤ byte) × (byte ≤ 57) }
    ensures { (digit_value byte ≡ result) × (result < 10) }
{
    u64::from(byte - b'0')
}

// The number of so many digits has 64 bits, whatever they are.
const SHORT: usize = 19;

// The number of so few digits, which are added up without a test. `None` where another byte is among them.
#[tactic(auto, using(crate::proofs::Whole::digit_fits, crate::proofs::Whole::one_digit_more, crate::proofs::Whole::below_short))]
fn read_short(bytes: &[u8]) -> Option<u64>
    requires { length bytes.now ≤ 19 }
    ensures digits { IfSome result (λ n. AllDigits 10 bytes.now) }
    ensures value { IfSome result (λ n. n ≡ digits_value_after 10 0 bytes.now) }
    ensures small { IfSome result (λ n. n < 2 ^ 64) }
    ensures none { IfNone result (AllDigits 10 bytes.now →
        digits_value_after 10 0 bytes.now < 2 ^ 64 → ⊥) }
{
    let mut number: u64 = 0;
    for byte in bytes {
        if !is_digit(*byte) {
            return None;
        }
        number = number * 10 + digit_of(*byte);
    }
    Some(number)
}

// So few digits have a number below 2^60, whatever they are.
const FEW: usize = 18;

// How many digits the text begins with, of which 18 are looked at, and their number.
#[tactic(auto, using(crate::proofs::Whole::digit_fits, crate::proofs::Whole::one_digit_more))]
pub(crate) fn leading_number(text: &[u8]) -> (usize, u64)
    ensures within { result.0 ≤ length text.now }
    ensures digits { AllDigits 10 (take result.0 text.now) }
    ensures value { result.1 ≡ digits_value_after 10 0 (take result.0 text.now) }
    ensures small { result.1 < 2 ^ 60 }
{
    let most = text.len().min(FEW);
    let mut number: u64 = 0;
    for i in 0..most {
        let byte = text[i];
        if !is_digit(byte) {
            return (i, number);
        }
        number = number * 10 + digit_of(byte);
    }
    (most, number)
}

// The number that the digits add to one: to 12 the digits `05` add 1205. `None` where another byte is among them, or the
// number has more than 64 bits.
fn read_digits(start: u64, bytes: &[u8]) -> Option<u64>
    ensures digits { IfSome result (λ n. AllDigits 10 bytes.now) }
    ensures value { IfSome result (λ n. n ≡ digits_value_after 10 start bytes.now) }
    ensures small { IfSome result (λ n. n < 2 ^ 64) }
    ensures none { IfNone result (AllDigits 10 bytes.now →
        digits_value_after 10 start bytes.now < 2 ^ 64 → ⊥) }
{
    let mut number = start;
    for byte in bytes {
        if !is_digit(*byte) {
            return None;
        }
        let digit = digit_of(*byte);
        number = number.checked_mul(10)?.checked_add(digit)?;
    }
    Some(number)
}

// The number of the digits. `None` where another byte is among them, or it has more than 64 bits.
fn number_of_digits(bytes: &[u8]) -> Option<u64>
    ensures digits { IfSome result (λ n. AllDigits 10 bytes.now) }
    ensures value { IfSome result (λ n. n ≡ digits_value_after 10 0 bytes.now) }
    ensures small { IfSome result (λ n. n < 2 ^ 64) }
    ensures none { IfNone result (AllDigits 10 bytes.now →
        digits_value_after 10 0 bytes.now < 2 ^ 64 → ⊥) }
{
    if bytes.len() <= SHORT {
        read_short(bytes)
    } else {
        read_digits(0, bytes)
    }
}

// The number of which these are the digits, without a leading zero.
fn read_decimal(bytes: &[u8]) -> Option<u64>
    ensures some { IfSome result (λ n. bytes.now ≡ decimal n) }
    ensures small { IfSome result (λ n. n < 2 ^ 64) }
    ensures none { IfNone result ((n : ℕ) → n < 2 ^ 64 → bytes.now ≡ decimal n → ⊥) }
{
    if bytes.is_empty() {
        return None;
    }
    if bytes[0] == b'0' {
        return if bytes.len() == 1 { Some(0) } else { None };
    }
    number_of_digits(bytes)
}

/// The number of 64 bits that the text spells, as `read_number` does below a limit. It takes no memory.
pub fn read_whole(bytes: &[u8]) -> Option<u64>
    ensures { result ≡ number_of (2 ^ 64) bytes.now }
{
    read_decimal(bytes)
}

/// The number below the limit that the text spells: its decimal digits alone, without a sign or a leading zero, as in
/// `0` and `17`. `None` where the text spells no such number, and so for `+17`, `017` and the limit itself. It takes no
/// memory.
pub fn read_number(bytes: &[u8], limit: u64) -> Option<u64>
    ensures { result ≡ number_of limit bytes.now }
{
    let number = read_decimal(bytes)?;
    if number < limit { Some(number) } else { None }
}

// What stands before and behind a point that has so many bytes behind it.
fn split_at_point(bytes: &[u8], places: usize) -> Option<(&[u8], &[u8])>
    ensures some { IfSome result (λ p. (bytes.now ≡ p.0.now ++ 46 ∷ p.1.now)
        × (length p.1.now ≡ places)) }
    ensures none { IfNone result ((a b : List ℕ) → bytes.now ≡ a ++ 46 ∷ b → length b ≡ places →
        ⊥) }
{
    if bytes.len() <= places {
        return None;
    }
    let point = bytes.len() - places - 1;
    if bytes[point] != b'.' {
        return None;
    }
    Some((&bytes[..point], &bytes[point + 1..]))
}

// The number of units that the text spells, without a sign.
fn read_units(bytes: &[u8], places: usize) -> Option<u64>
    ensures some { IfSome result (λ n. bytes.now ≡ units_text places n) }
    ensures small { IfSome result (λ n. n < 2 ^ 64) }
    ensures none { IfNone result ((n : ℕ) → n < 2 ^ 64 → bytes.now ≡ units_text places n → ⊥) }
{
    if places == 0 {
        return read_decimal(bytes);
    }
    let (whole, fraction) = split_at_point(bytes, places)?;
    let number = read_decimal(whole)?;
    read_digits(number, fraction)
}

// The number of that many units below zero. There is no zero below zero.
fn negative(units: u64) -> Option<i64>
    ensures { result ≡ below_zero units }
{
    if units == 0 || units > 1 << 63 {
        return None;
    }
    Some(-1 - (units - 1) as i64)
}

// The number of that many units.
fn positive(units: u64) -> Option<i64>
    ensures { result ≡ above_zero units }
{
    if units < 1 << 63 {
        Some(units as i64)
    } else {
        None
    }
}

#[tactic(auto, unfolding(crate::specs::Number::has_minus))]
fn has_minus(bytes: &[u8]) -> bool
    ensures value { result ≡ has_minus bytes.now }
    ensures some { IsTrue result → 1 ≤ length bytes.now }
{
    bytes.len() > 0 && bytes[0] == b'-'
}

/// The number of units that the text spells, of which ten to the power of the places make one: `-0.05` spells -5 with 2
/// places. `None` where the text spells no such number of 64 bits with a sign. It takes no memory.
pub fn read_places(bytes: &[u8], places: u8) -> Option<i64>
    ensures { result ≡ units_of places bytes.now }
{
    if has_minus(bytes) {
        return negative(read_units(&bytes[1..], places as usize)?);
    }
    positive(read_units(bytes, places as usize)?)
}

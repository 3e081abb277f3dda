// Cuts a text into its words.
ghost use Rattle.std.specs.Prelude.{◌≡◌, ℕ, ◌+◌, ◌-◌, ◌<◌, ◌≤◌, List, [], ◌∷◌, ◌++◌, length, map};
ghost use Rattle.std.specs.Prelude.{take, drop, get_or, true, IfOk, IsTrue, nat_le, if◌then◌else◌};
ghost use Rattle.std.specs.Prelude.{Some, None, IfSome};
ghost use Rattle.std.specs.List.{take_while};
ghost use Rattle.query_text.specs.declared.word.Word.TheVariants.{Number, Bad};
ghost use Rattle.query_text.specs.Words.{is_space, is_letter, is_digit, is_name_byte, reserved};
ghost use Rattle.query_text.specs.Words.{signs, look_up, same_bytes, first_of_table, name_word};
ghost use Rattle.query_text.specs.Words.{name_length, number_word, decimal_word, decimal_from};
ghost use Rattle.query_text.specs.Words.{within_greatest, number_length, fraction_length};
ghost use Rattle.query_text.specs.Words.{numeric_front, quoted_rest, quoted_word, front_of};
ghost use Rattle.query_text.specs.Words.{words_of};

use crate::word::{RESERVED, SIGNS, Sign, Spot, Word};
use std::alloc::Global;
use tw_rows::Memory;

// The greatest number of a query text.
const GREATEST: u64 = 9_223_372_036_854_775_807;

// How many digits may follow a point.
const MOST_PLACES: usize = 18;

fn is_space(b: u8) -> bool
    ensures { result ≡ is_space b }
{
    matches!(b, b' ' | b'\t' | b'\n' | b'\r')
}

fn is_letter(b: u8) -> bool
    ensures { result ≡ is_letter b }
{
    matches!(b, b'a'..=b'z' | b'A'..=b'Z' | b'_')
}

fn is_digit(b: u8) -> bool
    ensures { result ≡ is_digit b }
{
    matches!(b, b'0'..=b'9')
}

fn is_name_byte(b: u8) -> bool
    ensures { result ≡ is_name_byte b }
{
    is_letter(b) || is_digit(b)
}

fn same_bytes(a: &[u8], b: &[u8]) -> bool
    ensures { result ≡ same_bytes a.now b.now }
{
    a == b
}

// What the table has for exactly this word.
fn look_up(mut table: &[(&[u8], Sign)], word: &[u8]) -> Option<Sign>
    ensures { result ≡ look_up (map (λ k. (k.0.now, k.1)) table.entry.now) word.now }
{
    while let [entry, rest @ ..] = table {
        if same_bytes(entry.0, word) {
            return Some(entry.1);
        }
        table = rest;
    }
    None
}

// The reserved word that these bytes are.
fn reserved(word: &[u8]) -> Option<Sign>
    ensures { result ≡ look_up reserved word.now }
{
    look_up(&RESERVED, word)
}

// The first of the table that the bytes begin with, and its length.
fn first_of_table(mut table: &[(&[u8], Sign)], bytes: &[u8]) -> (Word, usize)
    ensures which { result ≡ first_of_table (map (λ k. (k.0.now, k.1)) table.entry.now) bytes.now }
{
    while let [entry, rest @ ..] = table {
        if bytes.starts_with(entry.0) {
            return (Word::Fixed(entry.1), entry.0.len());
        }
        table = rest;
    }
    (Word::Bad, 1)
}

// The sign that stands first, and its length.
fn sign_word(bytes: &[u8]) -> (Word, usize)
    ensures which { result ≡ first_of_table signs bytes.now }
{
    first_of_table(&SIGNS, bytes)
}

// The word that a run of letters and digits is.
fn name_word(run: &[u8]) -> Word
    ensures { result ≡ name_word run.now }
{
    match reserved(run) {
        Some(sign) => Word::Fixed(sign),
        None if run.len() <= 64 => Word::Name(run.len()),
        None => Word::Bad,
    }
}

// The number that these digits spell behind those that spell `value`, where it is not past the greatest.
fn number_from(mut value: u64, mut digits: &[u8]) -> Option<u64>
    requires fits { value ≤ 9223372036854775807 }
    ensures { result ≡ within_greatest (decimal_from value digits.entry.now) }
{
    while let [digit, rest @ ..] = digits {
        let next = u128::from(value) * 10 + u128::from(digit.saturating_sub(b'0'));
        if next > u128::from(GREATEST) {
            return None;
        }
        value = next as u64;
        digits = rest;
    }
    Some(value)
}

// The word that these digits are.
fn number_word(digits: &[u8]) -> Word
    ensures { result ≡ number_word digits.now }
{
    match number_from(0, digits) {
        Some(value) => Word::Number(value),
        None => Word::Bad,
    }
}

// The word that these digits are, with a point before the fraction.
fn decimal_word(whole: &[u8], fraction: &[u8]) -> Word
    ensures { result ≡ decimal_word whole.now fraction.now }
{
    if fraction.len() > MOST_PLACES {
        return Word::Bad;
    }
    let Some(value) = number_from(0, whole) else {
        return Word::Bad;
    };
    match number_from(value, fraction) {
        Some(units) => Word::Decimal {
            units,
            places: fraction.len() as u8,
        },
        None => Word::Bad,
    }
}

// How many bytes of a name stand first.
fn name_length(bytes: &[u8]) -> usize
    ensures { result ≡ name_length bytes.now }
{
    bytes.iter().take_while(|b| is_name_byte(**b)).count()
}

// How many digits stand first.
fn digits_length(bytes: &[u8]) -> usize
    ensures { result ≡ length (take_while is_digit bytes.now) }
{
    bytes.iter().take_while(|b| is_digit(**b)).count()
}

// How many bytes the number has that stands first: a 0 stands alone.
#[tactic(auto, unfolding(crate::specs::Words::number_length))]
fn number_length(bytes: &[u8]) -> usize
    requires some { 0 < length bytes.now }
    requires digit { is_digit (get_or bytes.now 0 0) ≡ true }
    ensures which { result ≡ number_length bytes.now }
    ensures fits { (0 < result) × (result ≤ length bytes.now) }
{
    if bytes[0] == b'0' {
        1
    } else {
        digits_length(bytes)
    }
}

// How many digits follow a point that stands first.
fn fraction_length(bytes: &[u8]) -> usize
    ensures which { result ≡ fraction_length bytes.now }
{
    match bytes {
        [b'.', digits @ ..] => digits_length(digits),
        _ => 0,
    }
}

// The number or the decimal that stands first, and its length.
fn numeric_front(bytes: &[u8]) -> (Word, usize)
    requires some { 0 < length bytes.now }
    requires digit { is_digit (get_or bytes.now 0 0) ≡ true }
    ensures which { result ≡ numeric_front bytes.now }
    ensures fits { (0 < result.1) × (result.1 ≤ length bytes.now) }
{
    let n = number_length(bytes);
    let places = fraction_length(&bytes[n..]);
    if places == 0 {
        return (number_word(&bytes[..n]), n);
    }
    let end = n + 1 + places;
    (decimal_word(&bytes[..n], &bytes[n + 1..end]), end)
}

// Behind an opening quote: whether a quote closes the text, and how many bytes there are up to its end, or up to
// where the line ends.
fn quoted_rest(bytes: &[u8]) -> (bool, usize)
    ensures which { result ≡ quoted_rest bytes.now }
    ensures fits { result.1 ≤ length bytes.now }
{
    let mut at = 0;
    'bytes: while at < bytes.len() {
        let b = bytes[at];
        if b == b'\n' {
            return (false, at);
        }
        if b == b'\r' {
            return (false, at);
        }
        if b != b'\'' {
            at += 1;
        } else {
            if at + 1 == bytes.len() {
                return (true, at + 1);
            }
            if bytes[at + 1] != b'\'' {
                return (true, at + 1);
            }
            at += 2;
        }
    }
    (false, at)
}

// The longest word that stands first, and its length.
#[tactic(auto, unfolding(crate::specs::Words::front_of))]
fn front(bytes: &[u8]) -> (Word, usize)
    requires { 0 < length bytes.now }
    ensures which { result ≡ front_of bytes.now }
    ensures fits { (0 < result.1) × (result.1 ≤ length bytes.now) }
{
    let first = bytes[0];
    if is_letter(first) {
        let n = name_length(bytes);
        return (name_word(&bytes[..n]), n);
    }
    if is_digit(first) {
        return numeric_front(bytes);
    }
    if first != b'\'' {
        return sign_word(bytes);
    }
    match quoted_rest(&bytes[1..]) {
        (true, n) => (Word::Quoted(n + 1), n + 1),
        (false, n) => (Word::Bad, n + 1),
    }
}

/// The words of a text, in its order.
pub fn words(alloc: Global, text: &str) -> Result<Vec<Spot>, Memory>
    ensures { IfOk result (λ v. v.items ≡ words_of text.now) }
{
    let bytes = text.as_bytes();
    let mut spots = Vec::new(alloc);
    let mut at = 0;
    'words: while at < bytes.len() {
        if is_space(bytes[at]) {
            at += 1;
        } else {
            let (word, n) = front(&bytes[at..]);
            spots.push(Spot { at, word })?;
            at += n;
        }
    }
    Ok(spots)
}

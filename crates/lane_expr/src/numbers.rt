// Blocks of 64 numbers, with their arithmetic and their comparisons.
ghost use Rattle.std.specs.Prelude.{◌≡◌, ◌+◌, ◌≤◌, ◌<◌, ◌^◌, ◌+ℤ◌, ◌-ℤ◌, ◌*ℤ◌, neg_ℤ, ℕ, pos, length, int_lt};
ghost use Rattle.std.specs.Int.RustNames.{FitsSigned};
ghost use Rattle.std.specs.Int.{int_wrap, int_div_euclid, int_rem_euclid, w64};
ghost use Rattle.std.specs.Ordering.{int_eq};
ghost use Rattle.occupancy.specs.Bits.{test};
ghost use Rattle.lane_expr.specs.Lanes.{number};

use crate::divisor::Divisor;
use crate::{BLOCK, EQUAL, ORDERED};
use std::simd::prelude::*;

/// 64 numbers.
#[derive(Clone, Copy, Drop)]
pub struct Numbers {
    pub lanes: [i64; BLOCK],
    ghost long: { length lanes ≡ 64 },
    ghost whole: { (k : ℕ) → FitsSigned w64 (number lanes k) },
}

impl Numbers {
    /// The same number 64 times.
    pub fn filled(value: i64) -> Numbers
        ensures { (k : ℕ) → k < 64 → number result.lanes k ≡ value }
    {
        Numbers {
            lanes: [value; BLOCK],
        }
    }
}

/// Writes the same number 64 times.
pub fn fill(into: &mut Numbers, value: i64)
    ensures { (k : ℕ) → k < 64 → number into.new.lanes k ≡ value }
{
    *into = Numbers::filled(value);
}

/// Writes the numbers of the column from `first` on to the first `count` lanes.
pub fn load(into: &mut Numbers, column: &[i64], first: usize, count: usize)
    requires within { first + count ≤ length column.now }
    requires few { count ≤ 64 }
    ensures { (k : ℕ) → k < count → number into.new.lanes k ≡ number column.now (first + k) }
{
    if count == BLOCK {
        // A copy of an array is faster than the loop.
        if let Some(block) = column[first..].first_chunk::<BLOCK>() {
            tell_whole(block);
            into.lanes = *block;
            return;
        }
    }
    for k in 0..count {
        into.lanes[k] = column[first + k];
    }
}

// Tells that each number of the slice is one of 64 bits, which a proof learns where it is read. The machine code has
// no such loop.
#[inline(always)]
fn tell_whole(numbers: &[i64])
    ensures { (k : ℕ) → k < length numbers.now → FitsSigned w64 (number numbers.now k) }
{
    for k in 0..numbers.len() {
        let _number = numbers[k];
    }
}

/// Writes the sums, which wrap.
pub fn sums(into: &mut Numbers, left: &Numbers, right: &Numbers)
    ensures { (k : ℕ) → k < 64 → number into.new.lanes k
        ≡ int_wrap w64 (number left.now.lanes k +ℤ number right.now.lanes k) }
{
    let left = i64x64::from_array(left.lanes);
    let right = i64x64::from_array(right.lanes);
    into.lanes = (left + right).to_array();
}

/// Writes the differences, which wrap.
pub fn differences(into: &mut Numbers, left: &Numbers, right: &Numbers)
    ensures { (k : ℕ) → k < 64 → number into.new.lanes k
        ≡ int_wrap w64 (number left.now.lanes k -ℤ number right.now.lanes k) }
{
    let left = i64x64::from_array(left.lanes);
    let right = i64x64::from_array(right.lanes);
    into.lanes = (left - right).to_array();
}

/// Writes the products, which wrap.
pub fn products(into: &mut Numbers, left: &Numbers, right: &Numbers)
    ensures { (k : ℕ) → k < 64 → number into.new.lanes k
        ≡ int_wrap w64 (number left.now.lanes k *ℤ number right.now.lanes k) }
{
    let left = i64x64::from_array(left.lanes);
    let right = i64x64::from_array(right.lanes);
    into.lanes = (left * right).to_array();
}

/// Writes the numbers with their signs turned, which wrap.
pub fn negations(into: &mut Numbers, of: &Numbers)
    ensures { (k : ℕ) → k < 64 → number into.new.lanes k
        ≡ int_wrap w64 (neg_ℤ (number of.now.lanes k)) }
{
    differences(into, &Numbers::filled(0), of);
}

/// Writes the quotients whose rests are not negative.
pub fn quotients(into: &mut Numbers, of: &Numbers, by: &Divisor)
    ensures { (k : ℕ) → k < 64 → number into.new.lanes k
        ≡ int_div_euclid (number of.now.lanes k) (pos by.now.by) }
{
    for k in 0..BLOCK {
        into.lanes[k] = by.quotient(of.lanes[k]);
    }
}

/// Writes the rests, which are not negative.
pub fn rests(into: &mut Numbers, of: &Numbers, by: &Divisor)
    ensures { (k : ℕ) → k < 64 → number into.new.lanes k
        ≡ int_rem_euclid (number of.now.lanes k) (pos by.now.by) }
{
    for k in 0..BLOCK {
        into.lanes[k] = by.rest(of.lanes[k]);
    }
}

/// Tells by bit k of a word whether the left number of lane k is below the right one.
pub fn marks_below(left: &Numbers, right: &Numbers) -> u64
    ensures { (k : ℕ) → k < 64 → test result k
        ≡ int_lt (number left.now.lanes k) (number right.now.lanes k) }
{
    let mut word = 0;
    for part in 0..BLOCK / ORDERED {
        word |= part_below(left, right, ORDERED * part) << (ORDERED * part);
    }
    word
}

/// Tells by bit k of a word whether the numbers of lane k are the same.
pub fn marks_same(left: &Numbers, right: &Numbers) -> u64
    ensures { (k : ℕ) → k < 64 → test result k
        ≡ int_eq (number left.now.lanes k) (number right.now.lanes k) }
{
    let mut word = 0;
    for part in 0..BLOCK / EQUAL {
        word |= part_same(left, right, EQUAL * part) << (EQUAL * part);
    }
    word
}

// The marks of the part from the lane `at` on: whether the left number is below the right one.
#[inline(always)]
fn part_below(left: &Numbers, right: &Numbers, at: usize) -> u64
    requires { at + 4 ≤ 64 }
    ensures few { result < 2 ^ 4 }
    ensures marks { (k : ℕ) → k < 4 → test result k
        ≡ int_lt (number left.now.lanes (at + k)) (number right.now.lanes (at + k)) }
{
    let left = i64x4::from_slice(&left.lanes[at..]);
    let right = i64x4::from_slice(&right.lanes[at..]);
    left.simd_lt(right).to_bitmask()
}

// The marks of the part from the lane `at` on: whether the numbers are the same.
#[inline(always)]
fn part_same(left: &Numbers, right: &Numbers, at: usize) -> u64
    requires { at + 16 ≤ 64 }
    ensures few { result < 2 ^ 16 }
    ensures marks { (k : ℕ) → k < 16 → test result k
        ≡ int_eq (number left.now.lanes (at + k)) (number right.now.lanes (at + k)) }
{
    let left = i64x16::from_slice(&left.lanes[at..]);
    let right = i64x16::from_slice(&right.lanes[at..]);
    left.simd_eq(right).to_bitmask()
}

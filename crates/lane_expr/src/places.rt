// Blocks of 64 places of texts, and which lanes of two have the same.
ghost use Rattle.std.specs.Prelude.{◌≡◌, ◌+◌, ◌≤◌, ◌<◌, ◌^◌, ◌==◌, ℕ, length};
ghost use Rattle.occupancy.specs.Bits.{test};
ghost use Rattle.lane_expr.specs.Lanes.{place};

use crate::{BLOCK, EQUAL};
use std::simd::prelude::*;

/// 64 places.
#[derive(Clone, Copy, Drop)]
pub struct Places {
    pub lanes: [u64; BLOCK],
    ghost long: { length lanes ≡ 64 },
}

impl Places {
    /// The same place 64 times.
    pub fn filled(value: u64) -> Places
        ensures { (k : ℕ) → k < 64 → place result.lanes k ≡ value }
    {
        Places {
            lanes: [value; BLOCK],
        }
    }
}

/// Writes the same place 64 times.
pub fn fill_places(into: &mut Places, value: u64)
    ensures { (k : ℕ) → k < 64 → place into.new.lanes k ≡ value }
{
    *into = Places::filled(value);
}

/// Writes the places of the column from `first` on to the first `count` lanes.
pub fn load_places(into: &mut Places, column: &[u64], first: usize, count: usize)
    requires within { first + count ≤ length column.now }
    requires few { count ≤ 64 }
    ensures { (k : ℕ) → k < count → place into.new.lanes k ≡ place column.now (first + k) }
{
    if count == BLOCK {
        // A copy of an array is faster than the loop.
        if let Some(block) = column[first..].first_chunk::<BLOCK>() {
            into.lanes = *block;
            return;
        }
    }
    for k in 0..count {
        into.lanes[k] = column[first + k];
    }
}

/// Tells by bit k of a word whether the places of lane k are the same.
pub fn marks_same_places(left: &Places, right: &Places) -> u64
    ensures { (k : ℕ) → k < 64 → test result k
        ≡ (place left.now.lanes k == place right.now.lanes k) }
{
    let mut word = 0;
    for part in 0..BLOCK / EQUAL {
        word |= part_same(left, right, EQUAL * part) << (EQUAL * part);
    }
    word
}

// The marks of the part from the lane `at` on: whether the places are the same.
#[inline(always)]
fn part_same(left: &Places, right: &Places, at: usize) -> u64
    requires { at + 16 ≤ 64 }
    ensures few { result < 2 ^ 16 }
    ensures marks { (k : ℕ) → k < 16 → test result k
        ≡ (place left.now.lanes (at + k) == place right.now.lanes (at + k)) }
{
    let left = u64x16::from_slice(&left.lanes[at..]);
    let right = u64x16::from_slice(&right.lanes[at..]);
    left.simd_eq(right).to_bitmask()
}

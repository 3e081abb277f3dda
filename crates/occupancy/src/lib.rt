//! Which places of a list are occupied: a list of truth values, 64 to a word, whose room is made once.
#![tactic(auto)]

ghost use Rattle.std.specs.Prelude.{◌≡◌, ℕ, ◌+◌, ◌*◌, ◌^◌, ◌%◌, ◌<◌, ◌≤◌, ◌↔◌, true, false, []};
ghost use Rattle.std.specs.Prelude.{◌∷◌, ◌++◌, length, count_by, replicate, slice_set, IfOk, IfSome, IfNone};
ghost use Rattle.std.specs.Prelude.{IsTrue};
ghost use Rattle.occupancy.specs.Bits.{is_set_at, IsNextSet, IsNoneSet, both, test, word_bits};

use std::alloc::{AllocError, Global};
use std::marker::Model;

/// A list of truth values with room for a number of them that is chosen at the start. Only `new`
/// takes memory. Contracts see it as its truth values and its capacity.
#[derive(Drop)]
pub struct Occupancy {
    // 64 bits to a word, the first one lowest. The bits past `len` are 0.
    words: Vec<u64>,
    len: usize,
    // How many bits there is room for, as asked for.
    capacity: usize,
}

impl Model for Occupancy {
    ghost use Rattle.std.specs.Prelude.{◌≡◌, ◌≤◌, ◌+◌, ◌*◌, ◌/◌, vec_len, vec_capacity};
    ghost use Rattle.occupancy.specs.Bits.{Bits, bits_of, IsClean, IsRoomy};

    ghost Value = { Bits };

    ghost view = { λ o. record { items = bits_of o.words.items o.len; capacity = o.capacity } };

    ghost invariant = { λ o. IsRoomy (vec_len o.words) (vec_capacity o.words) o.len o.capacity
        × IsClean o.words.items o.len };
}

impl Occupancy {
    /// An empty list with room for `capacity` bits.
    pub fn new(alloc: Global, capacity: usize) -> Result<Occupancy, AllocError>
        ensures { IfOk result (λ o. o ≡ record { items = []; capacity = capacity }) }
    {
        Ok(Occupancy {
            words: Vec::with_capacity(alloc, capacity.div_ceil(64))?,
            len: 0,
            capacity,
        })
    }

    /// Adds the bit last.
    pub fn push(&mut self, bit: bool)
        requires { length self.old.items < self.old.capacity }
        ensures { self.new ≡ record self.old { items = self.old.items ++ bit ∷ [] } }
    {
        let place = self.len % 64;
        if place == 0 {
            self.words.push_reserved(u64::from(bit));
        } else {
            let last = self.words.len() - 1;
            self.words[last] |= u64::from(bit) << place;
        }
        self.len += 1;
    }

    /// Adds the lowest `count` bits of the word, where the list ends with a full word.
    pub fn push_word(&mut self, word: u64, count: usize)
        requires aligned { length self.old.items % 64 ≡ 0 }
        requires some { 1 ≤ count }
        requires few { count ≤ 64 }
        requires clean { word < 2 ^ count }
        requires room { length self.old.items + count ≤ self.old.capacity }
        ensures { self.new ≡ record self.old { items = self.old.items ++ word_bits word count } }
    {
        self.words.push_reserved(word);
        self.len += count;
    }

    /// Sets the bit at the place `i`.
    pub fn set(&mut self, i: usize)
        requires { i < length self.old.items }
        ensures { self.new ≡ record self.old { items = slice_set self.old.items i true } }
    {
        self.words[i / 64] |= 1 << (i % 64);
    }

    /// Clears the bit at the place `i`.
    pub fn clear_at(&mut self, i: usize)
        requires { i < length self.old.items }
        ensures { self.new ≡ record self.old { items = slice_set self.old.items i false } }
    {
        self.words[i / 64] &= !(1 << (i % 64));
    }

    /// Tells whether the bit at the place `i` is set.
    pub fn is_set(&self, i: usize) -> bool
        requires { i < length self.now.items }
        ensures { result ≡ is_set_at self.now.items i }
    {
        (self.words[i / 64] >> (i % 64)) & 1 == 1
    }

    /// The bits from place 64 * w on, the first one lowest. Those past the end are 0.
    pub fn word(&self, w: usize) -> u64
        requires { 64 * w < length self.now.items }
        ensures { (k : ℕ) → k < 64 → test result k ≡ is_set_at self.now.items (64 * w + k) }
    {
        self.words[w]
    }

    /// Leaves set just those bits that are set in the mask too.
    pub fn and_mask(&mut self, mask: &Occupancy)
        requires { length mask.now.items ≡ length self.old.items }
        ensures { self.new ≡ record self.old { items = both self.old.items mask.now.items } }
    {
        for (w, kept) in mask.words.iter().enumerate() {
            self.words[w] &= *kept;
        }
    }

    /// Adds `count` bits that are set, a word at a time where the list ends with a full word.
    pub fn push_set(&mut self, count: usize)
        requires { length self.old.items + count ≤ self.old.capacity }
        ensures { self.new ≡ record self.old { items = self.old.items ++ replicate count true } }
    {
        let mut left = count;
        'words: while left >= 64 && self.len % 64 == 0 {
            self.push_word(u64::MAX, 64);
            left -= 64;
        }
        'bits: while left > 0 {
            self.push(true);
            left -= 1;
        }
    }

    /// How many bits are set.
    pub fn count(&self) -> usize
        ensures { result ≡ count_by (λ b. b) self.now.items }
    {
        // A read of the length tells the proof its range.
        let _len = self.len;
        let mut count = 0;
        for word in &self.words {
            count += word.count_ones() as usize;
        }
        count
    }

    /// The least place at `from` or later whose bit is set.
    pub fn next_set(&self, from: usize) -> Option<usize>
        ensures found { IfSome result (IsNextSet self.now.items from) }
        ensures within { IfSome result (λ place. place < length self.now.items) }
        ensures none { IfNone result (IsNoneSet self.now.items from) }
    {
        if from >= self.len {
            return None;
        }
        let first = from / 64;
        let low = self.words[first] & (u64::MAX << (from % 64));
        if low != 0 {
            return Some(64 * first + low.trailing_zeros() as usize);
        }
        for w in first + 1..self.words.len() {
            let word = self.words[w];
            if word != 0 {
                return Some(64 * w + word.trailing_zeros() as usize);
            }
        }
        None
    }

    /// Leaves no bit, and the room as it was.
    pub fn reset(&mut self)
        ensures { self.new ≡ record self.old { items = [] } }
    {
        self.words.clear();
        self.len = 0;
    }

    /// How many bits the list holds, set or not.
    pub fn len(&self) -> usize
        ensures len { result ≡ length self.now.items }
        ensures within { length self.now.items ≤ self.now.capacity }
    {
        self.len
    }

    /// Tells whether the list holds no bit.
    pub fn is_empty(&self) -> bool
        ensures { IsTrue result ↔ (self.now.items ≡ []) }
    {
        self.len == 0
    }

    /// How many bits there is room for in all.
    pub fn capacity(&self) -> usize
        ensures capacity { result ≡ self.now.capacity }
        ensures within { length self.now.items ≤ self.now.capacity }
    {
        self.capacity
    }
}

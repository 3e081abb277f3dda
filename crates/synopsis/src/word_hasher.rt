// A hasher that takes a whole word at a time.
ghost use Rattle.std.specs.Prelude.{◌≡◌, slice_index};
ghost use Rattle.synopsis.specs.Words.{folded, joined};

use std::hash::Hasher;

const MULTIPLIER: u64 = 0x9e37_79b9_7f4a_7c15;

/// Joins each word to what came before it. Its seed is fixed, so whoever picks the data can make them collide.
#[derive(Clone, Copy)]
pub struct WordHasher {
    state: u64,
}

// The two halves of the product of 128 bits, as one word.
fn folded_product(a: u64, b: u64) -> u64
    ensures { result ≡ folded a b }
{
    let product = a as u128 * b as u128;
    (product & 0xFFFF_FFFF_FFFF_FFFF) as u64 ^ (product >> 64) as u64
}

fn join(state: u64, word: u64) -> u64
    ensures { result ≡ joined state word }
{
    folded_product(state ^ word, MULTIPLIER)
}

fn byte_or_zero(bytes: &[u8], i: usize) -> u8
    ensures { result ≡ slice_index bytes.now i }
{
    bytes.get(i).copied().unwrap_or(0)
}

impl Default for WordHasher {
    ghost use Rattle.synopsis.specs.Hashing.{fresh};

    ghost is_default = { λ h. h ≡ fresh };

    fn default() -> WordHasher {
        WordHasher {
            state: 0x243f_6a88_85a3_08d3,
        }
    }
}

impl Hasher for WordHasher {
    ghost use Rattle.synopsis.specs.Hashing.{written};

    ghost write = { written };

    ghost finish = { λ h. h.state };

    fn finish(&self) -> u64 {
        self.state
    }

    // Of more than eight bytes the first eight count.
    fn write(&mut self, bytes: &[u8]) {
        let word = u64::from_le_bytes([
            byte_or_zero(bytes, 0),
            byte_or_zero(bytes, 1),
            byte_or_zero(bytes, 2),
            byte_or_zero(bytes, 3),
            byte_or_zero(bytes, 4),
            byte_or_zero(bytes, 5),
            byte_or_zero(bytes, 6),
            byte_or_zero(bytes, 7),
        ]);
        self.state = join(self.state, word);
    }

    fn write_u64(&mut self, i: u64) {
        self.state = join(self.state, i);
    }

    fn write_usize(&mut self, i: usize) {
        self.state = join(self.state, i as u64);
    }
}

// The truth values of the rows of a block, as the bits of a word.
ghost use Rattle.std.specs.Prelude.{◌≡◌, ◌≢◌, ◌+◌, ◌<◌, ◌≤◌, ℕ, false, length, slice_index_or};
ghost use Rattle.occupancy.specs.Bits.{test};

use column_pool::Bit;

/// Whether bit j of the word is set.
#[inline(always)]
pub(crate) fn is_marked(word: u64, j: usize) -> bool
    requires { j < 64 }
    ensures { result ≡ test word j }
{
    (word >> j) & 1 == 1
}

/// The word with a bit more, where there was none.
#[inline(always)]
pub(crate) fn with_mark(word: u64, j: usize, bit: bool) -> u64
    requires place { j < 64 }
    requires clear { test word j ≡ false }
    ensures same { test result j ≡ bit }
    ensures others { (k : ℕ) → k < 64 → k ≢ j → test result k ≡ test word k }
{
    word | (u64::from(bit) << j)
}

/// The word of `count` bits, from the place `first` on.
pub(crate) fn word_of(bits: &[Bit], first: usize, count: usize) -> u64
    requires within { first + count ≤ length bits.now }
    requires few { count ≤ 64 }
    ensures { (j : ℕ) → j < count → test result j ≡ slice_index_or bits.now (first + j) false }
{
    let mut word = 0;
    for j in 0..count {
        word = with_mark(word, j, bits[first + j].is_set());
    }
    word
}

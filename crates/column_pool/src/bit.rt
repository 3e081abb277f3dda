// A truth value in one byte.
ghost use Rattle.std.specs.Prelude.{◌≡◌};

use crate::cell::Cell;
use std::marker::Model;

/// A truth value in one byte, which is 0 or 1. Contracts see it as the truth value.
#[derive(Clone, Copy, Debug, PartialEq, Eq)]
pub struct Bit {
    byte: u8,
}

impl Model for Bit {
    ghost use Rattle.std.specs.Prelude.{Bool, ◌==◌, ◌≤◌};
    ghost use Rattle.std.proofs.Common.{ap};
    ghost use Rattle.column_pool.specs.Word.{bit_word, bit_word-is_one};

    ghost Value = { Bool };

    ghost view = { λ b. b.byte == 1 };

    ghost invariant = { λ b. b.byte ≤ 1 };

    ghost inverse = { λ set. record { byte = bit_word set } };

    ghost inverse_ok = { λ b h. ap (λ n. record { byte = n }) (bit_word-is_one b.byte h) };
}

impl Bit {
    /// The bit that is set where `set` is true.
    pub fn new(set: bool) -> Bit
        ensures { result ≡ set }
    {
        Bit {
            byte: u8::from(set),
        }
    }

    /// Tells whether the bit is set.
    pub fn is_set(self) -> bool
        ensures { result ≡ self }
    {
        self.byte == 1
    }
}

/// The word of a bit is 0 or 1. Every word but 0 stands for the bit that is set.
impl Cell for Bit {
    ghost use Rattle.column_pool.specs.Word.{bit_word, bit_of, bit_of-bit_word};

    ghost word_of = { bit_word };

    ghost value_of = { bit_of };

    ghost Fits = { λ _. Unit {0} };

    ghost round_trip = { λ b _. bit_of-bit_word b };

    fn to_word(self) -> u64 {
        u64::from(self.byte)
    }

    fn from_word(word: u64) -> Bit {
        Bit::new(word != 0)
    }

    fn fits(self) {}
}

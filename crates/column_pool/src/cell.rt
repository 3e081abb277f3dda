// What a column holds: values that fit into one word of 64 bits.
ghost use Rattle.std.specs.Prelude.{◌≡◌, ℕ, ◌<◌, ◌^◌, ◌↔◌, IsTrue};
ghost use Rattle.std.proofs.Common.{sym, ap, ◌∙◌};
ghost use Rattle.column_pool.specs.Word.{int_word, int_of, IsInt, int_of-int_word};

/// A value that is kept as one word of 64 bits and got back from it.
///
/// `word_of` gives the word of a value, `value_of` the value of a word, and `Fits` holds of just those
/// numbers that are values of the type. No two values have one word.
pub trait Cell: Copy {
    ghost word_of: { Self → ℕ };

    ghost value_of: { ℕ → Self };

    ghost Fits: { Self → Type 0 };

    /// The word that stands for the value.
    fn to_word(self) -> u64
        ensures { result ≡ word_of self };

    /// The value for which the word stands. Each word stands for one.
    fn from_word(word: u64) -> Self
        ensures { result ≡ value_of word };

    /// Does nothing. Generic code calls it to learn that the value it holds is one of its type.
    fn fits(self)
        ensures { Fits self };

    // A value is got back from its word.
    ghost round_trip: { (x : Self) → Fits x → value_of (word_of x) ≡ x };

    // Two values with one word are the same value.
    ghost one_word: { (x y : Self) → Fits x → Fits y → word_of x ≡ word_of y → x ≡ y } = { λ x y fits_x fits_y same.
        sym (round_trip x fits_x) ∙ ap value_of same ∙ round_trip y fits_y };
}

/// A number is kept as its 64 bits in two's complement.
impl Cell for i64 {
    ghost word_of = { int_word };

    ghost value_of = { int_of };

    ghost Fits = { IsInt };

    ghost round_trip = { int_of-int_word };

    fn to_word(self) -> u64 {
        self.cast_unsigned()
    }

    fn from_word(word: u64) -> i64 {
        word.cast_signed()
    }

    fn fits(self) {}
}

/// A number is its own word.
impl Cell for u64 {
    ghost use Rattle.std.specs.Prelude.{refl};

    ghost word_of = { λ x. x };

    ghost value_of = { λ w. w };

    ghost Fits = { λ x. x < 2 ^ 64 };

    ghost round_trip = { λ x h. refl };

    fn to_word(self) -> u64 {
        self
    }

    fn from_word(word: u64) -> u64 {
        word
    }

    fn fits(self) {}
}

/// Tells whether two cells are the same value. It compares their words.
pub fn same_cell<T: Cell>(a: T, b: T) -> bool
    ensures { IsTrue result ↔ (a ≡ b) }
{
    a.fits();
    b.fits();
    a.to_word() == b.to_word()
}

// Laws of the words of a text. They run nothing.
ghost use Rattle.std.specs.Prelude.{◌≡◌, ◌≢◌, ℕ, ◌<◌, ◌≤◌, List, length, take, All, IsUtf8};
ghost use Rattle.query_text.specs.declared.word.Spot.{Spot};
ghost use Rattle.query_text.specs.declared.word.Word.{Word};
ghost use Rattle.query_text.specs.declared.word.Word.TheVariants as W;
ghost use Rattle.query_text.specs.Words.{front_of, words_of};
ghost use Rattle.query_text.specs.Spots.{IsSpotIn, IsSpotCut};
ghost use Rattle.query_text.specs.Forms.{HasForm, IsWord, IsBadFront, IsTaken};
ghost use Rattle.query_text.specs.Between.{FallsInto};

/// Each word of a text stands within it and has the bytes of its kind; and a text that is UTF-8 may be cut around
/// each name, and around what stands between quotes.
pub fn spots_keep_their_form()
    ensures form { (text : List ℕ) → All (IsSpotIn text) (words_of text) }
    ensures cut { (text : List ℕ) → IsUtf8 text → All (IsSpotCut text) (words_of text) }
{}

/// The word that is taken at a place is the longest: its bytes are that word, and no longer prefix of the bytes is a
/// word. Where none is taken, what stands first is past its limit or a text without its end, or looks like no word.
pub fn words_are_longest()
    ensures word { (bs : List ℕ) → (front_of bs).0 ≢ W.Bad →
        ((front_of bs).1 ≤ length bs) × IsWord (take (front_of bs).1 bs) (front_of bs).0 }
    ensures longest { (bs : List ℕ) (m : ℕ) (w : Word) → (front_of bs).1 < m → m ≤ length bs →
        ¬ (IsWord (take m bs) w) }
    ensures bad { (bs : List ℕ) → (front_of bs).0 ≡ W.Bad → IsBadFront bs (front_of bs).1 }
{}

/// What is taken at a place, and how many bytes it has, is just what the rule says, and nothing else is.
pub fn one_word_is_taken()
    ensures taken { (bs : List ℕ) → IsTaken bs (front_of bs) }
    ensures only { (bs : List ℕ) (taken : Word × ℕ) → IsTaken bs taken → taken ≡ front_of bs }
{}

/// Bytes are one word at most, and they look like a word. Where they stand alone, they are read as that word.
pub fn bytes_are_one_word()
    ensures one { (bs : List ℕ) (v w : Word) → IsWord bs v → IsWord bs w → v ≡ w }
    ensures form { (bs : List ℕ) (w : Word) → IsWord bs w → HasForm bs }
    ensures alone { (bs : List ℕ) (w : Word) → IsWord bs w → front_of bs ≡ (w, length bs) }
{}

/// A text falls into spaces and its words, each the longest at its place, and into no other words.
pub fn texts_fall_into_words()
    ensures falls { (text : List ℕ) → FallsInto 0 text (words_of text) }
    ensures only { (text : List ℕ) (spots : List Spot) → FallsInto 0 text spots →
        spots ≡ words_of text }
{}

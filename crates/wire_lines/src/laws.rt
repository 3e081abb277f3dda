// Laws of the line cutter over all bytes that it was fed. They run nothing.
ghost use Rattle.std.specs.Prelude.{◌≡◌, ◌≢◌, ◌≤◌, ◌++◌, [], ℕ, Bool, List, length, IsTrue, true};
ghost use Rattle.std.specs.List.{All};
ghost use Rattle.wire_lines.specs.Lines.{HasNoLf, joined, whole, rest, lines, last_of};
ghost use Rattle.wire_lines.specs.Cutter.{CutterState, Given, IsRefusal};
ghost use Rattle.wire_lines.specs.Next.{next, after_next};
ghost use Rattle.wire_lines.specs.Cuts.{Cuts, Tells};
ghost use Rattle.wire_lines.specs.Block.{block_lines, after_block, GivesLines};

/// Bytes are their whole lines, each with an LF after it, and then their rest, where no line and
/// no rest holds an LF; and they are so in one way only.
pub fn bytes_are_their_lines()
    ensures joined { (bytes : List ℕ) → joined (whole bytes) ++ rest bytes ≡ bytes }
    ensures lines { (bytes : List ℕ) → All HasNoLf (whole bytes) }
    ensures rest { (bytes : List ℕ) → HasNoLf (rest bytes) }
    ensures alone { (given : List (List ℕ)) (more : List ℕ) →
        All HasNoLf given → HasNoLf more → whole (joined given ++ more) ≡ given }
{}

/// Each answer of `next_line` says where the lines of the bytes stand, whatever the pieces were.
pub fn answers_tell_lines()
    ensures { (bytes : List ℕ) (cutter : CutterState) (given : List (List ℕ)) →
        Cuts bytes cutter given → Tells bytes cutter given (next cutter) }
{}

/// Once the bytes have ended, the lines given and what `last_line` gives are the lines of the bytes.
pub fn rest_is_last_line()
    ensures { (bytes : List ℕ) (cutter : CutterState) (given : List (List ℕ)) →
        Cuts bytes cutter given → IsTrue cutter.wants_bytes →
        lines bytes true ≡ given ++ last_of cutter.rest true }
{}

/// Two cutters that were fed the same bytes in other pieces gave the same lines, once both ask
/// for more bytes, and hold the same rest.
pub fn pieces_make_no_difference()
    ensures lines { (bytes : List ℕ) (one other : CutterState) (given given' : List (List ℕ)) →
        Cuts bytes one given → Cuts bytes other given' →
        IsTrue one.wants_bytes → IsTrue other.wants_bytes → given ≡ given' }
    ensures rest { (bytes : List ℕ) (one other : CutterState) (given given' : List (List ℕ)) →
        Cuts bytes one given → Cuts bytes other given' →
        IsTrue one.wants_bytes → IsTrue other.wants_bytes → one.rest ≡ other.rest }
{}

/// A block is the lines that `next_line` gives one after the other, so the next lines of the
/// bytes, whatever follows and whether or not the input has ended. Where it has no line,
/// `next_line` gives none.
pub fn blocks_are_lines()
    ensures given { (cutter : CutterState) → GivesLines cutter (block_lines cutter) }
    ensures none { (cutter : CutterState) (number : ℕ) (line : List ℕ) →
        block_lines cutter ≡ [] → next cutter ≢ Given number line }
    ensures short { (cutter : CutterState) →
        All (λ line. length line ≤ cutter.longest) (block_lines cutter) }
    ensures after { (bytes : List ℕ) (cutter : CutterState) (given : List (List ℕ)) →
        Cuts bytes cutter given → Cuts bytes (after_block cutter) (given ++ block_lines cutter) }
    ensures lines { (bytes : List ℕ) (cutter : CutterState) (given : List (List ℕ))
        (at_end : Bool) → Cuts bytes cutter given →
        (others : List (List ℕ)) × (lines bytes at_end ≡ given ++ block_lines cutter ++ others) }
{}

/// After `TooLong` and after `TooMany` the answer is the same again.
pub fn refusals_stay()
    ensures { (cutter : CutterState) →
        IsRefusal (next cutter) → next (after_next cutter) ≡ next cutter }
{}

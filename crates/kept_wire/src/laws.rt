// The laws of many replacements in a row, and of crashes of a medium in memory.
ghost use Rattle.std.specs.Prelude.{◌≡◌, ℕ, List, ◌++◌, Option, Some};
ghost use Rattle.kept_wire.specs.Disk.{Disk, MayLeave};
ghost use Rattle.kept_wire.specs.MediumMemory.{left_back};
ghost use Rattle.kept_wire.specs.Calls.{Told};
ghost use Rattle.kept_wire.specs.Replaced.{StaysWhole};

/// Replacements in a row: at every moment of all of them a crash leaves what it might have left of FILE before the first, or the
/// bytes of one of them. So from an Ok on it leaves the bytes of that one, or of one behind it.
pub fn replacements_stay_whole()
    ensures { (first later : List (List ℕ)) (old mid new : Told) →
        StaysWhole first old mid → StaysWhole later mid new → StaysWhole (first ++ later) old new }
{}

/// What a crash of a medium in memory leaves is what one of its disk may leave.
pub fn crashes_in_memory_may_be()
    ensures { (d : Disk) (back : ℕ) (torn : List ℕ) (left : Option (List ℕ)) →
        left_back d back torn ≡ Some left → MayLeave d left }
{}

// The laws of the lines.
ghost use Rattle.std.specs.Prelude.{◌≡◌, ◌<◌, ◌≤◌, ◌^◌, ◌↔◌, ℕ, List, Some, length};
ghost use Rattle.tw_rows.specs.declared.kind.CellKind.{CellKind};
ghost use Rattle.row_reader.specs.Fields.{commas};
ghost use Rattle.admission.specs.declared.policy.Policy.{Policy};
ghost use Rattle.checkpoint.specs.declared.entry.EntryLine.{EntryLine};
ghost use Rattle.checkpoint.specs.Lines.{query_line, options_line, time_line, bound_line};
ghost use Rattle.checkpoint.specs.Lines.{input_line, output_line};
ghost use Rattle.checkpoint.specs.Lines.{text_line, line_of_entry, part_of_entry, IsTimes};
ghost use Rattle.checkpoint.specs.Lines.{IsBound, IsText, IsEntry};
ghost use Rattle.checkpoint.specs.Reading.{time_of, bound_of, text_of, part_of, entry_of};
ghost use Rattle.checkpoint.specs.Reading.{input_of, output_of};

/// A line says what was written, and nothing else: it is read as something exactly where it is the line of that, and that has
/// a line. So what is written is read back, each thing has one line, and no two have the same. By the first fields of an
/// entry's line it is known whose entry it is before its cells are read.
pub fn lines_say_what_was_written()
    ensures times { (line : List ℕ) (lines last : ℕ) →
        (time_of line ≡ Some (lines, last)) ↔ (IsTimes lines last × (line ≡ time_line lines last)) }
    ensures bounds { (line : List ℕ) (bound mark : ℕ) →
        (bound_of line ≡ Some (bound, mark)) ↔ (IsBound bound mark
        × (line ≡ bound_line bound mark)) }
    ensures inputs { (line : List ℕ) (bytes : ℕ) → (input_of line ≡ Some bytes) ↔
        ((bytes < 2 ^ 64) × (line ≡ input_line bytes)) }
    ensures outputs { (line : List ℕ) (bytes : ℕ) → (output_of line ≡ Some bytes) ↔
        ((bytes < 2 ^ 64) × (line ≡ output_line bytes)) }
    ensures texts { (line text : List ℕ) → (text_of line ≡ Some text) ↔
        (IsText text × (line ≡ text_line text)) }
    ensures entries { (kinds : List CellKind) (line : List ℕ) (x : EntryLine) →
        (entry_of kinds line ≡ Some x) ↔ (IsEntry kinds x × (line ≡ line_of_entry x)) }
    ensures parts { (kinds : List CellKind) (x : EntryLine) → IsEntry kinds x →
        part_of (commas (line_of_entry x)) ≡ Some (part_of_entry x) }
{}

/// No line is longer than 65,536 bytes, the most that a line of input may have: a query's line has 30,000 bytes of the query
/// at most, a text comes from a line or from the query, and no row has 3,000 columns.
pub fn each_line_is_short()
    ensures query { (bytes : List ℕ) → length bytes ≤ 30000 → length (query_line bytes) ≤ 65536 }
    ensures options { (workers : ℕ) (policy : Policy) → workers < 2 ^ 64 →
        policy.lateness < 2 ^ 64 → policy.period < 2 ^ 64 →
        length (options_line workers policy) ≤ 65536 }
    ensures times { (lines last : ℕ) → IsTimes lines last → length (time_line lines last) ≤ 65536 }
    ensures bounds { (bound mark : ℕ) → length (bound_line bound mark) ≤ 65536 }
    ensures inputs { (bytes : ℕ) → bytes < 2 ^ 64 → length (input_line bytes) ≤ 65536 }
    ensures outputs { (bytes : ℕ) → bytes < 2 ^ 64 → length (output_line bytes) ≤ 65536 }
    ensures texts { (text : List ℕ) → length text ≤ 65530 → length (text_line text) ≤ 65536 }
    ensures entries { (kinds : List CellKind) (x : EntryLine) → IsEntry kinds x →
        length kinds ≤ 3000 → length (line_of_entry x) ≤ 65536 }
{}

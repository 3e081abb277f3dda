// What holds of lines and of what they say.
ghost use Rattle.std.specs.Prelude.{◌≡◌, ◌≢◌, ◌<◌, ◌≤◌, ◌^◌, ◌↔◌, ◌∷◌, ◌++◌, [], ℕ, Bool, List, Option, IfSome, Ok, false, length};
ghost use Rattle.std.specs.List.{All};
ghost use Rattle.tw_rows.specs.Instant.{inf};
ghost use Rattle.tw_rows.specs.Rows.{Row};
ghost use Rattle.tw_rows.specs.declared.schema.ColumnDef.{ColumnDef};
ghost use Rattle.tw_rows.specs.declared.schema.StreamDef.{StreamDef};
ghost use Rattle.row_reader.specs.FieldTexts.{event_fields};
ghost use Rattle.row_reader.specs.RecordTexts.{record_text};
ghost use Rattle.row_reader.specs.declared.form.Form.{Form};
ghost use Rattle.row_reader.specs.Quotes.{odd_quotes};
ghost use Rattle.row_reader.specs.Record.{record_of};
ghost use Rattle.row_reader.specs.Spelled.{SpellsFields};
ghost use Rattle.row_reader.specs.Printed.{kinds_of, IsRowOf, AreTimes};
ghost use Rattle.row_reader.specs.Entry.{event, entry};
ghost use Rattle.row_reader.specs.Line.{text_of};
ghost use Rattle.row_reader.specs.Spells.{SpellsEvent, SpellsPunctuation};
ghost use Rattle.row_reader.specs.declared.entry.Entry.TheVariants as entries;

/// The quotes of bytes without CR and LF are not odd exactly where the bytes spell fields: each as it stands or between
/// double quotes, joined by commas. The record of the bytes has these fields, so they are the only ones.
#[tactic(auto, using(crate::proofs::Spelling::even_quotes_spell, crate::proofs::Spelling::fields_are_read))]
pub fn lines_are_fields()
    ensures even { (text : List ℕ) → All (λ b. b ≢ 13) text → All (λ b. b ≢ 10) text →
        (odd_quotes text ≡ false) ↔ ((fields : List (List ℕ)) × SpellsFields text fields) }
    ensures fields { (text : List ℕ) (fields : List (List ℕ)) → 0 < length text →
        All (λ b. b ≢ 13) text → All (λ b. b ≢ 10) text → SpellsFields text fields →
        record_of text ≡ fields }
{}

/// Behind a first field, which may be any, fields are read as an event exactly where they are what is printed of it: the
/// form, both times and the values, of a row that fits the columns and of times that an event may have.
pub fn events_are_printed()
    ensures { (stream : ℕ) (columns : List ColumnDef) (name : List ℕ) (fields : List (List ℕ))
        (form : Form) → (sync other : ℕ) (row : Row) →
        (event stream columns fields ≡ Ok (entries.Event stream form sync other row)) ↔
        ((name ∷ fields ≡ event_fields (kinds_of columns) name form sync other row)
        × IsRowOf columns row × AreTimes form sync other) }
{}

/// A line without LF is read as an event, or as a punctuation, exactly where its text spells it: it is UTF-8 without CR,
/// begins with no byte order mark, and spells the fields that are printed of the event or the punctuation, each as it stands
/// or between double quotes, joined by commas. The text of a line is the line without one CR at its end and, where it is
/// the first of the input, without a byte order mark. So a text spells one event at most.
pub fn lines_say_what_they_spell()
    ensures events { (streams : List StreamDef) (first : Bool) (line : List ℕ) (stream : ℕ)
        (form : Form) (sync other : ℕ) → (row : Row) → All (λ b. b ≢ 10) line →
        (entry streams first line
        ≡ Ok (entries.Event stream form sync other row)) ↔ SpellsEvent streams
        (text_of first line) stream form sync other row }
    ensures punctuations { (streams : List StreamDef) (first : Bool) (line : List ℕ)
        (stream : Option ℕ) (time : ℕ) → All (λ b. b ≢ 10) line →
        (entry streams first line ≡ Ok (entries.Punct stream time)) ↔ SpellsPunctuation streams
        (text_of first line) stream time }
    ensures one { (streams : List StreamDef) (text : List ℕ) (s t : ℕ) (f g : Form) (a b c d : ℕ)
        (row other : Row) → All (λ b. b ≢ 10) text → SpellsEvent streams text s f a b row →
        SpellsEvent streams text t g c d other →
        entries.Event s f a b row ≡ entries.Event t g c d other }
{}

/// What is read of a line without LF is of a declared stream, and its times are at most infinity.
pub fn entries_are_within()
    ensures events { (streams : List StreamDef) (first : Bool) (line : List ℕ) (stream : ℕ)
        (form : Form) (sync other : ℕ) → (row : Row) → All (λ b. b ≢ 10) line →
        entry streams first line ≡ Ok (entries.Event stream form sync other row) →
        (stream < length streams) × (sync < 2 ^ 60) × (other ≤ inf) }
    ensures punctuations { (streams : List StreamDef) (first : Bool) (line : List ℕ)
        (stream : Option ℕ) (time : ℕ) → All (λ b. b ≢ 10) line →
        entry streams first line ≡ Ok (entries.Punct stream time) →
        IfSome stream (λ s. s < length streams) × (time ≤ inf) }
{}

/// A record of two fields or more that is printed is a text that spells its fields, and a line feed. So what is printed of
/// an event is read back, where its line is UTF-8 and has no CR, no LF and no byte order mark.
pub fn printed_records_spell_their_fields()
    ensures { (first second : List ℕ) (more : List (List ℕ)) → (text : List ℕ)
        × (record_text (first ∷ second ∷ more) ≡ text ++ 10 ∷ [])
        × SpellsFields text (first ∷ second ∷ more) }
{}

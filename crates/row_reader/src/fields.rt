// The fields of a line, one after the other.
ghost use Rattle.std.specs.Prelude.{◌≡◌, ◌∷◌, [], IfSome, IfNone, length, drop, count_by, ◌==◌};
ghost use Rattle.row_reader.specs.Record.{field_of};
ghost use Rattle.row_reader.specs.Fields.{commas, left};
ghost use Rattle.row_reader.specs.declared.fields.Fields.TheVariants.{Plain};

use csv::StringRecord;

/// The fields of a line that are still to be read.
#[derive(Clone, Copy)]
pub enum Fields<'a> {
    /// Those of a line without quotes: what is left of the line, and nothing where no field is left.
    Plain(Option<&'a [u8]>),
    /// Those of a record, from that number on.
    Record(&'a StringRecord, usize),
}

// The bytes before the first comma, and what stands behind that comma.
pub(crate) fn split_field(text: &[u8]) -> (&[u8], Option<&[u8]>)
    ensures { commas text.now ≡ result.0.now ∷ left (Plain result.1) }
{
    match text.iter().position(|byte| *byte == b',') {
        Some(comma) => (&text[..comma], Some(&text[comma + 1..])),
        None => (text, None),
    }
}

fn count_commas(bytes: &[u8]) -> usize
    ensures { result ≡ count_by (λ b. b == 44) bytes.now }
{
    bytes.iter().filter(|byte| **byte == b',').count()
}

impl<'a> Fields<'a> {
    /// The next field, which is taken off, where one is left.
    pub fn next_field(&mut self) -> Option<&'a [u8]>
        ensures some { IfSome result (λ field. left self.old ≡ field.now ∷ left self.new) }
        ensures none { IfNone result ((left self.old ≡ []) × (left self.new ≡ [])) }
    {
        match self {
            Fields::Plain(rest) => {
                let (field, after) = split_field((*rest)?);
                *rest = after;
                Some(field)
            }
            Fields::Record(record, next) => {
                let record = *record;
                let field = record.get(*next)?;
                *next += 1;
                Some(field.as_bytes())
            }
        }
    }

    /// The next field, which is taken off, or nothing where no field is left.
    #[tactic(auto, using(crate::proofs::Steps::taken_off, crate::proofs::Steps::none_taken))]
    pub fn take_field(&mut self) -> &'a [u8]
        ensures field { result.now ≡ field_of (left self.old) 0 }
        ensures left { left self.new ≡ drop 1 (left self.old) }
    {
        match self.next_field() {
            Some(field) => field,
            None => &[],
        }
    }

    /// How many fields are left.
    pub fn count(&self) -> usize
        ensures { result ≡ length (left self.now) }
    {
        match self {
            Fields::Plain(rest) => match rest {
                None => 0,
                Some(text) => 1 + count_commas(text),
            },
            Fields::Record(record, next) => record.len().saturating_sub(*next),
        }
    }
}

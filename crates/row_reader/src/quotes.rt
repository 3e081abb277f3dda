// Whether the double quotes of a line stand where they may.
ghost use Rattle.std.specs.Prelude.{◌≡◌};
ghost use Rattle.row_reader.specs.Quotes.{next_place, odd_quotes};

/// Where a byte of a line stands.
#[derive(Clone, Copy, Debug, PartialEq, Eq)]
pub enum Place {
    /// At the start of a field.
    Start,
    /// In a field without quotes.
    Plain,
    /// After the quote that opens a field.
    Quoted,
    /// After a quote in such a field: it closes the field, or another quote follows.
    Closed,
}

// Where the byte after this one stands, unless this one may not stand here.
fn next(place: Place, byte: u8) -> Option<Place>
    ensures { result ≡ next_place place byte }
{
    match (place, byte) {
        (Place::Quoted, b'"') => Some(Place::Closed),
        (Place::Quoted, _) => Some(Place::Quoted),
        (Place::Plain, b'"') => None,
        (_, b'"') => Some(Place::Quoted),
        (_, b',') => Some(Place::Start),
        (Place::Closed, _) => None,
        (_, _) => Some(Place::Plain),
    }
}

/// Whether the text is no list of fields, each of them without quotes or between quotes with each quote inside doubled.
#[tactic(auto, using(crate::proofs::OddQuotes::quote_steps))]
pub fn has_odd_quotes(text: &[u8]) -> bool
    ensures { result ≡ odd_quotes text.now }
{
    let mut place = Place::Start;
    for byte in text {
        let Some(after) = next(place, *byte) else {
            return true;
        };
        place = after;
    }
    place == Place::Quoted
}

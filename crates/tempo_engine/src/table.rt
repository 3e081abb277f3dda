// The texts of a table as a list, and a table of such texts.
ghost use Rattle.std.specs.Prelude.{◌≡◌, ◌↔◌, IsTrue, None, Some, map, length, All, AllPairs, ◌≢◌, IfOk, IfSome};
ghost use Rattle.frozen_state.specs.Formed.{IsOneLine};

use std::alloc::Global;
use tw_rows::{Label, Memory, TextTable};

/// The texts of the table, by place.
pub fn labels_of(alloc: Global, texts: &TextTable) -> Result<Vec<Label>, Memory>
    ensures { IfOk result (λ labels. labels.items ≡ texts.now) }
{
    let mut labels = Vec::new(alloc);
    for place in 0..texts.len() {
        labels.push(Label::new(alloc, texts.text(place))?)?;
    }
    Ok(labels)
}

/// A table of these texts, by place. There is none where two are equal.
pub fn table_of(alloc: Global, labels: &[Label]) -> Result<Option<TextTable>, Memory>
    ensures some { IfOk result (λ found. IfSome found (λ texts. texts ≡ labels.now)) }
    ensures distinct { IfOk result (λ found.
        IfSome found (λ texts. AllPairs (λ a b. a ≢ b) labels.now)) }
    ensures none { IfOk result (λ found. found ≡ None → AllPairs (λ a b. a ≢ b) labels.now → ⊥) }
{
    let mut texts = TextTable::new(alloc);
    for label in labels {
        if texts.find(label.as_str()).is_some() {
            return Ok(None);
        }
        texts.intern(label.as_str())?;
    }
    Ok(Some(texts))
}

// Whether neither a CR nor a LF is in the text.
fn is_one_line(text: &str) -> bool
    ensures { IsTrue result ↔ IsOneLine text.now }
{
    for byte in text.as_bytes() {
        if *byte == b'\r' || *byte == b'\n' {
            return false;
        }
    }
    true
}

/// Whether neither a CR nor a LF is in one of the texts.
pub fn are_one_line(labels: &[Label]) -> bool
    ensures { IsTrue result ↔ All IsOneLine labels.now }
{
    for label in labels {
        if !is_one_line(label.as_str()) {
            return false;
        }
    }
    true
}

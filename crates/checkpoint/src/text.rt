// The line of a text.
ghost use Rattle.std.specs.Prelude.{◌≡◌, ◌++◌, true, false, Some, None, OnOk, OnErr, IfSome, IfNone, take, drop, codes, ◌≤◌, vec_capacity};
ghost use Rattle.checkpoint.specs.Room.{LacksRoom};
ghost use Rattle.std.specs.List.{list_any};
ghost use Rattle.row_reader.specs.Number.{same_text};
ghost use Rattle.checkpoint.specs.Lines.{text_line};
ghost use Rattle.checkpoint.specs.Reading.{text_of, is_break};

use tw_rows::Memory;

/// Appends the line of a text, as it stands. A text that may be read back has neither CR nor LF.
pub fn push_text_line(out: &mut Vec<u8>, text: &str) -> Result<(), Memory>
    ensures ok { OnOk result (out.new.items ≡ out.old.items ++ text_line text.now) }
    ensures room { vec_capacity out.old ≤ vec_capacity out.new }
    ensures full { OnErr result (LacksRoom out.old (text_line text.now)) }
{
    out.extend_from_slice(b"#text,")?;
    out.extend_from_slice(text.as_bytes())?;
    Ok(())
}

fn is_break(byte: u8) -> bool
    ensures { result ≡ is_break byte }
{
    byte == b'\r' || byte == b'\n'
}

// Whether a CR or a LF is among the bytes.
fn has_break(bytes: &[u8]) -> bool
    ensures { result ≡ list_any is_break bytes.now }
{
    bytes.iter().any(|byte| is_break(*byte))
}

// What stands behind the word of the line.
fn behind_word(line: &[u8]) -> Option<&[u8]>
    ensures some { IfSome result (λ text. (same_text (take 6 line.now) (codes "#text,") ≡ true)
        × (text.now ≡ drop 6 line.now)) }
    ensures none { IfNone result (same_text (take 6 line.now) (codes "#text,") ≡ false) }
{
    line.strip_prefix(b"#text,".as_slice())
}

/// The text of a line of `push_text_line`, where it is one.
pub fn read_text_line(line: &[u8]) -> Option<&str>
    ensures some { IfSome result (λ text. text_of line.now ≡ Some text.now) }
    ensures none { IfNone result (text_of line.now ≡ None) }
{
    let Some(text) = behind_word(line) else {
        return None;
    };
    if has_break(text) {
        return None;
    }
    match str::from_utf8(text) {
        Ok(text) => Some(text),
        Err(_) => None,
    }
}

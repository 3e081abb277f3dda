// Which bytes of a line are read, and whether one of them is beyond ASCII, a CR or a double quote.
ghost use Rattle.std.specs.Prelude.{◌≡◌, ◌≢◌, ◌≤◌, ◌<◌, IsTrue, false, length};
ghost use Rattle.row_reader.specs.Line.{stripped, has_mark, text_of, AreSimple};

// U+FEFF in UTF-8, which may stand before the first line.
const MARK: [u8; 3] = [0xEF, 0xBB, 0xBF];

#[tactic(auto, unfolding(crate::specs::Line::stripped))]
fn without_return(line: &[u8]) -> &[u8]
    ensures { result.now ≡ stripped line.now }
{
    if line.len() > 0 && line[line.len() - 1] == b'\r' {
        &line[..line.len() - 1]
    } else {
        line
    }
}

/// Whether the line begins with the byte order mark.
#[tactic(auto, unfolding(crate::specs::Line::has_mark))]
pub fn has_byte_order_mark(line: &[u8]) -> bool
    ensures value { result ≡ has_mark line.now }
    ensures long { IsTrue result → 3 ≤ length line.now }
{
    line.len() >= 3 && line[0] == MARK[0] && line[1] == MARK[1] && line[2] == MARK[2]
}

/// What is read of a line: no CR at its end, and no byte order mark where it is the first of the input.
#[tactic(auto, unfolding(crate::specs::Line::text_of))]
pub fn text_of_line(line: &[u8], first: bool) -> &[u8]
    ensures { result.now ≡ text_of first line.now }
{
    let text = without_return(line);
    if first && has_byte_order_mark(text) {
        &text[3..]
    } else {
        text
    }
}

// Whether the byte is beyond ASCII, a CR or a double quote.
fn is_special(byte: u8) -> bool
    ensures { result ≡ false → (byte < 128) × (byte ≢ 13) × (byte ≢ 34) }
{
    byte >= 128 || byte == b'\r' || byte == b'"'
}

// Whether such a byte is among these. Few lines have one, so all are looked at, without a branch at each.
#[inline]
fn any_special(bytes: &[u8]) -> bool
    ensures { result ≡ false → AreSimple bytes.now }
{
    let mut found = false;
    for byte in bytes {
        found |= is_special(*byte);
    }
    found
}

// So many bytes are looked at together.
const BLOCK: usize = 16;

/// Whether such a byte is in the line. The last block laps over the one before it.
pub fn has_special(line: &[u8]) -> bool
    ensures { result ≡ false → AreSimple line.now }
{
    if line.len() < BLOCK {
        return any_special(line);
    }
    let mut found = any_special(&line[line.len() - BLOCK..]);
    for i in 0..line.len() / BLOCK {
        found |= any_special(&line[i * BLOCK..][..BLOCK]);
    }
    found
}

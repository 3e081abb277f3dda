// Texts that are made of pieces.
ghost use Rattle.std.specs.Prelude.{◌≡◌, OnOk, flat_map};

use tw_rows::Memory;

/// Writes the pieces, one after the other, in place of what the text held. Out of memory it holds some of them.
pub(crate) fn write_pieces(text: &mut Vec<u8>, pieces: &[&[u8]]) -> Result<(), Memory>
    ensures { OnOk result (text.new.items ≡ flat_map (λ p. p.now) pieces.now) }
{
    text.clear();
    for piece in pieces {
        text.extend_from_slice(piece)?;
    }
    Ok(())
}

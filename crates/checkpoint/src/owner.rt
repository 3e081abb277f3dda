// Whose entries a checkpoint has.
ghost use Rattle.std.specs.Prelude.{◌≡◌, IfSome, drop};
ghost use Rattle.row_reader.specs.Fields.{commas, left};
ghost use Rattle.checkpoint.specs.Reading.{owner_of, part_of, part_by};

use frozen_state::Owner;
use row_reader::{Fields, read_whole};

/// Which entries of whom.
#[derive(Clone, Copy, Debug, PartialEq, Eq)]
pub struct EntryPart {
    pub owner: Owner,
    /// The shard of the owner, which is 0 where it has none.
    pub shard: u64,
    pub part: u64,
}

#[tactic(auto, unfolding(crate::specs::Reading::owner_of))]
fn read_owner(text: &[u8]) -> Option<Owner>
    ensures { result ≡ owner_of text.now }
{
    if text == b"in".as_slice() {
        return Some(Owner::In);
    }
    if text == b"out".as_slice() {
        return Some(Owner::Out);
    }
    Some(Owner::Node(read_whole(text)?))
}

#[tactic(auto, unfolding(crate::specs::Reading::part_by))]
fn read_part(word: &[u8], owner: &[u8], shard: &[u8], part: &[u8]) -> Option<EntryPart>
    ensures { result ≡ part_by word.now owner.now shard.now part.now }
{
    if word != b"#entry".as_slice() {
        return None;
    }
    Some(EntryPart {
        owner: read_owner(owner)?,
        shard: read_whole(shard)?,
        part: read_whole(part)?,
    })
}

/// What the first four fields say, which are taken off.
pub fn take_part(fields: &mut Fields) -> Option<EntryPart>
    ensures part { result ≡ part_of (left fields.old) }
    ensures left { IfSome result (λ part. left fields.new ≡ drop 4 (left fields.old)) }
{
    let word = fields.next_field()?;
    let owner = fields.next_field()?;
    let shard = fields.next_field()?;
    let part = fields.next_field()?;
    read_part(word, owner, shard, part)
}

/// Which entries of whom the line belongs to, if it is the line of an entry: by this its cells' kinds are known.
pub fn read_entry_part(line: &[u8]) -> Option<EntryPart>
    ensures { result ≡ part_of (commas line.now) }
{
    let mut fields = Fields::Plain(Some(line));
    take_part(&mut fields)
}

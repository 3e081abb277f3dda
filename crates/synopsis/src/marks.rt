// The index of a list of rows: beside each row its mark.
ghost use Rattle.std.specs.Prelude.{◌≡◌, ◌+◌, ◌≤◌, true, IfSome};
ghost use Rattle.synopsis.specs.Marks.{Fits};

use indexmap::IndexMap;
use std::alloc::Global;
use std::marker::Model;
use tw_rows::Memory;

/// For each place of the list a hash and a number: rows of the same hash have the numbers from 0 on. It is a guess: who asks
/// looks at the row itself.
pub struct Marks {
    // As many as the list has rows. Of a removal the last one moves into the gap, as the last row does.
    marks: IndexMap<(u64, u64), ()>,
    // How many rows have a hash.
    counts: IndexMap<u64, u64>,
}

// By hand, so that crates that let one go cite this and not the destructors of its parts.
impl Drop for Marks {
    fn drop(self) {
        let Marks {
            marks: _marks,
            counts: _counts,
        } = self;
    }
}

impl Model for Marks {
    ghost use Rattle.indexmap.specs.IndexMap.{index_map_len};
    ghost use Rattle.synopsis.specs.Marks.{MarkCount};

    ghost Value = { MarkCount };

    ghost view = { λ m. record {
      places = index_map_len m.marks;
      hashes = index_map_len m.counts;
    } };
}

impl Marks {
    /// No place is marked.
    pub fn new(alloc: Global) -> Marks
        ensures { Fits 0 result }
    {
        Marks {
            marks: IndexMap::new(alloc),
            counts: IndexMap::new(alloc),
        }
    }

    /// Whether it is the index of so many rows.
    pub fn fits(&self, rows: usize) -> bool
        ensures { result ≡ true → Fits rows self.now }
    {
        self.marks.len() == rows && self.counts.len() <= rows
    }

    /// How many places have the hash.
    pub fn count(&self, hash: u64) -> u64 {
        self.counts.get(&hash).copied().unwrap_or(0)
    }

    /// The place that has the hash with that number.
    pub fn place(&self, hash: u64, number: u64) -> Option<usize> {
        self.marks.get_index_of(&(hash, number))
    }

    /// Marks the next place.
    pub fn push(&mut self, hash: u64) -> Result<(), Memory> {
        let number = self.count(hash);
        self.marks.insert((hash, number), ())?;
        if self.counts.insert(hash, number.saturating_add(1)).is_err() {
            self.marks.pop();
            return Err(Memory);
        }
        Ok(())
    }

    /// Takes the mark of the hash's last number and tells its place; the last mark moves into the gap.
    pub fn take(&mut self, hash: u64) -> Option<usize>
        ensures marks { IfSome result (λ _. self.old.places ≡ self.new.places + 1) }
        ensures hashes { self.new.hashes ≤ self.old.hashes }
    {
        let count = self.counts.get_mut(&hash)?;
        *count = count.saturating_sub(1);
        let number = *count;
        if number == 0 {
            self.counts.swap_remove(&hash);
        }
        let place = self.marks.get_index_of(&(hash, number))?;
        self.marks.swap_remove_index(place);
        Some(place)
    }
}

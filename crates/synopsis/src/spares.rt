// The memory of buckets that were let go. No answer rests on it: what is handed out is empty, whatever was kept.
ghost use Rattle.std.specs.Prelude.{◌≡◌, ◌≤◌, [], length};

use crate::bucket::Bucket;
use std::alloc::Global;
use tw_rows::{Datum, HeldRow, Memory};

/// The memory of a key and of its rows, which can be those of any key.
#[derive(Drop)]
pub struct Spare {
    pub key: Vec<Datum>,
    pub rows: Vec<HeldRow>,
}

// How many are kept.
const MOST: usize = 16;

/// Buckets that were let go: the next keys take their memory. Most keys of a join have one row, which ends soon.
pub struct Spares {
    alloc: Global,
    spares: Vec<Spare>,
    ghost few: { length spares.items ≤ 16 },
}

// By hand, so that crates that let one go cite this and not the destructors of its parts.
impl Drop for Spares {
    fn drop(self) {
        let Spares {
            alloc: _,
            spares: _spares,
        } = self;
    }
}

impl Spares {
    /// None, with room for all that are kept.
    pub fn new(alloc: Global) -> Result<Spares, Memory> {
        Ok(Spares {
            alloc,
            spares: Vec::with_capacity(alloc, MOST)?,
        })
    }

    /// An empty key, and no rows.
    pub fn next(&mut self) -> Spare
        ensures key { result.key.items ≡ [] }
        ensures rows { result.rows.items ≡ [] }
    {
        match self.spares.pop() {
            Some(mut spare) => {
                spare.key.clear();
                spare.rows.clear();
                spare
            }
            None => Spare {
                key: Vec::new(self.alloc),
                rows: Vec::new(self.alloc),
            },
        }
    }

    /// Keeps the memory of a bucket that was let go, where it is that of few rows and fewer than the most are kept.
    pub fn keep(&mut self, gone: Option<(Vec<Datum>, Bucket)>)
        ensures { length self.new.spares.items ≤ 16 }
    {
        let Some((key, bucket)) = gone else {
            return;
        };
        if self.spares.len() < MOST {
            if let Some(rows) = bucket.small_room() {
                // Where there were no room it would be let go.
                let _ = self.spares.push(Spare { key, rows });
            }
        }
    }
}

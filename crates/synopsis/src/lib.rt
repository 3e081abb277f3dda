//! Rows that are alive, found by the data in their key columns, or by their cells and starts; and the open starts of rows in
//! queues, of which an end names the first: at each instant rows move, and the edges of those that come to stand more or less often
//! are made. So a Coalesce and a Top answer.
#![tactic(auto)]

mod bucket;
mod buckets;
mod edges;
mod few;
mod few_moves;
mod few_rows;
mod gathering;
mod held;
mod in_place;
mod instant;
mod key_room;
mod marks;
mod moves;
mod queues;
mod row_queues;
mod saving;
mod spares;
mod synopsis;
mod word_hasher;

pub use bucket::Bucket;
pub use edges::is_few_apart;
pub use key_room::{KeyRoom, lone_key};
pub use queues::{Starts, open_row, put_back};
pub use row_queues::RowQueues;
pub use synopsis::Synopsis;
pub use tw_rows::HeldRow;
pub use word_hasher::WordHasher;

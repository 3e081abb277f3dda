// What a line says, and why a line is bad.
ghost use Rattle.std.specs.Prelude.{◌≡◌};
ghost use Rattle.row_reader.specs.declared.entry.RowFault.TheVariants as faults;

use crate::Form;
use std::alloc::{AllocError, AllocFailed};
use tw_rows::{Memory, Row, Time};

/// What a line says.
#[derive(Drop)]
pub enum Entry {
    /// Nothing: the line is empty.
    Skip,
    /// No event before this time comes any more: of the stream of that number, or of any stream.
    Punct {
        stream: Option<usize>,
        time: Time,
    },
    /// Of an event of the stream of that number. An interval has its start as `sync` and its end as `other`, a start has
    /// infinity as `other`, and an end has the event's end as `sync` and its start as `other`.
    Event {
        stream: usize,
        form: Form,
        sync: Time,
        other: Time,
        row: Row,
    },
}

/// What a line says but for the values of an event, which stand in a row beside it: a text as its place in a table of texts.
#[derive(Clone, Copy)]
pub enum Said {
    Skip,
    Punct {
        stream: Option<usize>,
        time: Time,
    },
    Event {
        stream: usize,
        form: Form,
        sync: Time,
        other: Time,
    },
}

/// Why a line is bad. Where several causes apply, the first in this order is answered.
#[derive(Clone, Copy, Debug, PartialEq, Eq)]
pub enum BadLine {
    /// It has more bytes than a line may have. Whoever cuts the lines answers this.
    TooLong,
    /// Its bytes are no UTF-8.
    NotUtf8,
    /// It holds a CR that is not its last byte.
    StrayReturn,
    /// A double quote stands where none may stand, or is not closed.
    OddQuotes,
    /// Its first field is neither `*` nor the name of a stream.
    UnknownStream,
    /// Its second field is none of the words that may stand there.
    UnknownKind,
    /// It has more or fewer fields than its kind and its stream ask for.
    WrongFields,
    /// A time is not spelled as a time that may stand there.
    BadTime,
    /// The event ends before it starts, or as it starts.
    BadLife,
    /// This value, counted from 1, is not of its column's kind; those before it are.
    BadValue { column: usize },
    /// It ends an event that did not start. Whoever matches starts and ends answers this.
    NoStart,
}

/// Why a line gave no entry.
#[derive(Clone, Copy, Debug, PartialEq, Eq)]
pub enum RowFault {
    /// The line is bad.
    Bad(BadLine),
    /// Out of memory.
    Memory,
}

impl From<Memory> for RowFault {
    ghost from_gives = { λ _ fault. fault ≡ faults.Memory };

    fn from(_memory: Memory) -> RowFault {
        RowFault::Memory
    }
}

impl From<AllocError> for RowFault {
    ghost from_gives = { λ _ fault. fault ≡ faults.Memory };

    fn from(_error: AllocError) -> RowFault {
        RowFault::Memory
    }
}

impl<T: Drop> From<AllocFailed<T>> for RowFault {
    ghost from_gives = { λ _ fault. fault ≡ faults.Memory };

    fn from(_failed: AllocFailed<T>) -> RowFault {
        RowFault::Memory
    }
}

// Why a text is no query that can be planned.
ghost use Rattle.std.specs.Prelude.{◌≡◌};
ghost use Rattle.plan_model.specs.declared.fault.QueryError.TheVariants as errors;

use std::alloc::{AllocError, AllocFailed};
use tw_rows::Memory;

/// Why a text is no query, or a query has no plan. `at` is an offset in bytes of the text. `item` is the number of an
/// item, from 0, in the order of the text: each stream, each `let` and then its steps, the head of the body and then
/// its steps. Where several faults apply to an item, the first in this order is told.
#[derive(Clone, Copy, Debug, PartialEq, Eq)]
pub enum QueryFault {
    /// No query begins with the words up to and with the one at `at`; or the text ends too early, and `at` is its length.
    Syntax { at: usize },
    /// The word at `at` is the first past the limit of 200 words in its expression, and a query begins so without it.
    LongExpr { at: usize },
    /// The text has more bytes than the 65,536 of a query.
    TooLarge,
    /// A base or an operand names no stream and no earlier `let`, or a column is not in the schema that it is read from.
    UnknownName { item: usize },
    /// An operator, a test, an aggregate, a key, a union or the column of a top meets values of the wrong kind, or the
    /// literals of a left join are not as many and of the kinds as the columns that they stand for.
    TypeClash { item: usize },
    /// A step that changes lifetimes has a side whose rows are no events.
    NotEventLevel { item: usize },
    /// A size, period, duration or timeout is 0, a period does not divide its size, or a top asks for more than 1,000 rows.
    BadWindow { item: usize },
    /// A node looks back further than 2^60 units of time.
    ReachTooLong { item: usize },
    /// The plan has more than 256 nodes with this item's.
    TooManyNodes { item: usize },
    /// A schema has more than 32 columns.
    TooManyColumns { item: usize },
    /// A name of a stream or `let` is taken by an earlier one, or a schema or a key has a name twice.
    NameTaken { item: usize },
}

/// Why a text gave no query, or a query no plan.
#[derive(Clone, Copy, Debug, PartialEq, Eq)]
pub enum QueryError {
    Fault(QueryFault),
    /// Out of memory.
    Memory,
}

impl From<Memory> for QueryError {
    ghost from_gives = { λ _ error. error ≡ errors.Memory };

    fn from(_memory: Memory) -> QueryError {
        QueryError::Memory
    }
}

impl From<AllocError> for QueryError {
    ghost from_gives = { λ _ error. error ≡ errors.Memory };

    fn from(_error: AllocError) -> QueryError {
        QueryError::Memory
    }
}

impl<T: Drop> From<AllocFailed<T>> for QueryError {
    ghost from_gives = { λ _ error. error ≡ errors.Memory };

    fn from(_failed: AllocFailed<T>) -> QueryError {
        QueryError::Memory
    }
}

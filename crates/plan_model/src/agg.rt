// The aggregates that a Group may have.

/// What a Group tells of the rows of a key: a whole number, which counts rows, or units of the kind of its column.
#[derive(Clone, Copy, Debug, PartialEq, Eq)]
pub enum Agg {
    /// How many rows there are.
    Count,
    /// The sum of the ints in the column of that number, counted from 0.
    Sum(usize),
    /// The least int in the column of that number.
    Least(usize),
    /// The greatest int in the column of that number.
    Greatest(usize),
}

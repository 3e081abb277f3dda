// What a line says of an event.

/// What a line says of an event: its whole lifetime, that it starts, or that it ends.
#[derive(Clone, Copy, Debug, PartialEq, Eq)]
pub enum Form {
    Interval,
    Start,
    End,
}

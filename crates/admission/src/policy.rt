// What becomes of late lines, when punctuations are due, and what is answered of a line.

/// What becomes of a line that is late: it ends the run, it is left out, or it takes effect later. These are Trill's policies of
/// disorder (throw, drop, adjust).
#[derive(Clone, Copy, Debug, PartialEq, Eq)]
pub enum Lateness {
    Refuse,
    Drop,
    Adjust,
}

/// How lines are admitted: a line may be older than the newest of its stream by the lateness, and the bounds of the streams
/// make a punctuation due at each multiple of the period, where it is not 0. The lateness is Trill's reorder latency; that
/// bounds make punctuations due at a period is our profile.
#[derive(Clone, Copy, Debug, PartialEq, Eq)]
pub struct Policy {
    pub lateness: u64,
    pub late: Lateness,
    pub period: u64,
}

/// What became of a line that was taken.
#[derive(Clone, Copy, Debug, PartialEq, Eq)]
pub enum Admitted {
    /// It says nothing.
    Skipped,
    /// It is a punctuation, or it starts, ends or makes an event.
    Kept,
    /// It is left out, or ends an event whose start was left out.
    Dropped,
    /// It makes no event, as the lifetime would be empty.
    Emptied,
}

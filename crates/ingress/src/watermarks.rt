// The bound and the mark of each stream.
ghost use Rattle.std.specs.Prelude.{◌≡◌, ℕ, ◌<◌, max, min, length, IfOk};
ghost use Rattle.admission.specs.Admission.{raised, least, stepped as greatest_step};
ghost use Rattle.ingress.specs.Streams.{bound_in, mark_in, allowed_in};

use admission::Policy;
use std::alloc::Global;
use tw_rows::{Memory, Time, floor_to};

/// Below its bound a stream's lines are late, and up to its mark punctuations close it.
#[derive(Clone, Copy, Debug, PartialEq, Eq)]
pub struct Watermark {
    pub bound: Time,
    pub mark: Time,
}

/// The bound and the mark of each declared stream.
#[derive(Drop)]
pub struct Watermarks {
    pub(crate) streams: Vec<Watermark>,
}

// The later of two times.
pub(crate) fn later(a: Time, b: Time) -> Time
    ensures { result ≡ max a b }
{
    if a < b { b } else { a }
}

// The earlier of two times.
fn earlier(a: Time, b: Time) -> Time
    ensures { result ≡ min a b }
{
    if a < b { a } else { b }
}

// The greatest multiple of the period that is not above `t`, and 0 for the period 0.
fn stepped(period: u64, t: Time) -> Time
    ensures { result ≡ greatest_step period t }
{
    if period == 0 {
        Time::ZERO
    } else {
        floor_to(t, period)
    }
}

impl Watermarks {
    /// All 0, for so many streams.
    pub fn new(alloc: Global, streams: usize) -> Result<Watermarks, Memory>
        ensures bounds { IfOk result (λ w. (s : ℕ) → bound_in w.streams.items s ≡ 0) }
        ensures marks { IfOk result (λ w. (s : ℕ) → mark_in w.streams.items s ≡ 0) }
        ensures len { IfOk result (λ w. length w.streams.items ≡ streams) }
    {
        let mut watermarks = Vec::new(alloc);
        for _ in 0..streams {
            watermarks.push(Watermark {
                bound: Time::ZERO,
                mark: Time::ZERO,
            })?;
        }
        Ok(Watermarks {
            streams: watermarks,
        })
    }

    /// The bound of a declared stream.
    pub fn bound(&self, stream: usize) -> Time
        requires { stream < length self.now.streams.items }
        ensures { result ≡ bound_in self.now.streams.items stream }
    {
        self.streams[stream].bound
    }

    /// The mark of a declared stream.
    pub fn mark(&self, stream: usize) -> Time
        requires { stream < length self.now.streams.items }
        ensures { result ≡ mark_in self.now.streams.items stream }
    {
        self.streams[stream].mark
    }

    /// Raises the bound of a declared stream to at least `t`.
    pub fn raise_bound(&mut self, stream: usize, t: Time)
        requires { stream < length self.old.streams.items }
        ensures bounds { (s : ℕ) → bound_in self.new.streams.items s
            ≡ raised stream t (bound_in self.old.streams.items) s }
        ensures marks { (s : ℕ) → mark_in self.new.streams.items s
            ≡ mark_in self.old.streams.items s }
        ensures len { length self.new.streams.items ≡ length self.old.streams.items }
    {
        let old = self.streams[stream];
        self.streams[stream] = Watermark {
            bound: later(old.bound, t),
            mark: old.mark,
        };
    }

    /// Raises the bound and the mark of a declared stream to at least `t`.
    pub fn raise(&mut self, stream: usize, t: Time)
        requires { stream < length self.old.streams.items }
        ensures bounds { (s : ℕ) → bound_in self.new.streams.items s
            ≡ raised stream t (bound_in self.old.streams.items) s }
        ensures marks { (s : ℕ) → mark_in self.new.streams.items s
            ≡ raised stream t (mark_in self.old.streams.items) s }
        ensures len { length self.new.streams.items ≡ length self.old.streams.items }
    {
        let old = self.streams[stream];
        self.streams[stream] = Watermark {
            bound: later(old.bound, t),
            mark: later(old.mark, t),
        };
    }

    /// Raises the bound and the mark of each stream to at least `t`.
    pub fn raise_all(&mut self, t: Time)
        ensures bounds { (s : ℕ) → s < length self.old.streams.items →
            bound_in self.new.streams.items s ≡ max (bound_in self.old.streams.items s) t }
        ensures marks { (s : ℕ) → s < length self.old.streams.items →
            mark_in self.new.streams.items s ≡ max (mark_in self.old.streams.items s) t }
        ensures len { length self.new.streams.items ≡ length self.old.streams.items }
    {
        for stream in 0..self.streams.len() {
            self.raise(stream, t);
        }
    }

    // The least bound, and infinity where there is no stream.
    #[tactic(auto, unfolding(tw_rows::specs::Instant::inf))]
    fn least_bound(&self) -> Time
        ensures { result ≡ least (length self.now.streams.items) (bound_in self.now.streams.items) }
    {
        let mut bound = Time::INF;
        for stream in 0..self.streams.len() {
            bound = earlier(self.bound(stream), bound);
        }
        bound
    }

    // The least mark, and infinity where there is no stream.
    #[tactic(auto, unfolding(tw_rows::specs::Instant::inf))]
    fn least_mark(&self) -> Time
        ensures { result ≡ least (length self.now.streams.items) (mark_in self.now.streams.items) }
    {
        let mut mark = Time::INF;
        for stream in 0..self.streams.len() {
            mark = earlier(self.mark(stream), mark);
        }
        mark
    }

    /// The greatest punctuation that the bounds and the marks allow.
    pub fn allowed(&self, policy: Policy) -> Time
        ensures { result ≡ allowed_in policy self.now.streams.items }
    {
        later(
            stepped(policy.period, self.least_bound()),
            self.least_mark(),
        )
    }
}

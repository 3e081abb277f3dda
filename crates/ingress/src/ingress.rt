// What admission keeps between two lines.
ghost use Rattle.std.specs.Prelude.{◌≡◌, map, length};
ghost use Rattle.ingress.specs.Fits.{HasShape};
ghost use Rattle.ingress.specs.Streams.{AreAbove};
ghost use Rattle.ingress.specs.declared.ingress.Refusal.TheVariants as refusals;

use crate::held_streams::HeldStreams;
use crate::watermarks::Watermarks;
use admission::Policy;
use std::alloc::Global;
use tw_rows::{Kind, Memory, Time};

/// Lines are admitted one by one, and what they give is held until a punctuation, at which the edges before it are released.
pub struct Ingress {
    pub(crate) policy: Policy,
    pub(crate) kinds: Vec<Vec<Kind>>,
    pub(crate) capacity: usize,
    pub(crate) watermarks: Watermarks,
    pub(crate) held: HeldStreams,
    pub(crate) released: Time,
    pub(crate) alloc: Global,
    ghost shape: { HasShape (map (λ k. k.items) kinds.items) capacity (length watermarks.streams.items) held.waiting.items },
    ghost above: { AreAbove watermarks.streams.items },
}

// By hand, so that its users cite this and not the destructors of its parts.
impl Drop for Ingress {
    fn drop(self) {
        let Ingress {
            policy: _,
            kinds: _kinds,
            capacity: _,
            watermarks: _watermarks,
            held: _held,
            released: _,
            alloc: _,
        } = self;
    }
}

/// Why an entry was refused.
#[derive(Clone, Copy, Debug, PartialEq, Eq)]
pub enum Refusal {
    /// Its sync is below the bound of its stream, and late lines are refused.
    Late { time: Time, bound: Time },
    /// It ends an event that did not start.
    NoStart,
    /// Out of memory.
    Memory,
}

impl From<Memory> for Refusal {
    ghost from_gives = { λ _ refusal. refusal ≡ refusals.Memory };

    fn from(_memory: Memory) -> Refusal {
        Refusal::Memory
    }
}

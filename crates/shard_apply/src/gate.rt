// What shards pass before they step.

/// With fewer edges threads cost more than they give: to make four takes as long as to work some hundreds of edges through, and
/// what they work on crosses processors.
const FORK: u64 = 4096;

/// What each shard passes before its step, and which steps shards take beside each other. No result depends on it: it lets a
/// test see that shards run beside each other.
pub trait Gate: Sync {
    fn enter(&self, shard: usize);

    /// With fewer edges than this the shards step one after another.
    fn fewest_edges(&self) -> u64 {
        0
    }
}

/// A gate that is always open, and lets shards run beside each other where it pays.
#[derive(Clone, Copy, Drop)]
pub struct OpenGate;

impl Gate for OpenGate {
    fn enter(&self, _shard: usize) {}

    fn fewest_edges(&self) -> u64 {
        FORK
    }
}

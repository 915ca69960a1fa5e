//! Numbers of nodes and heights that stop at 2^32.
ghost use Rattle.std.specs.Prelude.{◌≡◌, ◌↔◌, ◌<◌, ◌⊎◌, ℕ, ◌+◌, ◌*◌, ◌^◌, IsTrue, min, max};
ghost use Rattle.env_theory.specs.Count.{joined};

/// How many nodes, and how high; 2^32 stands for itself and everything above.
#[derive(Clone, Copy)]
pub struct Tally {
    pub nodes: u64,
    pub height: u64,
}

/// Where counting stops.
const LIMIT: u64 = 1 << 32;

/// The most nodes that a formula or a body may have.
const MOST_NODES: u64 = 65_536;

/// How high one may be.
const GREATEST_HEIGHT: u64 = 1_024;

/// A step down.
pub(crate) const STEP: Tally = Tally {
    nodes: 1,
    height: 2,
};

fn times(a: u64, b: u64) -> u64
    ensures plain { result ≡ min (a * b) (2 ^ 32) }
    ensures stopped { (x : ℕ) → b ≡ min x (2 ^ 32) → result ≡ min (a * x) (2 ^ 32) }
{
    a.saturating_mul(b).min(LIMIT)
}

fn join(a: u64, b: u64) -> u64
    ensures plain { result ≡ min (joined a b) (2 ^ 32) }
    ensures stopped { (x : ℕ) → b ≡ min x (2 ^ 32) → result ≡ min (joined a x) (2 ^ 32) }
{
    if a == 0 || b == 0 {
        0
    } else {
        (a - 1).saturating_add(b).min(LIMIT)
    }
}

impl Tally {
    /// No node.
    pub const NONE: Tally = Tally {
        nodes: 0,
        height: 0,
    };

    /// One node.
    pub const ONE: Tally = Tally {
        nodes: 1,
        height: 1,
    };

    /// So many more nodes, one on top of another, over what these count.
    pub fn below(self, more: u64) -> Tally
        ensures nodes { result.nodes ≡ min (self.nodes + more) (2 ^ 32) }
        ensures height { result.height ≡ min (self.height + more) (2 ^ 32) }
    {
        Tally {
            nodes: self.nodes.saturating_add(more).min(LIMIT),
            height: self.height.saturating_add(more).min(LIMIT),
        }
    }

    /// Whether a limit of formulas and bodies is passed.
    pub fn passes(self) -> bool
        ensures { IsTrue result ↔ ((65536 < self.nodes) ⊎ (1024 < self.height)) }
    {
        self.nodes > MOST_NODES || self.height > GREATEST_HEIGHT
    }

    /// Two side by side.
    pub fn beside(self, other: Tally) -> Tally
        ensures nodes { result.nodes ≡ min (self.nodes + other.nodes) (2 ^ 32) }
        ensures height { result.height ≡ min (max self.height other.height) (2 ^ 32) }
    {
        Tally {
            nodes: self.nodes.saturating_add(other.nodes).min(LIMIT),
            height: self.height.max(other.height).min(LIMIT),
        }
    }

    /// The argument of a definition, which stands in its body as often and as deep as this says.
    pub(crate) fn put(self, argument: Tally) -> Tally
        ensures nodes { (x : ℕ) → argument.nodes ≡ min x (2 ^ 32) → result.nodes ≡ min (self.nodes * x) (2 ^ 32) }
        ensures height { (x : ℕ) → argument.height ≡ min x (2 ^ 32) → result.height ≡ min (joined self.height x) (2 ^ 32) }
    {
        Tally {
            nodes: times(self.nodes, argument.nodes),
            height: join(self.height, argument.height),
        }
    }

    /// As often and as deep as both say, one after the other.
    pub(crate) fn through(self, more: Tally) -> Tally
        ensures nodes { result.nodes ≡ min (self.nodes * more.nodes) (2 ^ 32) }
        ensures height { result.height ≡ min (joined self.height more.height) (2 ^ 32) }
    {
        Tally {
            nodes: times(self.nodes, more.nodes),
            height: join(self.height, more.height),
        }
    }
}

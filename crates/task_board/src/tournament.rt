//! A tournament: numbers at places, of which the least is known.
ghost use Rattle.std.specs.Prelude.{◌≡◌, [], ◌+◌, ◌*◌, ◌^◌, ◌<◌, ◌≤◌, length, replicate, slice_index, slice_set, IfOk};
ghost use Rattle.task_board.specs.Places.{nothing, least_of, least_number};

use base_core::NoMemory;
use std::alloc::Global;
use std::marker::Model;

/// What stands at a place without a number.
pub const NOTHING: u64 = u64::MAX;

/// Numbers at places. Contracts see the list of them.
///
/// A complete binary tree in one list: the children of node `i` are `2 i` and `2 i + 1`, the root is node 1, and
/// the second half of the nodes are the leaves, which are the places. Each inner node has the lesser number of its
/// children, so the root has the least of all.
#[derive(Drop)]
pub struct Tournament {
    nodes: Vec<u64>,
    places: usize,
}

impl Model for Tournament {
    ghost use Rattle.std.specs.Prelude.{List, ℕ, drop};
    ghost use Rattle.task_board.specs.Trees.{IsTournament};

    ghost Value = { List ℕ };

    ghost view = { λ t. drop t.places t.nodes.items };

    ghost invariant = { λ t. IsTournament t.places t.nodes.items };
}

/// The number of the root.
fn root(nodes: &[u64]) -> u64
    requires { 1 < length nodes.now }
    ensures is { result ≡ slice_index nodes.now 1 }
    ensures fits { result ≤ nothing }
{
    nodes[1]
}

impl Tournament {
    /// No places, and no memory.
    pub fn empty(alloc: Global) -> Tournament
        ensures { result ≡ [] }
    {
        Tournament {
            nodes: Vec::new(alloc),
            places: 0,
        }
    }

    /// So many places without a number.
    pub fn new(alloc: Global, places: usize) -> Result<Tournament, NoMemory>
        requires { places < 2 ^ 62 }
        ensures { IfOk result (λ t. t ≡ replicate places nothing) }
    {
        Ok(Tournament {
            nodes: Vec::from_elem(alloc, NOTHING, 2 * places)?,
            places,
        })
    }

    /// How many places there are.
    pub fn len(&self) -> usize
        ensures { result ≡ length self.now }
    {
        self.places
    }

    /// The least number, if a place has one.
    pub fn least_number(&self) -> Option<u64>
        ensures { result ≡ least_number self.now }
    {
        let least = self.least();
        if least == NOTHING { None } else { Some(least) }
    }

    /// The least number, or `NOTHING` where no place has one.
    fn least(&self) -> u64
        ensures { result ≡ least_of self.now }
    {
        if self.places == 0 {
            return NOTHING;
        }
        root(&self.nodes)
    }

    /// Puts a number at a place. The nodes on the way to the root change: as many as the logarithm of the places.
    pub fn set(&mut self, place: usize, number: u64)
        requires { place < length self.old }
        ensures { self.new ≡ slice_set self.old place number }
    {
        let mut node = self.places + place;
        self.nodes[node] = number;
        while node > 1 {
            node /= 2;
            self.nodes[node] = self.nodes[2 * node].min(self.nodes[2 * node + 1]);
        }
    }

    /// No place has a number.
    pub fn clear(&mut self)
        ensures { self.new ≡ replicate (length self.old) nothing }
    {
        self.nodes.fill(NOTHING);
    }
}

//! The sizes of the items, and sums of runs of them.
ghost use Rattle.std.specs.Prelude.{◌≡◌, ℕ, ◌+◌, ◌<◌, ◌≤◌, ◌^◌, [], ◌∷◌, ◌++◌, length, take, slice_set, OnOk, OnErr};
ghost use Rattle.vcs_graph.specs.Sums.{sum_to, EndsRun};

use base_core::NoMemory;
use std::alloc::Global;
use std::marker::Model;

/// Sizes in order. Contracts see the list of them.
///
/// Beside each stands a sum. The number of a size, counted from 1, is an odd number that was doubled some times; its sum is that of
/// so many sizes up to it as 1 is, doubled as often. So the first sizes are some few runs, and a size is in few of them.
#[derive(Drop)]
pub(crate) struct Sizes {
    sizes: Vec<usize>,
    sums: Vec<usize>,
}

impl Model for Sizes {
    ghost use Rattle.std.specs.Prelude.{List, ℕ};
    ghost use Rattle.vcs_graph.specs.Sums.{IsSums};

    ghost Value = { List ℕ };

    ghost view = { λ s. s.sizes.items };

    ghost invariant = { λ s. IsSums s.sums.items s.sizes.items };
}

impl Sizes {
    /// No sizes, and no memory.
    pub fn new(alloc: Global) -> Sizes
        ensures { result ≡ [] }
    {
        Sizes {
            sizes: Vec::new(alloc),
            sums: Vec::new(alloc),
        }
    }

    /// How many there are.
    pub fn len(&self) -> usize
        ensures { result ≡ length self.now }
    {
        self.sizes.len()
    }

    /// The sum of the first so many.
    pub fn sum_to(&self, count: usize) -> usize
        requires { count ≤ length self.now }
        ensures { result ≡ sum_to count self.now }
    {
        let mut total: usize = 0;
        let mut left = count;
        let mut rest = count;
        let mut run: usize = 1;
        while rest > 0 {
            if rest % 2 == 1 {
                total += self.sums[left - 1];
                left -= run;
            }
            rest /= 2;
            run *= 2;
        }
        total
    }

    /// A size comes in behind the others; with `Err` they are as before.
    pub fn push(&mut self, size: usize) -> Result<(), NoMemory>
        requires { sum_to (length self.old) self.old + size < 2 ^ 64 }
        ensures ok { OnOk result (self.new ≡ self.old ++ (size ∷ [])) }
        ensures err { OnErr result (self.new ≡ self.old) }
    {
        let count = self.sizes.len();
        let before = self.sum_to(count + 1 - run_of(count + 1));
        let sum = self.sum_to(count) - before + size;
        self.sizes.reserve(1)?;
        self.sums.reserve(1)?;
        self.sizes.push(size)?;
        self.sums.push(sum)?;
        Ok(())
    }

    /// A size changes.
    pub fn set(&mut self, place: usize, size: usize)
        requires within { place < length self.old }
        requires small { sum_to (length self.old) (slice_set self.old place size) < 2 ^ 64 }
        ensures { self.new ≡ slice_set self.old place size }
    {
        let old = self.sizes[place];
        self.sizes[place] = size;
        let mut right = place + 1;
        let mut rest = place;
        let mut run: usize = 1;
        while right <= self.sums.len() {
            if rest % 2 == 0 {
                self.sums[right - 1] = self.sums[right - 1] - old + size;
                right += run;
            }
            rest /= 2;
            run *= 2;
        }
    }

    /// The first so many stay.
    pub fn truncate(&mut self, count: usize)
        ensures { self.new ≡ take count self.old }
    {
        self.sizes.truncate(count);
        self.sums.truncate(count);
    }
}

/// How many sizes the sum is of that stands at a number.
fn run_of(number: usize) -> usize
    requires some { 0 < number }
    requires small { number < 2 ^ 63 }
    ensures { EndsRun number result }
{
    let mut rest = number;
    let mut run: usize = 1;
    while rest % 2 == 0 {
        rest /= 2;
        run *= 2;
    }
    run
}

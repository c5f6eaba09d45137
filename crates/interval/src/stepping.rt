//! A stepping interval: each draw steps a seed and answers a length that follows from it.
ghost use Rattle.std.specs.Prelude.{◌≡◌, ℕ};
ghost use Rattle.std.proofs.Common.{rules};
ghost use Rattle.interval.specs.Stepping.{next_seed, next_length, stepping_meaning};

use crate::source::{IntervalSource, LEAST, MOST};

const FACTOR: u32 = 1_664_525;

const SUMMAND: u32 = 1_013_904_223;

const LENGTHS: u32 = MOST - LEAST + 1;

/// A source whose intervals follow one another from a seed, so that who knows the seed knows them all.
#[derive(Clone, Copy)]
pub struct SteppingInterval {
    seed: u32,
}

// The seed that follows, in 32 bits.
fn next_seed(seed: u32) -> u32
    ensures { result ≡ next_seed seed }
{
    FACTOR.wrapping_mul(seed).wrapping_add(SUMMAND)
}

impl SteppingInterval {
    /// A source that begins at a seed; any will do.
    pub fn new(seed: u32) -> Self
        ensures { result.seed ≡ seed }
    {
        SteppingInterval { seed }
    }
}

impl IntervalSource for SteppingInterval {
    ghost Position = { ℕ };

    ghost position = { λ s. s.seed };

    ghost meaning = { stepping_meaning };

    ghost in_limits = { Prim.search rules };

    fn draw(&mut self) -> u32
        ensures answer { result ≡ next_length self.old.seed }
        ensures next { self.new.seed ≡ next_seed self.old.seed }
    {
        self.seed = next_seed(self.seed);
        LEAST + self.seed % LENGTHS
    }
}

// An interval source that counts its draws.
ghost use Rattle.std.specs.Prelude.{◌≡◌, ◌+◌, ◌%◌, ℕ};
ghost use Rattle.room_examples.specs.Counting.{counting_meaning};
ghost use Rattle.std.proofs.Common.{rules, arith};

use interval::source::{IntervalSource, LEAST};

/// It may not be let go: whoever puts one into a room takes it out again.
pub struct CountingSource {
    drawn: u32,
}

impl CountingSource {
    /// A source that has drawn nothing.
    pub fn new() -> Self
        ensures { result.drawn ≡ 0 }
    {
        CountingSource { drawn: 0 }
    }

    /// How many intervals were drawn; that is all there was to it.
    pub fn into_drawn(self) -> u32
        ensures { result ≡ self.drawn }
    {
        let CountingSource { drawn } = self;
        drawn
    }
}

impl IntervalSource for CountingSource {
    ghost Position = { ℕ };

    ghost position = { λ s. s.drawn };

    ghost meaning = { counting_meaning };

    ghost in_limits = { Prim.search rules };

    fn draw(&mut self) -> u32
        ensures answer { result ≡ 100 }
        ensures next { self.new.drawn ≡ (self.old.drawn + 1) % 4294967296 }
    {
        self.drawn = self.drawn.wrapping_add(1);
        LEAST
    }
}

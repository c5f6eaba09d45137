//! A fixed interval: every draw answers the same length, 100 to 1,000 milliseconds.
ghost use Rattle.std.specs.Prelude.{◌≤◌};

use crate::refusal::IntervalRefusal;
use crate::source::{IntervalSource, LEAST, MOST};

/// A source whose intervals all have one length.
#[derive(Clone, Copy)]
pub struct FixedInterval {
    length: u32,
    ghost least: { 100 ≤ length },
    ghost most: { length ≤ 1000 },
}

impl FixedInterval {
    ghost use Rattle.std.specs.Prelude.{◌≡◌};
    ghost use Rattle.interval.specs.Fixed.{fixed_length, new_fixed};

    /// A source of this length in milliseconds. A length outside 100 to 1,000 is refused.
    pub fn new(length: u32) -> Result<FixedInterval, IntervalRefusal>
        ensures { fixed_length result ≡ new_fixed length }
    {
        if !(LEAST..=MOST).contains(&length) {
            return Err(IntervalRefusal::LengthOutsideLimits);
        }
        Ok(FixedInterval { length })
    }
}

impl IntervalSource for FixedInterval {
    ghost use Rattle.std.specs.Prelude.{◌≡◌};
    ghost use Rattle.std.proofs.Common.{rules, arith};
    ghost use Rattle.interval.specs.Fixed.{fixed_meaning};
    ghost use Rattle.interval.specs.declared.fixed.FixedInterval.{FixedInterval};

    ghost Position = { FixedInterval };

    ghost position = { λ s. s };

    ghost meaning = { fixed_meaning };

    ghost in_limits = { Prim.search rules };

    fn draw(&mut self) -> u32
        ensures answer { result ≡ self.old.length }
        ensures next { self.new ≡ self.old }
    {
        self.length
    }
}

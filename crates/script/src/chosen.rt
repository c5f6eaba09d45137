// A ranking and an interval source that are chosen while the program runs. Each is one of those that are
// built, so a room over them needs no code of its own.
ghost use Rattle.std.specs.Prelude.{◌≡◌};
ghost use Rattle.script.specs.Chosen.{chosen_ahead, chosen_meaning, interval_made, interval_result};
ghost use Rattle.script.specs.declared.chosen.ChosenInterval.{ChosenInterval};
ghost use Rattle.std.proofs.Common.{rules, arith};

use crate::statement::IntervalTerms;
use allocation::ranking::{EarlierArrival, LargerSize, Ranking};
use allocation::response::Key;
use interval::fixed::FixedInterval;
use interval::refusal::IntervalRefusal;
use interval::source::IntervalSource;
use interval::stepping::SteppingInterval;

/// The earlier arrival, or the larger stored size.
#[derive(Clone, Copy, PartialEq, Eq, Debug)]
pub enum ChosenRanking {
    /// The earlier arrival.
    Arrival,
    /// The larger stored size, and of equal ones the earlier arrival.
    Size,
}

impl Ranking for ChosenRanking {
    ghost ahead = { chosen_ahead };

    ghost one_ahead = { Prim.search rules };

    ghost carries_on = { Prim.search rules };

    fn is_ahead(&self, x: Key, y: Key) -> bool
        ensures { result ≡ chosen_ahead self.now x y }
    {
        match self {
            ChosenRanking::Arrival => EarlierArrival.is_ahead(x, y),
            ChosenRanking::Size => LargerSize.is_ahead(x, y),
        }
    }
}

/// A source of a fixed length, or one that steps a seed.
#[derive(Clone, Copy)]
pub enum ChosenInterval {
    Fixed(FixedInterval),
    Drawn(SteppingInterval),
}

impl ChosenInterval {
    /// The source of these terms. A fixed length outside its limits is refused.
    pub fn new(terms: IntervalTerms) -> Result<ChosenInterval, IntervalRefusal>
        ensures { interval_result result ≡ interval_made terms }
    {
        match terms {
            IntervalTerms::Fixed { milliseconds } => {
                Ok(ChosenInterval::Fixed(FixedInterval::new(milliseconds)?))
            }
            IntervalTerms::Drawn { seed } => Ok(ChosenInterval::Drawn(SteppingInterval::new(seed))),
        }
    }
}

impl IntervalSource for ChosenInterval {
    ghost Position = { ChosenInterval };

    ghost position = { λ s. s };

    ghost meaning = { chosen_meaning };

    ghost in_limits = { Prim.search rules };

    fn draw(&mut self) -> u32
        ensures answer { result ≡ chosen_meaning.draws self.old }
        ensures next { self.new ≡ chosen_meaning.next self.old }
    {
        match self {
            ChosenInterval::Fixed(source) => source.draw(),
            ChosenInterval::Drawn(source) => source.draw(),
        }
    }
}

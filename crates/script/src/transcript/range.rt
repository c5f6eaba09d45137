// The text of a permitted range.
ghost use Rattle.std.specs.Prelude.{◌≡◌, Some};
ghost use Rattle.market.specs.Range.{range_prices};
ghost use Rattle.script.specs.Range.{range_told};
ghost use Rattle.script.specs.Answer.{span_text, range_text};

use market::range::PermittedRange;
use std::fmt;

/// What a question for a range is told: the lowest and the highest permitted price, and the initiating
/// price, none turned.
#[derive(Clone, Copy, PartialEq, Eq, Debug)]
pub struct RangeTold {
    /// The lowest permitted price, in cents.
    pub lowest: i64,
    /// The highest.
    pub highest: i64,
    /// The price at which an auction would begin.
    pub initiating: i64,
}

impl RangeTold {
    /// What is told of a range.
    pub fn new(range: PermittedRange) -> RangeTold
        ensures { result ≡ range_told (range_prices range) }
    {
        RangeTold {
            lowest: range.lowest(),
            highest: range.highest(),
            initiating: range.initiating_price(),
        }
    }
}

// Two prices, from the lower to the higher.
#[derive(Clone, Copy)]
struct Span(i64, i64);

impl fmt::Display for Span {
    ghost output = { λ x. Some (span_text x.0 x.1) };

    fn fmt<W: fmt::Write>(&self, f: &mut fmt::Formatter<W>) -> fmt::Result {
        let Span(lower, higher) = *self;
        write!(f, "{lower} to {higher}")
    }
}

impl fmt::Display for RangeTold {
    ghost output = { λ x. Some (range_text x) };

    fn fmt<W: fmt::Write>(&self, f: &mut fmt::Formatter<W>) -> fmt::Result {
        let span = Span(self.lowest, self.highest);
        let initiating = self.initiating;
        write!(f, "range {span} initiating {initiating}")
    }
}

// The legs of a strategy that were set so far.
ghost use Rattle.std.specs.Prelude.{◌≡◌, true};
ghost use Rattle.market.specs.Limits.{one_to_nine};

use market::leg::LegTerms;
use market::legs::Legs;
use market::refusal::SetupRefusal;

/// No leg, one, or a strategy of two to four.
#[derive(Clone, Copy)]
pub(crate) enum LegsSoFar {
    Nothing,
    One(FirstLeg),
    Strategy(Legs),
}

/// A leg that waits for the second one. Its ratio is 1 to 9.
#[derive(Clone, Copy)]
pub(crate) struct FirstLeg {
    terms: LegTerms,
    ghost in_limits: { one_to_nine terms.ratio ≡ true },
}

impl FirstLeg {
    ghost use Rattle.script.specs.Setup.{first_made, first_result};

    /// A leg that a strategy may have: one could be made of it twice. Refused with 9 for its ratio.
    fn checked(terms: LegTerms) -> Result<FirstLeg, SetupRefusal>
        ensures { first_result result ≡ first_made terms }
    {
        Legs::new(terms, terms)?;
        Ok(FirstLeg { terms })
    }
}

impl LegsSoFar {
    ghost use Rattle.std.specs.Option.{option_map};
    ghost use Rattle.market.specs.Legs.{legs_of};
    ghost use Rattle.script.specs.Setup.{legs_result, legs_so_far, legs_with, strategy_in};

    /// The legs with one more behind them. Refused with 9 for its ratio, then 10 for a fifth leg.
    pub(crate) fn with(self, leg: LegTerms) -> Result<LegsSoFar, SetupRefusal>
        ensures { legs_result result ≡ legs_with (legs_so_far self) leg }
    {
        match self {
            LegsSoFar::Nothing => Ok(LegsSoFar::One(FirstLeg::checked(leg)?)),
            LegsSoFar::One(first) => Ok(LegsSoFar::Strategy(Legs::new(first.terms, leg)?)),
            LegsSoFar::Strategy(legs) => {
                let mut legs = legs;
                legs.add(leg)?;
                Ok(LegsSoFar::Strategy(legs))
            }
        }
    }

    /// The legs as a strategy, if they are two or more.
    pub(crate) fn strategy(self) -> Option<Legs>
        ensures { option_map legs_of result ≡ strategy_in (legs_so_far self) }
    {
        match self {
            LegsSoFar::Strategy(legs) => Some(legs),
            _ => None,
        }
    }
}

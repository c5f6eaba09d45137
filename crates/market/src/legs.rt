//! The legs of a strategy, two to four, each bought or sold at a ratio.
ghost use Rattle.std.specs.Prelude.{◌≡◌, ◌≤◌, true, min};
ghost use Rattle.std.specs.Option.{option_map_or};
ghost use Rattle.market.specs.Leg.{leg_ok, optional_leg_ok, third_before_fourth, leg_part, plus};
ghost use Rattle.market.specs.Limits.{within};

use crate::Market;
use crate::fault::Fault;
use crate::leg::{Leg, LegQuote, LegTerms, LegTick, QuoteSide};
use crate::limits::one_to_nine;
use crate::quote::Quote;
use crate::refusal::SetupRefusal;

/// The legs of a strategy. A tick is a quote for one of them; prices show once each leg is quoted.
///
/// Four fields, and no list: making legs cannot fail, so they take no heap, and an array could not say that
/// the first two are always there.
#[derive(Clone, Copy)]
pub struct Legs {
    first: Leg,
    second: Leg,
    third: Option<Leg>,
    fourth: Option<Leg>,
    ghost first_ok: { leg_ok first ≡ true },
    ghost second_ok: { leg_ok second ≡ true },
    ghost third_ok: { optional_leg_ok third ≡ true },
    ghost fourth_ok: { optional_leg_ok fourth ≡ true },
    ghost in_turn: { third_before_fourth third fourth ≡ true },
}

// The smaller of a ratio and a leg's, if there is one.
fn smaller(leg: Option<Leg>, ratio: u8) -> u8
    ensures { result ≡ option_map_or (λ l. min l.ratio ratio) leg ratio }
{
    leg.map_or(ratio, |l| l.ratio.min(ratio))
}

// A sum has a price where both its parts have one.
fn add(part: Option<i64>, rest: Option<i64>) -> Option<i64>
    requires part { within 9000000 part ≡ true }
    requires rest { within 27000000 rest ≡ true }
    ensures { result ≡ plus part rest }
{
    Some(part? + rest?)
}

// A leg's part on top of a sum, if there is such a leg.
fn add_leg(shown: QuoteSide, leg: Option<Leg>, rest: Option<i64>) -> Option<i64>
    requires leg { optional_leg_ok leg ≡ true }
    requires rest { within 27000000 rest ≡ true }
    ensures { result ≡ option_map_or (λ l. plus (leg_part shown l) rest) leg rest }
{
    leg.map_or(rest, |l| add(l.part_of(shown), rest))
}

impl Legs {
    ghost use Rattle.std.specs.Prelude.{length};
    ghost use Rattle.market.specs.Leg.{leg_quote_ok};
    ghost use Rattle.market.specs.Legs.{legs_of, legs_or_number, new_legs, add_answer, add_next, smallest_ratio, legs_sum, quote_leg};
    ghost use Rattle.market.specs.Market.{told_by};
    ghost use Rattle.market.specs.Refusal.{setup_number};

    /// Two legs, not yet quoted. A ratio that is not 1 to 9 is refused.
    pub fn new(first: LegTerms, second: LegTerms) -> Result<Legs, SetupRefusal>
        ensures { legs_or_number result ≡ new_legs first second }
    {
        if !one_to_nine(first.ratio) || !one_to_nine(second.ratio) {
            return Err(SetupRefusal::RatioOrStep);
        }
        Ok(Legs {
            first: Leg::from(first),
            second: Leg::from(second),
            third: None,
            fourth: None,
        })
    }

    /// Adds one leg more, not yet quoted. A ratio that is not 1 to 9 is refused, and then a fifth leg; the
    /// legs stay.
    pub fn add(&mut self, leg: LegTerms) -> Result<(), SetupRefusal>
        ensures answer { told_by setup_number result ≡ add_answer (legs_of self.old) leg }
        ensures after { legs_of self.new ≡ add_next (legs_of self.old) leg }
    {
        if !one_to_nine(leg.ratio) {
            return Err(SetupRefusal::RatioOrStep);
        }
        match (self.third, self.fourth) {
            (None, _) => self.third = Some(Leg::from(leg)),
            (_, None) => self.fourth = Some(Leg::from(leg)),
            (Some(_), Some(_)) => return Err(SetupRefusal::FifthLeg),
        }
        Ok(())
    }

    /// The smallest ratio of the legs, 1 to 9.
    pub fn smallest_ratio(&self) -> u8
        ensures value { result ≡ smallest_ratio (legs_of self.now) }
        ensures least { 1 ≤ result }
        ensures most { result ≤ 9 }
    {
        let second = self.first.ratio.min(self.second.ratio);
        smaller(self.fourth, smaller(self.third, second))
    }

    fn count(&self) -> u32
        ensures { result ≡ length (legs_of self.now) }
    {
        2 + u32::from(self.third.is_some()) + u32::from(self.fourth.is_some())
    }

    // The strategy's bid or offer, once every leg is quoted.
    fn sum(&self, shown: QuoteSide) -> Option<i64>
        ensures { result ≡ legs_sum shown (legs_of self.now) }
    {
        let fourth = add_leg(shown, self.fourth, Some(0));
        let third = add_leg(shown, self.third, fourth);
        let second = add_leg(shown, Some(self.second), third);
        add_leg(shown, Some(self.first), second)
    }

    // The leg of this number takes the quote.
    fn quote_leg(&mut self, number: u32, quote: LegQuote)
        requires { leg_quote_ok quote ≡ true }
        ensures { legs_of self.new ≡ quote_leg number quote (legs_of self.old) }
    {
        match number {
            1 => self.first = self.first.with_quote(quote),
            2 => self.second = self.second.with_quote(quote),
            3 => self.third = self.third.map(|leg| leg.with_quote(quote)),
            4 => self.fourth = self.fourth.map(|leg| leg.with_quote(quote)),
            _ => {}
        }
    }
}

impl Market for Legs {
    ghost use Rattle.std.specs.Prelude.{List};
    ghost use Rattle.std.proofs.Common.{rules};
    ghost use Rattle.market.specs.Fault.{FaultTold, fault_told};
    ghost use Rattle.market.specs.FaultsApart.{faults_apart};
    ghost use Rattle.market.specs.Legs.{legs_of, legs_quote, legs_answer, legs_next, legs_meaning};
    ghost use Rattle.market.specs.LegsBounded.{legs_bounded};
    ghost use Rattle.market.specs.Market.{told_by};
    ghost use Rattle.market.specs.declared.leg.Leg.{Leg};

    type Tick = LegTick;

    type Fault = Fault;

    ghost Position = { List Leg };

    ghost position = { legs_of };

    ghost Told = { FaultTold };

    ghost told = { fault_told };

    ghost meaning = { legs_meaning };

    ghost bounded = { legs_bounded };

    ghost refused = { Prim.search rules };

    ghost told_apart = { faults_apart };

    fn shown(&self) -> Quote
        ensures answer { result ≡ legs_quote (legs_of self.now) }
        ensures leaves { self.exit.now ≡ self.entry.now }
    {
        Quote {
            bid: self.sum(QuoteSide::Bid),
            offer: self.sum(QuoteSide::Offer),
        }
    }

    fn tick(&mut self, tick: LegTick) -> Result<(), Fault>
        ensures answer { told_by fault_told result ≡ legs_answer (legs_of self.old) tick }
        ensures next { legs_of self.new ≡ legs_next (legs_of self.old) tick }
    {
        tick.check(self.count())?;
        self.quote_leg(tick.leg, tick.quote);
        Ok(())
    }
}

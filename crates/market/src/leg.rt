//! One leg of a strategy: how it is asked for, how it is quoted, and what it adds to a strategy's price.
ghost use Rattle.std.specs.Prelude.{◌≡◌, ◌≤◌, true, pos, ◌*ℤ◌, Some};
ghost use Rattle.market.specs.Fault.{fault_told};
ghost use Rattle.market.specs.Leg.{new_leg, leg_price_ok, leg_quote_ok, leg_ok, leg_price, leg_part, with_quote, tick_answer};
ghost use Rattle.market.specs.Limits.{within};
ghost use Rattle.market.specs.Market.{told_by};

use crate::fault::{Cause, Fault};
use crate::side::Side;

// A leg's price is 0 to so many cents.
const MOST: i64 = 1_000_000;

/// A leg as it is asked for.
#[derive(Clone, Copy)]
pub struct LegTerms {
    /// Whether the buyer of the strategy buys the leg or sells it.
    pub side: Side,
    /// How many of the leg a unit of the strategy has: 1 to 9, or the leg is refused.
    pub ratio: u8,
}

/// What one contract of a leg is bid and offered at, in cents.
#[derive(Clone, Copy)]
pub struct LegQuote {
    pub bid: i64,
    pub offer: i64,
}

/// A quote for one leg. It may hold any numbers.
#[derive(Clone, Copy)]
pub struct LegTick {
    /// The leg's number, counted from 1.
    pub leg: u32,
    pub quote: LegQuote,
}

/// A leg with the quote that it took last.
///
/// That both are in order is the invariant of `Legs`, and stands in clauses where a leg is alone: the
/// definitions build this record, which they could not with an invariant in it.
#[derive(Clone, Copy)]
pub struct Leg {
    /// Whether the buyer of the strategy buys the leg or sells it.
    pub side: Side,
    /// How many of the leg a unit of the strategy has.
    pub ratio: u8,
    /// The quote that the leg took last, if any.
    pub quote: Option<LegQuote>,
}

/// Which of a strategy's two prices is meant.
#[derive(Clone, Copy)]
pub enum QuoteSide {
    Bid,
    Offer,
}

// A leg as it is asked for has no quote yet.
impl From<LegTerms> for Leg {
    ghost from_gives = { λ terms leg. leg ≡ new_leg terms };

    fn from(terms: LegTerms) -> Leg {
        Leg {
            side: terms.side,
            ratio: terms.ratio,
            quote: None,
        }
    }
}

fn in_limits(price: i64) -> bool
    ensures { result ≡ leg_price_ok price }
{
    (0..=MOST).contains(&price)
}

fn times(ratio: u8, price: i64) -> i64
    requires ratio { ratio ≤ 9 }
    requires price { leg_price_ok price ≡ true }
    ensures value { result ≡ pos ratio *ℤ price }
    ensures bound { within 9000000 (Some result) ≡ true }
{
    i64::from(ratio) * price
}

impl LegQuote {
    // The price that counts towards a strategy's bid or offer, of a leg of this side.
    fn price_for(self, shown: QuoteSide, side: Side) -> i64
        ensures { result ≡ leg_price shown side self }
    {
        match (shown, side) {
            (QuoteSide::Bid, Side::Buy) => self.bid,
            (QuoteSide::Bid, Side::Sell) => self.offer,
            (QuoteSide::Offer, Side::Buy) => self.offer,
            (QuoteSide::Offer, Side::Sell) => self.bid,
        }
    }
}

impl LegTick {
    // The first fault of a tick for one of so many legs, if it has one.
    pub(crate) fn check(self, count: u32) -> Result<(), Fault>
        ensures { told_by fault_told result ≡ tick_answer count self }
    {
        let place = self.leg;
        if !(1..=count).contains(&place) {
            return Err(Fault {
                cause: Cause::NoSuchLeg,
                place,
            });
        }
        if !in_limits(self.quote.bid) || !in_limits(self.quote.offer) {
            return Err(Fault {
                cause: Cause::BeyondLimit,
                place,
            });
        }
        if self.quote.bid >= self.quote.offer {
            return Err(Fault {
                cause: Cause::BidNotBelowOffer,
                place,
            });
        }
        Ok(())
    }
}

impl Leg {
    // The leg with a new quote.
    pub(crate) fn with_quote(self, quote: LegQuote) -> Leg
        requires leg { leg_ok self ≡ true }
        requires quote { leg_quote_ok quote ≡ true }
        ensures value { result ≡ with_quote quote self }
        ensures ok { leg_ok result ≡ true }
    {
        Leg {
            quote: Some(quote),
            ..self
        }
    }

    // What the leg adds to a strategy's bid or offer, once it is quoted.
    pub(crate) fn part_of(self, shown: QuoteSide) -> Option<i64>
        requires leg { leg_ok self ≡ true }
        ensures value { result ≡ leg_part shown self }
        ensures bound { within 9000000 result ≡ true }
    {
        let quote = self.quote?;
        let price = quote.price_for(shown, self.side);
        Some(self.side.turn(times(self.ratio, price)))
    }
}

//! The permitted range of an order, on turned prices.
ghost use Rattle.std.specs.Prelude.{◌≡◌, true, Some, int_le};
ghost use Rattle.std.specs.Option.{option_map};
ghost use Rattle.market.specs.Limits.{in_limits, showable};
ghost use Rattle.market.specs.Market.{Bounded};
ghost use Rattle.market.specs.Side.{turned_price};

use crate::Market;
use crate::limits::in_limits;
use crate::quote::Quote;
use crate::refusal::RangeRefusal;
use crate::side::Side;

/// What a market shows to an order of one side, on turned prices, in cents.
///
/// That both may be shown stands in the clauses and not in the type: the definitions build this record,
/// which they could not with an invariant in it.
#[derive(Clone, Copy)]
pub struct TurnedQuote {
    /// The shown bid; for a sell order the turned offer.
    pub floor: Option<i64>,
    /// The shown offer; for a sell order the turned bid.
    pub contra: Option<i64>,
}

/// The prices at which an order may trade, in cents: from the floor to the initiating price. They are
/// turned: lower is better for the order.
#[derive(Clone, Copy)]
pub struct PermittedRange {
    /// The order's side.
    pub side: Side,
    /// The best price that the order may have.
    pub floor: i64,
    /// The price at which the market itself would trade with the order.
    pub contra: i64,
    /// The lower of the order's limit and the contra price, as `of` makes it.
    pub initiating: i64,
    ghost floor_within: { showable (Some floor) ≡ true },
    ghost contra_within: { showable (Some contra) ≡ true },
    ghost initiating_within: { showable (Some initiating) ≡ true },
    ghost from_floor: { int_le floor initiating ≡ true },
    ghost to_contra: { int_le initiating contra ≡ true },
}

fn turn_shown(side: Side, price: Option<i64>) -> Option<i64>
    requires { showable price ≡ true }
    ensures value { result ≡ option_map (turned_price side) price }
    ensures bound { showable result ≡ true }
{
    price.map(|z| side.turn(z))
}

impl TurnedQuote {
    ghost use Rattle.market.specs.Range.{turned_quote};

    // What a quote means to an order of this side.
    fn of_quote(side: Side, quote: Quote) -> TurnedQuote
        requires { Bounded quote }
        ensures value { result ≡ turned_quote side quote }
        ensures floor { showable result.floor ≡ true }
        ensures contra { showable result.contra ≡ true }
    {
        let bid = turn_shown(side, quote.bid);
        let offer = turn_shown(side, quote.offer);
        match side {
            Side::Buy => TurnedQuote {
                floor: bid,
                contra: offer,
            },
            Side::Sell => TurnedQuote {
                floor: offer,
                contra: bid,
            },
        }
    }

    /// What a market shows to an order of this side.
    pub fn of<M: Market>(market: &M, side: Side) -> TurnedQuote
        ensures value { result ≡ turned_quote side (M.Market.meaning.shows (M.Market.position market.now)) }
        ensures floor { showable result.floor ≡ true }
        ensures contra { showable result.contra ≡ true }
    {
        Self::of_quote(side, market.shown())
    }
}

impl PermittedRange {
    ghost use Rattle.market.specs.Range.{permitted_range, range_from, range_faced, range_answer, range_prices, lowest_price, highest_price};
    ghost use Rattle.market.specs.RangeLaws.{RangeLaws};

    // The range between a floor and the lower of a limit and a contra price, all of them turned. Side and
    // limit come side by side, as in the public call: a struct of the two would be made by that call and
    // taken apart in the next.
    fn between(
        side: Side,
        limit: i64,
        floor: i64,
        contra: i64,
    ) -> Result<PermittedRange, RangeRefusal>
        requires limit { showable (Some limit) ≡ true }
        requires floor { showable (Some floor) ≡ true }
        requires contra { showable (Some contra) ≡ true }
        ensures { range_answer result ≡ range_from side limit floor contra }
    {
        let initiating = limit.min(contra);
        if initiating < floor {
            return Err(RangeRefusal::InitiatingBelowFloor);
        }
        Ok(PermittedRange {
            side,
            floor,
            contra,
            initiating,
        })
    }

    // The range of an order with this turned limit, if both sides show a price.
    fn facing(side: Side, limit: i64, quote: TurnedQuote) -> Result<PermittedRange, RangeRefusal>
        requires limit { showable (Some limit) ≡ true }
        requires floor { showable quote.floor ≡ true }
        requires contra { showable quote.contra ≡ true }
        ensures { range_answer result ≡ range_faced side limit quote.floor quote.contra }
    {
        let (floor, contra) = quote
            .floor
            .zip(quote.contra)
            .ok_or(RangeRefusal::SideShowsNoPrice)?;
        Self::between(side, limit, floor, contra)
    }

    /// The range that a market permits an order of this side with this limit price, which may be any
    /// number. It is refused where the limit price is outside its limits, then where the market shows no
    /// bid or no offer, then where the initiating price would be below the floor.
    pub fn of<M: Market>(market: &M, side: Side, limit: i64) -> Result<PermittedRange, RangeRefusal>
        ensures answer { range_answer result
            ≡ permitted_range side limit (M.Market.meaning.shows (M.Market.position market.now)) }
        ensures laws { RangeLaws side limit
            (M.Market.meaning.shows (M.Market.position market.now)) (range_answer result) }
    {
        if !in_limits(limit) {
            return Err(RangeRefusal::PriceOutsideLimits);
        }
        Self::facing(side, side.turn(limit), TurnedQuote::of(market, side))
    }

    /// The lowest permitted price, as the strategy is priced and not turned.
    pub fn lowest(&self) -> i64
        ensures { result ≡ lowest_price (range_prices self.now) }
    {
        self.floor_price().min(self.initiating_price())
    }

    /// The highest permitted price, not turned.
    pub fn highest(&self) -> i64
        ensures { result ≡ highest_price (range_prices self.now) }
    {
        self.floor_price().max(self.initiating_price())
    }

    /// The contra price, not turned.
    pub fn contra_price(&self) -> i64
        ensures { result ≡ turned_price self.now.side self.now.contra }
    {
        self.side.turn(self.contra)
    }

    /// The initiating price, not turned.
    pub fn initiating_price(&self) -> i64
        ensures { result ≡ turned_price self.now.side self.now.initiating }
    {
        self.side.turn(self.initiating)
    }

    /// The floor, not turned.
    pub fn floor_price(&self) -> i64
        ensures { result ≡ turned_price self.now.side self.now.floor }
    {
        self.side.turn(self.floor)
    }
}

//! A touch: the best bid and offer of a book, told whole by each tick.
ghost use Rattle.std.specs.Prelude.{◌≡◌, true};
ghost use Rattle.market.specs.Limits.{in_limits};

use crate::Market;
use crate::fault::{Cause, Fault};
use crate::limits::in_limits;
use crate::quote::Quote;

/// The best bid and offer of a book. A tick is its next quote, of prices −40,000,000 to 40,000,000 or none.
#[derive(Clone, Copy)]
pub struct Touch {
    quote: Quote,
    ghost bid_within: { in_limits quote.bid ≡ true },
    ghost offer_within: { in_limits quote.offer ≡ true },
}

fn inside(price: Option<i64>) -> bool
    ensures { result ≡ in_limits price }
{
    price.is_none_or(in_limits)
}

impl Touch {
    ghost use Rattle.market.specs.Fault.{fault_told};
    ghost use Rattle.market.specs.Market.{nothing_shown, told_by};
    ghost use Rattle.market.specs.Touch.{touch_quote, touch_answer, in_order};

    /// Before its first quote a touch shows no price.
    pub fn new() -> Self
        ensures { touch_quote result ≡ nothing_shown }
    {
        Touch {
            quote: Quote::default(),
        }
    }

    // Where both are given, the bid is below the offer.
    fn in_order(bid: Option<i64>, offer: Option<i64>) -> bool
        ensures { result ≡ in_order bid offer }
    {
        bid.zip(offer).is_none_or(|(b, o)| b < o)
    }

    // The first fault of a book's quote, if it has one.
    fn check(quote: Quote) -> Result<(), Fault>
        ensures { told_by fault_told result ≡ touch_answer quote }
    {
        if !inside(quote.bid) {
            return Err(Fault {
                cause: Cause::BeyondLimit,
                place: 0,
            });
        }
        if !inside(quote.offer) {
            return Err(Fault {
                cause: Cause::BeyondLimit,
                place: 1,
            });
        }
        if !Self::in_order(quote.bid, quote.offer) {
            return Err(Fault {
                cause: Cause::BidNotBelowOffer,
                place: 0,
            });
        }
        Ok(())
    }
}

impl Market for Touch {
    ghost use Rattle.std.proofs.Common.{rules, arith};
    ghost use Rattle.market.specs.declared.quote.Quote.{Quote};
    ghost use Rattle.market.specs.Fault.{FaultTold, fault_told};
    ghost use Rattle.market.specs.FaultsApart.{faults_apart};
    ghost use Rattle.market.specs.Market.{told_by};
    ghost use Rattle.market.specs.Touch.{touch_quote, touch_answer, touch_next, touch_meaning};

    type Tick = Quote;

    type Fault = Fault;

    ghost Position = { Quote };

    ghost position = { touch_quote };

    ghost Told = { FaultTold };

    ghost told = { fault_told };

    ghost meaning = { touch_meaning };

    ghost bounded = { Prim.search rules };

    ghost refused = { Prim.search rules };

    ghost told_apart = { faults_apart };

    fn shown(&self) -> Quote
        ensures answer { result ≡ touch_quote self.now }
        ensures leaves { self.exit.now ≡ self.entry.now }
    {
        self.quote
    }

    fn tick(&mut self, tick: Quote) -> Result<(), Fault>
        ensures answer { told_by fault_told result ≡ touch_answer tick }
        ensures next { touch_quote self.new ≡ touch_next (touch_quote self.old) tick }
    {
        Self::check(tick)?;
        *self = Touch { quote: tick };
        Ok(())
    }
}

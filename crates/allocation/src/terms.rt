// What an auction is made of, and which terms an auction can have.
ghost use Rattle.std.specs.Prelude.{◌≡◌};
ghost use Rattle.allocation.specs.AuctionInvariant.{terms_ok, range_ok, guarantee_ok, stop_ok};

use crate::limits::is_size;
use crate::order::{GuaranteeKind, PairedOrder};
use market::limits::is_showable;

/// What an auction is made of. An auction has these three as fields of its own, by which its invariants and
/// the definitions name them.
#[derive(Clone, Copy)]
pub struct AuctionTerms {
    /// The order with its guarantee; its limit and its guarantee's price are turned.
    pub order: PairedOrder,
    /// The price where the range begins, turned, in cents.
    pub floor: i64,
    /// The price where the range ends, turned, in cents.
    pub initiating: i64,
}

impl AuctionTerms {
    fn stop_holds(&self) -> bool
        ensures { result ≡ stop_ok self.now.order.guarantee.kind self.now.floor self.now.order.guarantee.price }
    {
        match self.order.guarantee.kind {
            GuaranteeKind::SingleStop => self.floor <= self.order.guarantee.price,
            GuaranteeKind::AutoMatchLimit => true,
        }
    }

    fn range_holds(&self) -> bool
        ensures { result ≡ range_ok self.now.floor self.now.initiating }
    {
        is_showable(self.floor) && is_showable(self.initiating) && self.floor <= self.initiating
    }

    fn guarantee_holds(&self) -> bool
        ensures { result ≡ guarantee_ok self.now.order.guarantee self.now.floor self.now.initiating }
    {
        self.order.guarantee.price <= self.initiating && self.stop_holds()
    }

    /// Whether an auction can have these terms: the order's size is 1 to 100,000, floor and initiating price
    /// are within 50,000,000 cents and in order, and the guarantee is not above the initiating price, nor, as
    /// a single stop, below the floor.
    pub fn hold(&self) -> bool
        ensures { result ≡ terms_ok self.now.order self.now.floor self.now.initiating }
    {
        is_size(self.order.size) && self.range_holds() && self.guarantee_holds()
    }
}

//! Why a market refuses a tick, and where.
ghost use Rattle.std.specs.Prelude.{◌≡◌};
ghost use Rattle.market.specs.Fault.{cause_number};

/// Why a tick is refused. Each cause has the number by which the venue knows it.
#[derive(Clone, Copy, PartialEq, Eq, Debug)]
pub enum Cause {
    /// The strategy has no leg of the tick's number.
    NoSuchLeg = 1,
    /// A price is outside its limits.
    BeyondLimit = 2,
    /// The bid is not below the offer.
    BidNotBelowOffer = 3,
}

impl Cause {
    /// The number by which the venue knows the cause.
    pub fn number(self) -> u8
        ensures { result ≡ cause_number self }
    {
        self as u8
    }
}

/// Why a tick is refused, and where.
#[derive(Clone, Copy, PartialEq, Eq, Debug)]
pub struct Fault {
    /// The first cause there is.
    pub cause: Cause,
    /// Where it is, a number, as the venue has it, and no enum: for a leg its number as the tick tells it;
    /// for a touch 0 at the bid and at a bid that is not below its offer, 1 at the offer.
    pub place: u32,
}

//! Refusals of this layer, each with the number by which the venue knows it.
ghost use Rattle.std.specs.Prelude.{◌≡◌};
ghost use Rattle.market.specs.Refusal.{setup_number, range_number};

/// Why a market cannot be made as asked.
#[derive(Clone, Copy, PartialEq, Eq, Debug)]
pub enum SetupRefusal {
    /// A leg's ratio or a step is not 1 to 9.
    RatioOrStep = 9,
    /// A strategy has four legs at most.
    FifthLeg = 10,
}

impl SetupRefusal {
    /// The number by which the venue knows the refusal: 9 or 10.
    pub fn number(self) -> u8
        ensures { result ≡ setup_number self }
    {
        self as u8 // 9 or 10
    }
}

/// Why an order has no permitted range.
#[derive(Clone, Copy, PartialEq, Eq, Debug)]
pub enum RangeRefusal {
    /// The limit price is more than 40,000,000 cents either way.
    PriceOutsideLimits = 2,
    /// The market shows no bid or no offer.
    SideShowsNoPrice = 14,
    /// The lower of limit and contra price, both turned, is below the floor.
    InitiatingBelowFloor = 15,
}

impl RangeRefusal {
    /// The number by which the venue knows the refusal: 2, 14 or 15.
    pub fn number(self) -> u8
        ensures { result ≡ range_number self }
    {
        self as u8 // 2, 14 or 15
    }
}

// For what a call is refused.
ghost use Rattle.std.specs.Prelude.{◌≡◌};
ghost use Rattle.room.specs.declared.refusal.Refusal.TheVariants.{MarketFault};
ghost use Rattle.room.specs.Refusals.{refusal_number};

/// For what a call is refused, each with the number by which the venue knows it. F is the market's fault.
#[derive(Drop)]
pub enum Refusal<F> {
    /// 1: the time is past 4,000,000,000,000 milliseconds.
    TimeOverLimit,
    /// 2: a price is past 40,000,000 cents either way.
    PriceOutsideLimits,
    /// 3: the size is not 1 to 100,000 contracts.
    SizeOutsideLimits,
    /// 4: the member is not 1 to 16.
    MemberOutsideLimits,
    /// 5: the number that the member gives its response is not 1 to 4.
    OwnNumberOutsideLimits,
    /// 6: the list of rows is shorter than 129.
    ListTooShort,
    /// 12: the room is halted.
    RoomHalted,
    /// 13: an auction waits to be collected.
    AuctionWaits,
    /// 14: a side of the market shows no price.
    SideShowsNoPrice,
    /// 15: the initiating price is below the floor.
    InitiatingBelowFloor,
    /// 16: the guarantee is above the initiating price.
    GuaranteeAboveInitiating,
    /// 17: a million auctions were opened in the room.
    OpeningsUsedUp,
    /// 21: no auction is open.
    NoAuctionOpen,
    /// 22: the response is on the order's side.
    SameSide,
    /// 23: the price is above the initiating price, as the order's side has it.
    AboveInitiating,
    /// 24: the member has a response of this number standing.
    OwnNumberInUse,
    /// 25: the member has no response of this number standing.
    NoSuchResponse,
    /// 26: the response is plain.
    ResponseIsPlain,
    /// 27: 10,000 responses and changes of the member were accepted in the auction.
    ResponsesUsedUp,
    /// 31: the market refused the tick, for this fault.
    MarketFault(F),
    /// 41: the auction is still open.
    StillOpen,
    /// 42: the claim is to another room's auction, or its auction neither is open nor waits.
    NoSuchAuction,
}

// The market's fault, whole.
impl<F> From<F> for Refusal<F> {
    ghost from_gives = { λ e r. r ≡ MarketFault e };

    fn from(fault: F) -> Refusal<F> {
        Refusal::MarketFault(fault)
    }
}

impl<F> Refusal<F> {
    /// The refusal's number.
    // A match, since an enum with a variant that holds data has no numbers of its own.
    pub fn number(&self) -> u8
        ensures { result ≡ refusal_number self.now }
    {
        match self {
            Refusal::TimeOverLimit => 1,
            Refusal::PriceOutsideLimits => 2,
            Refusal::SizeOutsideLimits => 3,
            Refusal::MemberOutsideLimits => 4,
            Refusal::OwnNumberOutsideLimits => 5,
            Refusal::ListTooShort => 6,
            Refusal::RoomHalted => 12,
            Refusal::AuctionWaits => 13,
            Refusal::SideShowsNoPrice => 14,
            Refusal::InitiatingBelowFloor => 15,
            Refusal::GuaranteeAboveInitiating => 16,
            Refusal::OpeningsUsedUp => 17,
            Refusal::NoAuctionOpen => 21,
            Refusal::SameSide => 22,
            Refusal::AboveInitiating => 23,
            Refusal::OwnNumberInUse => 24,
            Refusal::NoSuchResponse => 25,
            Refusal::ResponseIsPlain => 26,
            Refusal::ResponsesUsedUp => 27,
            Refusal::MarketFault(_) => 31,
            Refusal::StillOpen => 41,
            Refusal::NoSuchAuction => 42,
        }
    }
}

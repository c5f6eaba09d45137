// The statements that are calls on the room. Each is read from behind its first word.
ghost use Rattle.std.specs.Prelude.{◌≡◌};
ghost use Rattle.script.specs.Readers.{with_rest, a_number};
ghost use Rattle.script.specs.declared.misread.Expected.TheVariants as expected;
ghost use Rattle.script.specs.Grammar.{tick_of, tick, open_auction, respond, change, withdraw, halt, resume, clock, collect};

use super::named::HalfName;
use crate::misread::{Expected, Misread};
use crate::statement::Statement;
use crate::words::Words;
use allocation::fill::LEAST_ROWS;
use allocation::order::{Guarantee, GuaranteeKind, PairedOrder};
use allocation::response::{Class, Kind};
use market::better_of::Half;
use market::cube::CubeTick;
use market::leg::{LegQuote, LegTick};
use market::quote::Quote;
use market::side::Side;
use room::answers::ClaimNumbers;
use room::requests::{ChangeRequest, OpeningRequest, ResponseRequest, WithdrawRequest};
use session::call::Call;

impl<'a> Words<'a> {
    fn time(&mut self) -> Result<u64, Misread>
        ensures { with_rest result self.new ≡ a_number 64 expected.Time self.old }
    {
        self.u64(Expected::Time)
    }

    fn tick_of(&mut self, half: HalfName) -> Result<CubeTick, Misread>
        ensures { with_rest result self.new ≡ tick_of half self.old }
    {
        match half {
            HalfName::Leg => {
                let leg = self.u32(Expected::Leg)?;
                let bid = self.price(Expected::Bid)?;
                let offer = self.price(Expected::Offer)?;
                let quote = LegQuote { bid, offer };
                Ok(Half::Right(LegTick { leg, quote }))
            }
            HalfName::Book => {
                let bid = self.book_price(Expected::BookBid)?;
                let offer = self.book_price(Expected::BookOffer)?;
                Ok(Half::Left(Quote { bid, offer }))
            }
        }
    }

    /// `tick TIME leg LEG BID OFFER`, `tick TIME book BID|none OFFER|none`
    #[tactic(auto, unfolding(crate::specs::Grammar::tick))]
    pub(crate) fn tick(&mut self) -> Result<Statement, Misread>
        ensures { with_rest result self.new ≡ tick self.old }
    {
        let time = self.time()?;
        let half: HalfName = self.one_of(Expected::Half)?;
        let tick = self.tick_of(half)?;
        Ok(Statement::Call(Call::Tick { time, tick }))
    }

    /// `open TIME MEMBER buy|sell SIZE @ LIMIT stop|match PRICE`
    #[tactic(auto, unfolding(crate::specs::Grammar::open_auction))]
    pub(crate) fn open_auction(&mut self) -> Result<Statement, Misread>
        ensures { with_rest result self.new ≡ open_auction self.old }
    {
        let time = self.time()?;
        let member = self.u8(Expected::Member)?;
        let side: Side = self.one_of(Expected::Side)?;
        let size = self.u32(Expected::Size)?;
        self.at()?;
        let limit = self.price(Expected::Limit)?;
        let kind: GuaranteeKind = self.one_of(Expected::Guarantee)?;
        let price = self.price(Expected::Price)?;
        let guarantee = Guarantee { kind, price };
        let order = PairedOrder {
            side,
            size,
            limit,
            guarantee,
        };
        Ok(Statement::Call(Call::Open(OpeningRequest {
            time,
            member,
            order,
        })))
    }

    /// `respond TIME MEMBER OWN buy|sell sealed|plain customer|other SIZE @ PRICE`
    #[tactic(auto, unfolding(crate::specs::Grammar::respond))]
    pub(crate) fn respond(&mut self) -> Result<Statement, Misread>
        ensures { with_rest result self.new ≡ respond self.old }
    {
        let time = self.time()?;
        let member = self.u8(Expected::Member)?;
        let own_number = self.u8(Expected::OwnNumber)?;
        let side: Side = self.one_of(Expected::Side)?;
        let kind: Kind = self.one_of(Expected::Kind)?;
        let class: Class = self.one_of(Expected::Class)?;
        let size = self.u32(Expected::Size)?;
        self.at()?;
        let price = self.price(Expected::Price)?;
        Ok(Statement::Call(Call::Respond(ResponseRequest {
            time,
            member,
            own_number,
            side,
            kind,
            class,
            size,
            price,
        })))
    }

    /// `change TIME MEMBER OWN SIZE @ PRICE`
    #[tactic(auto, unfolding(crate::specs::Grammar::change))]
    pub(crate) fn change(&mut self) -> Result<Statement, Misread>
        ensures { with_rest result self.new ≡ change self.old }
    {
        let time = self.time()?;
        let member = self.u8(Expected::Member)?;
        let own_number = self.u8(Expected::OwnNumber)?;
        let size = self.u32(Expected::Size)?;
        self.at()?;
        let price = self.price(Expected::Price)?;
        Ok(Statement::Call(Call::Change(ChangeRequest {
            time,
            member,
            own_number,
            size,
            price,
        })))
    }

    /// `withdraw TIME MEMBER OWN`
    #[tactic(auto, unfolding(crate::specs::Grammar::withdraw))]
    pub(crate) fn withdraw(&mut self) -> Result<Statement, Misread>
        ensures { with_rest result self.new ≡ withdraw self.old }
    {
        let time = self.time()?;
        let member = self.u8(Expected::Member)?;
        let own_number = self.u8(Expected::OwnNumber)?;
        Ok(Statement::Call(Call::Withdraw(WithdrawRequest {
            time,
            member,
            own_number,
        })))
    }

    /// `halt TIME`
    #[tactic(auto, unfolding(crate::specs::Grammar::halt))]
    pub(crate) fn halt(&mut self) -> Result<Statement, Misread>
        ensures { with_rest result self.new ≡ halt self.old }
    {
        let time = self.time()?;
        Ok(Statement::Call(Call::Halt { time }))
    }

    /// `resume TIME`
    #[tactic(auto, unfolding(crate::specs::Grammar::resume))]
    pub(crate) fn resume(&mut self) -> Result<Statement, Misread>
        ensures { with_rest result self.new ≡ resume self.old }
    {
        let time = self.time()?;
        Ok(Statement::Call(Call::Resume { time }))
    }

    /// `clock TIME`
    #[tactic(auto, unfolding(crate::specs::Grammar::clock))]
    pub(crate) fn clock(&mut self) -> Result<Statement, Misread>
        ensures { with_rest result self.new ≡ clock self.old }
    {
        let time = self.time()?;
        Ok(Statement::Call(Call::Clock { time }))
    }

    /// `collect AUCTION`, `collect AUCTION ROWS`. The claim is one of the script's room, which has this
    /// number.
    #[tactic(auto, unfolding(crate::specs::Grammar::collect))]
    pub(crate) fn collect(&mut self, room: u32) -> Result<Statement, Misread>
        ensures { with_rest result self.new ≡ collect room self.old }
    {
        let auction = self.u32(Expected::Auction)?;
        let rows = self.optional_u64(Expected::Rows, LEAST_ROWS as u64)?;
        Ok(Statement::Call(Call::Collect {
            claim: ClaimNumbers { room, auction },
            rows: rows as usize,
        }))
    }
}

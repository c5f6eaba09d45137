// Responding to the open auction, changing a response and withdrawing one.
ghost use Rattle.room.specs.Calls.{answer_told, Gives};
ghost use Rattle.room.specs.Responses.{respond_call, change_call, withdraw_call};

use crate::Room;
use crate::answers::StoredTerms;
use crate::refusal::Refusal;
use crate::requests::{ChangeRequest, ResponseRequest, WithdrawRequest};
use allocation::cause::EndCause;
use allocation::ranking::Ranking;
use allocation::response::Kind;
use interval::source::IntervalSource;
use market::Market;

impl<M: Market, R: Ranking, S: IntervalSource> Room<M, R, S> {
    /// Stores a response in the open auction, and answers its terms as they are stored; a plain one priced
    /// below the floor then ends the auction for E. Refusals: 1 to 5, 21 to 24, 27.
    pub fn respond(&mut self, request: ResponseRequest) -> Result<StoredTerms, Refusal<M::Fault>>
        ensures { Gives M.Market R.Ranking S.IntervalSource self.old self.new (answer_told M.Market result)
            (λ w s. respond_call s request) }
    {
        let response = request.checked()?;
        self.step_clock(response.time);
        // With `as_mut().ok_or_else(..)?` goals stayed open: what a refused call leaves was lost.
        let Some(open) = &mut self.current else {
            return Err(Refusal::NoAuctionOpen);
        };
        open.check_response(&response)?;
        let ends = open.is_plain_below_floor(&response);
        let stored = open.store(&response);
        if ends {
            self.end(EndCause::PlainBelowFloor);
        }
        Ok(stored)
    }

    /// Gives a sealed response that stands a new price and size, and answers these as they are stored.
    /// Refusals: 1 to 5, 21, 23, 25 to 27.
    pub fn change(&mut self, request: ChangeRequest) -> Result<StoredTerms, Refusal<M::Fault>>
        ensures { Gives M.Market R.Ranking S.IntervalSource self.old self.new (answer_told M.Market result)
            (λ w s. change_call s request) }
    {
        let change = request.checked()?;
        self.step_clock(change.time);
        // With `as_mut().ok_or_else(..)?` goals stayed open: what a refused call leaves was lost.
        let Some(open) = &mut self.current else {
            return Err(Refusal::NoAuctionOpen);
        };
        let standing = open.standing(change.of)?;
        open.check_change(&standing, &change)?;
        Ok(open.change(&change))
    }

    /// Removes a sealed response that stands, and answers its terms as they were stored. Refusals: 1, 4, 5,
    /// 21, 25, 26.
    pub fn withdraw(&mut self, request: WithdrawRequest) -> Result<StoredTerms, Refusal<M::Fault>>
        ensures { Gives M.Market R.Ranking S.IntervalSource self.old self.new (answer_told M.Market result)
            (λ w s. withdraw_call s request) }
    {
        let withdrawal = request.checked()?;
        self.step_clock(withdrawal.time);
        // With `as_mut().ok_or_else(..)?` goals stayed open: what a refused call leaves was lost.
        let Some(open) = &mut self.current else {
            return Err(Refusal::NoAuctionOpen);
        };
        let standing = open.standing(withdrawal.of)?;
        if standing.kind == Kind::Plain {
            return Err(Refusal::ResponseIsPlain);
        }
        Ok(open.withdraw(&withdrawal, &standing))
    }
}

// What the open auction does with responses, changes and withdrawals that have passed their checks: which it
// refuses, and how it stores, changes and removes, with the counts of arrivals and of each member.
ghost use Rattle.std.specs.Prelude.{◌≡◌, ◌+◌, true, false, Some, int_lt, nat_le};
ghost use Rattle.std.specs.Result.{result_err};
ghost use Rattle.market.specs.Market.{told_by};
ghost use Rattle.market.specs.Limits.{showable};
ghost use Rattle.room.specs.Checked.{response_id, response_request, change_request, withdrawal_request};
ghost use Rattle.room.specs.Refusals.{refusal_number, HoldsNoFault};
ghost use Rattle.room.specs.Responses.{turned_in, standing_now, response_refusal, change_refusal, plain_below_floor, response_named, stored_price, stored_size, stored_terms, terms_told, with_counted, with_response, with_change, with_withdrawal};
ghost use Rattle.room.specs.Rooms.{open_values};
ghost use Rattle.room.specs.State.{used_by};
ghost use Rattle.room.specs.Storing.{next_terms, TermsPass, ResponsePasses, ChangePasses};

use crate::answers::StoredTerms;
use crate::checked::{CheckedChange, CheckedId, CheckedResponse, CheckedWithdrawal};
use crate::limits::{Member, Price, Size};
use crate::open_auction::OpenAuction;
use crate::refusal::Refusal;
use allocation::response::{Kind, NewTerms, Response};

// A member's 10,000 accepted responses and changes in an auction.
const MOST_USED: u32 = 10_000;

impl OpenAuction {
    // A price that was handed in, turned as the order's side asks.
    pub(crate) fn turned(&self, price: Price) -> i64
        ensures { result ≡ turned_in (open_values self.now) price.cents }
    {
        price.turned(self.auction.order().side)
    }

    fn used_by(&self, member: Member) -> u32
        ensures { result ≡ used_by member.number self.now.used }
    {
        self.used[member.index()]
    }

    fn is_above(&self, price: Price) -> bool
        ensures { result
            ≡ int_lt (open_values self.now).values.initiating
            (turned_in (open_values self.now) price.cents) }
    {
        self.auction.initiating() < self.turned(price)
    }

    // The response of this member with this own number, if it stands, or refusal 25.
    pub(crate) fn standing<F>(&self, of: CheckedId) -> Result<Response, Refusal<F>>
        ensures answer { told_by refusal_number result
            ≡ standing_now (response_named (open_values self.now) (response_id of)) }
        ensures no_fault { HoldsNoFault result }
    {
        // No `ok_or`, which would have to drop a refusal, and so a market's fault.
        self.auction
            .response_of(of.id())
            .ok_or_else(|| Refusal::NoSuchResponse)
    }

    // The first refusal that a response earns by the state: 22, 23, 24, 27.
    pub(crate) fn check_response<F>(&self, response: &CheckedResponse) -> Result<(), Refusal<F>>
        ensures answer { result_err (told_by refusal_number result)
            ≡ response_refusal (open_values self.now) (response_request response.now) }
        ensures no_fault { HoldsNoFault result }
    {
        if response.side == self.auction.order().side {
            return Err(Refusal::SameSide);
        }
        if self.is_above(response.price) {
            return Err(Refusal::AboveInitiating);
        }
        if self.auction.response_of(response.of.id()).is_some() {
            return Err(Refusal::OwnNumberInUse);
        }
        if self.used_by(response.of.member) >= MOST_USED {
            return Err(Refusal::ResponsesUsedUp);
        }
        Ok(())
    }

    // The first refusal that a change of a standing response earns: 26, 23, 27.
    pub(crate) fn check_change<F>(
        &self,
        standing: &Response,
        change: &CheckedChange,
    ) -> Result<(), Refusal<F>>
        ensures answer { result_err (told_by refusal_number result)
            ≡ change_refusal (open_values self.now) standing.now (change_request change.now) }
        ensures no_fault { HoldsNoFault result }
    {
        if standing.kind == Kind::Plain {
            return Err(Refusal::ResponseIsPlain);
        }
        if self.is_above(change.price) {
            return Err(Refusal::AboveInitiating);
        }
        if self.used_by(change.of.member) >= MOST_USED {
            return Err(Refusal::ResponsesUsedUp);
        }
        Ok(())
    }

    pub(crate) fn is_plain_below_floor(&self, response: &CheckedResponse) -> bool
        ensures { result ≡ plain_below_floor (open_values self.now) (response_request response.now) }
    {
        response.kind == Kind::Plain && self.turned(response.price) < self.auction.floor()
    }
}

impl OpenAuction {
    // The higher of a price and the floor, turned.
    fn stored_price(&self, price: Price) -> i64
        ensures { result ≡ stored_price (open_values self.now) price.cents }
    {
        self.auction.floor().max(self.turned(price))
    }

    // A size, capped at the order's.
    fn stored_size(&self, size: Size) -> u32
        ensures { result ≡ stored_size (open_values self.now) size.contracts }
    {
        size.contracts.min(self.auction.order().size)
    }

    // What is told of a stored price and size: the price is turned back.
    fn told(&self, price: i64, size: u32) -> StoredTerms
        requires { showable (Some price) ≡ true }
        ensures { result ≡ terms_told (open_values self.now) price size }
    {
        StoredTerms {
            price: self.auction.order().side.turn(price),
            size,
        }
    }
}

impl OpenAuction {
    // Counts one more response or change of this member, and gives it its arrival number.
    #[tactic(auto, using(crate::proofs::Counting::total_most))]
    fn count(&mut self, member: Member) -> u32
        requires { nat_le 10000 (used_by member.number self.old.used) ≡ false }
        ensures counted { open_values self.new
            ≡ with_counted (open_values self.old) member.number (open_values self.old).values.stood }
        ensures arrival { result ≡ self.old.arrivals + 1 }
    {
        self.used[member.index()] += 1;
        self.arrivals += 1;
        self.arrivals
    }

    // The terms of one more response or change of this member, which is counted: as told, and as stored.
    fn next_terms(&mut self, member: Member, price: Price, size: Size) -> (StoredTerms, NewTerms)
        requires { TermsPass (open_values self.old) member.number price.cents }
        ensures counted { open_values self.new
            ≡ with_counted (open_values self.old) member.number (open_values self.old).values.stood }
        ensures told { result.0 ≡ stored_terms (open_values self.old) price.cents size.contracts }
        ensures stored { result.1 ≡ next_terms (open_values self.old) price.cents size.contracts }
    {
        let price = self.stored_price(price);
        let size = self.stored_size(size);
        let told = self.told(price, size);
        let arrival = self.count(member);
        let terms = NewTerms {
            size,
            price,
            arrival,
        };
        (told, terms)
    }

    // Stores a response behind the others.
    pub(crate) fn store(&mut self, response: &CheckedResponse) -> StoredTerms
        requires { ResponsePasses (open_values self.old) (response_request response.now) }
        ensures after { open_values self.new ≡ with_response (open_values self.old) (response_request response.now) }
        ensures answer { result ≡ stored_terms (open_values self.old) response.now.price.cents response.now.size.contracts }
    {
        let (told, terms) = self.next_terms(response.of.member, response.price, response.size);
        self.auction.store(Response {
            member: response.of.member.number,
            own_number: response.of.own_number.number,
            kind: response.kind,
            class: response.class,
            size: terms.size,
            price: terms.price,
            arrival: terms.arrival,
        });
        told
    }

    // Changes the standing response of this member with this own number, and no other.
    pub(crate) fn change(&mut self, change: &CheckedChange) -> StoredTerms
        requires { ChangePasses (open_values self.old) (change_request change.now) }
        ensures after { open_values self.new ≡ with_change (open_values self.old) (change_request change.now) }
        ensures answer { result ≡ stored_terms (open_values self.old) change.now.price.cents change.now.size.contracts }
    {
        let (told, terms) = self.next_terms(change.of.member, change.price, change.size);
        self.auction.change(change.of.id(), terms);
        told
    }

    // Removes the standing response of this member with this own number, and answers what was stored.
    pub(crate) fn withdraw(
        &mut self,
        withdrawal: &CheckedWithdrawal,
        standing: &Response,
    ) -> StoredTerms
        requires { response_named (open_values self.old) (response_id withdrawal.now.of) ≡ Some standing.now }
        ensures after { open_values self.new ≡ with_withdrawal (open_values self.old) (withdrawal_request withdrawal.now) }
        ensures answer { result ≡ terms_told (open_values self.old) standing.now.price standing.now.size }
    {
        let told = self.told(standing.price, standing.size);
        self.auction.withdraw(withdrawal.of.id());
        told
    }
}

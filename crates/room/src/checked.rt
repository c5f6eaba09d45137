// What members hand in, with every part within its limits. In each of these the parts are checked in the
// order in which they are listed, and the first that fails is told.
ghost use Rattle.std.specs.Prelude.{◌≡◌, Ok, None as Nothing};
ghost use Rattle.std.specs.Result.{result_map_both};
ghost use Rattle.room.specs.Checked.{opening_request, response_id, response_request, change_request, withdrawal_request};
ghost use Rattle.room.specs.Checks.{open_checks, respond_checks, change_checks, withdraw_checks, member_checked, own_checked};
ghost use Rattle.room.specs.Refusals.{refusal_number, unless, HoldsNoFault};

use crate::limits::{Member, OwnNumber, Price, Size, Time};
use crate::refusal::Refusal;
use crate::requests::{ChangeRequest, OpeningRequest, ResponseRequest, WithdrawRequest};
use allocation::order::GuaranteeKind;
use allocation::response::{Class, Kind, ResponseId};
use market::side::Side;

#[derive(Clone, Copy)]
pub(crate) struct CheckedGuarantee {
    pub(crate) kind: GuaranteeKind,
    pub(crate) price: Price,
}

#[derive(Clone, Copy)]
pub(crate) struct CheckedOrder {
    pub(crate) side: Side,
    pub(crate) limit: Price,
    pub(crate) guarantee: CheckedGuarantee,
    pub(crate) size: Size,
}

#[derive(Clone, Copy)]
pub(crate) struct CheckedOpening {
    pub(crate) time: Time,
    pub(crate) order: CheckedOrder,
    pub(crate) member: Member,
}

// A member, and its own number of one of its responses.
#[derive(Clone, Copy)]
pub(crate) struct CheckedId {
    pub(crate) member: Member,
    pub(crate) own_number: OwnNumber,
}

#[derive(Clone, Copy)]
pub(crate) struct CheckedResponse {
    pub(crate) time: Time,
    pub(crate) price: Price,
    pub(crate) size: Size,
    pub(crate) of: CheckedId,
    pub(crate) side: Side,
    pub(crate) kind: Kind,
    pub(crate) class: Class,
}

#[derive(Clone, Copy)]
pub(crate) struct CheckedChange {
    pub(crate) time: Time,
    pub(crate) price: Price,
    pub(crate) size: Size,
    pub(crate) of: CheckedId,
}

#[derive(Clone, Copy)]
pub(crate) struct CheckedWithdrawal {
    pub(crate) time: Time,
    pub(crate) of: CheckedId,
}

impl OpeningRequest {
    pub(crate) fn checked<F>(&self) -> Result<CheckedOpening, Refusal<F>>
        ensures answer { result_map_both opening_request refusal_number result
            ≡ unless (open_checks self.now) (Ok self.now) }
        ensures no_fault { HoldsNoFault result }
    {
        Ok(CheckedOpening {
            time: Time::checked(self.time)?,
            order: CheckedOrder {
                side: self.order.side,
                limit: Price::checked(self.order.limit)?,
                guarantee: CheckedGuarantee {
                    kind: self.order.guarantee.kind,
                    price: Price::checked(self.order.guarantee.price)?,
                },
                size: Size::checked(self.order.size)?,
            },
            member: Member::checked(self.member)?,
        })
    }
}

impl CheckedId {
    fn checked<F>(member: u8, own_number: u8) -> Result<CheckedId, Refusal<F>>
        ensures answer { result_map_both response_id refusal_number result
            ≡ unless (member_checked member (own_checked own_number Nothing))
            (Ok (record { member = member; own_number = own_number })) }
        ensures no_fault { HoldsNoFault result }
    {
        Ok(CheckedId {
            member: Member::checked(member)?,
            own_number: OwnNumber::checked(own_number)?,
        })
    }

    // Which response of which member this is.
    pub(crate) fn id(self) -> ResponseId
        ensures { result ≡ record { member = self.member.number; own_number = self.own_number.number } }
    {
        ResponseId {
            member: self.member.number,
            own_number: self.own_number.number,
        }
    }
}

// A response has five checks in common with a change. Each makes them of its own request: the two are records
// of their own that members hand in, and sharing the checks would first copy five fields from one into the
// other.
impl ResponseRequest {
    pub(crate) fn checked<F>(&self) -> Result<CheckedResponse, Refusal<F>>
        ensures answer { result_map_both response_request refusal_number result
            ≡ unless (respond_checks self.now) (Ok self.now) }
        ensures no_fault { HoldsNoFault result }
    {
        Ok(CheckedResponse {
            time: Time::checked(self.time)?,
            price: Price::checked(self.price)?,
            size: Size::checked(self.size)?,
            of: CheckedId::checked(self.member, self.own_number)?,
            side: self.side,
            kind: self.kind,
            class: self.class,
        })
    }
}

impl ChangeRequest {
    pub(crate) fn checked<F>(&self) -> Result<CheckedChange, Refusal<F>>
        ensures answer { result_map_both change_request refusal_number result
            ≡ unless (change_checks self.now) (Ok self.now) }
        ensures no_fault { HoldsNoFault result }
    {
        Ok(CheckedChange {
            time: Time::checked(self.time)?,
            price: Price::checked(self.price)?,
            size: Size::checked(self.size)?,
            of: CheckedId::checked(self.member, self.own_number)?,
        })
    }
}

impl WithdrawRequest {
    pub(crate) fn checked<F>(&self) -> Result<CheckedWithdrawal, Refusal<F>>
        ensures answer { result_map_both withdrawal_request refusal_number result
            ≡ unless (withdraw_checks self.now) (Ok self.now) }
        ensures no_fault { HoldsNoFault result }
    {
        Ok(CheckedWithdrawal {
            time: Time::checked(self.time)?,
            of: CheckedId::checked(self.member, self.own_number)?,
        })
    }
}

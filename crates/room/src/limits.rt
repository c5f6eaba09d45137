// What is handed in, once it is known to be within its limits: each of these is made by its check alone. They
// are no one type with bounds as const parameters: their numbers are of four types (u64, i64, u32, u8), and
// each has a refusal of its own.
ghost use Rattle.std.specs.Prelude.{◌≡◌, ◌-◌, ◌<◌, ◌≤◌, true, Ok, Some, None as Nothing};
ghost use Rattle.std.specs.Result.{result_map_both};
ghost use Rattle.allocation.specs.AuctionInvariant.{from_to};
ghost use Rattle.market.specs.Limits.{in_limits};
ghost use Rattle.market.specs.Side.{turned_price};
ghost use Rattle.room.specs.Checks.{time_checked, price_checked, size_checked, member_checked, own_checked};
ghost use Rattle.room.specs.Refusals.{refusal_number, unless, HoldsNoFault};

use crate::refusal::Refusal;
use allocation::limits::{is_member, is_own_number, is_size};
use market::limits::in_limits;
use market::side::Side;

const LAST_TIME: u64 = 4_000_000_000_000;

#[derive(Clone, Copy)]
pub(crate) struct Time {
    pub(crate) milliseconds: u64,
    ghost in_limits: { milliseconds ≤ 4000000000000 },
}

#[derive(Clone, Copy)]
pub(crate) struct Price {
    pub(crate) cents: i64,
    ghost in_limits: { in_limits (Some cents) ≡ true },
}

#[derive(Clone, Copy)]
pub(crate) struct Size {
    pub(crate) contracts: u32,
    ghost in_limits: { from_to 1 100000 contracts ≡ true },
}

#[derive(Clone, Copy)]
pub(crate) struct Member {
    pub(crate) number: u8,
    ghost in_limits: { from_to 1 16 number ≡ true },
}

#[derive(Clone, Copy)]
pub(crate) struct OwnNumber {
    pub(crate) number: u8,
    ghost in_limits: { from_to 1 4 number ≡ true },
}

impl Time {
    pub(crate) fn checked<F>(milliseconds: u64) -> Result<Time, Refusal<F>>
        ensures answer { result_map_both (λ x. x.milliseconds) refusal_number result
            ≡ unless (time_checked milliseconds Nothing) (Ok milliseconds) }
        ensures no_fault { HoldsNoFault result }
    {
        if milliseconds > LAST_TIME {
            return Err(Refusal::TimeOverLimit);
        }
        Ok(Time { milliseconds })
    }
}

impl Price {
    pub(crate) fn checked<F>(cents: i64) -> Result<Price, Refusal<F>>
        ensures answer { result_map_both (λ x. x.cents) refusal_number result
            ≡ unless (price_checked cents Nothing) (Ok cents) }
        ensures no_fault { HoldsNoFault result }
    {
        if !in_limits(cents) {
            return Err(Refusal::PriceOutsideLimits);
        }
        Ok(Price { cents })
    }

    // The price itself for a buy, with its sign changed for a sell.
    pub(crate) fn turned(self, side: Side) -> i64
        ensures { result ≡ turned_price side self.cents }
    {
        side.turn(self.cents)
    }
}

impl Size {
    pub(crate) fn checked<F>(contracts: u32) -> Result<Size, Refusal<F>>
        ensures answer { result_map_both (λ x. x.contracts) refusal_number result
            ≡ unless (size_checked contracts Nothing) (Ok contracts) }
        ensures no_fault { HoldsNoFault result }
    {
        if !is_size(contracts) {
            return Err(Refusal::SizeOutsideLimits);
        }
        Ok(Size { contracts })
    }
}

impl Member {
    pub(crate) fn checked<F>(number: u8) -> Result<Member, Refusal<F>>
        ensures answer { result_map_both (λ x. x.number) refusal_number result
            ≡ unless (member_checked number Nothing) (Ok number) }
        ensures no_fault { HoldsNoFault result }
    {
        if !is_member(number) {
            return Err(Refusal::MemberOutsideLimits);
        }
        Ok(Member { number })
    }

    // The member's index in a list of all.
    pub(crate) fn index(self) -> usize
        ensures index { result ≡ self.number - 1 }
        ensures within { result < 16 }
    {
        usize::from(self.number - 1)
    }
}

impl OwnNumber {
    pub(crate) fn checked<F>(number: u8) -> Result<OwnNumber, Refusal<F>>
        ensures answer { result_map_both (λ x. x.number) refusal_number result
            ≡ unless (own_checked number Nothing) (Ok number) }
        ensures no_fault { HoldsNoFault result }
    {
        if !is_own_number(number) {
            return Err(Refusal::OwnNumberOutsideLimits);
        }
        Ok(OwnNumber { number })
    }
}

// Every refusal number, cause letter and fault cause, each with its meaning.
ghost use Rattle.std.specs.Prelude.{◌≡◌, true, is_some};
ghost use Rattle.script.specs.Explain.{is_refusal_number};
ghost use Rattle.interval.specs.declared.refusal.IntervalRefusal.{IntervalRefusal};
ghost use Rattle.interval.specs.Refusal.{interval_refusal_number};
ghost use Rattle.market.specs.declared.better_of.Half.{Half};
ghost use Rattle.market.specs.declared.fault.Fault.{Fault};
ghost use Rattle.market.specs.declared.refusal.RangeRefusal.{RangeRefusal};
ghost use Rattle.market.specs.declared.refusal.SetupRefusal.{SetupRefusal};
ghost use Rattle.market.specs.Refusal.{setup_number, range_number};
ghost use Rattle.room.specs.declared.refusal.Refusal.{Refusal};
ghost use Rattle.room.specs.Refusals.{refusal_number};

use allocation::cause::EndCause;
use market::fault::Cause;
use std::fmt;

/// What a refusal's number means, if a script can be answered it.
pub fn refusal_meaning(number: u8) -> Option<&'static str>
    ensures those { is_some result ≡ is_refusal_number number }
    ensures of_rooms { (e : Refusal (Half Fault Fault)) → number ≡ refusal_number e → is_some result ≡ true }
    ensures of_ranges { (e : RangeRefusal) → number ≡ range_number e → is_some result ≡ true }
    ensures of_legs { (e : SetupRefusal) → number ≡ setup_number e → is_some result ≡ true }
    ensures of_intervals { (e : IntervalRefusal) → number ≡ interval_refusal_number e → is_some result
        ≡ true }
{
    match number {
        1 => Some("the time is over 4,000,000,000,000"),
        2 => Some("a limit, guarantee or response price is outside -40,000,000 to 40,000,000"),
        3 => Some("the size is outside 1 to 100,000"),
        4 => Some("the member is outside 1 to 16"),
        5 => Some("the own number is outside 1 to 4"),
        6 => Some("the list has under 129 rows"),
        8 => Some("the fixed interval is outside 100 to 1,000 milliseconds"),
        9 => Some("the ratio is outside 1 to 9"),
        10 => Some("there are four legs already"),
        12 => Some("the room is halted"),
        13 => Some("an auction waits to be collected"),
        14 => Some("a side of the market shows no price"),
        15 => Some("the initiating price is below the floor"),
        16 => Some("the guarantee is above the initiating price"),
        17 => Some("a million auctions were opened"),
        21 => Some("no auction is open"),
        22 => Some("the response is on the order's side"),
        23 => Some("the price is above the initiating price"),
        24 => Some("the member has a response of this own number"),
        25 => Some("no such response stands"),
        26 => Some("the response is plain"),
        27 => Some("the member's 10,000 responses and changes are used"),
        31 => Some("the market refuses the quote; the fault's cause and place follow"),
        41 => Some("the auction is still open"),
        42 => Some("the claim is of another room, or there is no such auction"),
        _ => None,
    }
}

const EVERY_CAUSE: [EndCause; 8] = [
    EndCause::NextAuction,
    EndCause::FloorAboveInitiating,
    EndCause::FloorAboveResponse,
    EndCause::FloorAboveStop,
    EndCause::PlainBelowFloor,
    EndCause::ContraBelowGuarantee,
    EndCause::Halt,
    EndCause::Deadline,
];

const EVERY_FAULT: [Cause; 3] = [
    Cause::NoSuchLeg,
    Cause::BeyondLimit,
    Cause::BidNotBelowOffer,
];

// Why an auction ended.
fn cause_meaning(cause: EndCause) -> &'static str {
    match cause {
        EndCause::NextAuction => "another auction was opened",
        EndCause::FloorAboveInitiating => "the floor rose above the initiating price",
        EndCause::FloorAboveResponse => "the floor rose above a response that stands",
        EndCause::FloorAboveStop => "the floor rose above a single stop",
        EndCause::PlainBelowFloor => "a plain response was priced below the floor",
        EndCause::ContraBelowGuarantee => "the contra price fell below the guarantee",
        EndCause::Halt => "the room was halted",
        EndCause::Deadline => "the deadline was reached",
    }
}

// Why a half of the market refuses a quote, and what the fault's place is.
fn fault_meaning(cause: Cause) -> &'static str {
    match cause {
        Cause::NoSuchLeg => "there is no such leg; the place is the number that was given",
        Cause::BeyondLimit => {
            "a price is beyond the limit; the place is the leg's number, in the book 0 for the bid and 1 for the offer"
        }
        Cause::BidNotBelowOffer => {
            "the bid is not below the offer; the place is the leg's number, in the book 0"
        }
    }
}

/// The table of all of them, one a line.
#[derive(Clone, Copy)]
pub struct Explanation;

impl Explanation {
    fn write_refusals<W: fmt::Write>(f: &mut fmt::Formatter<W>) -> fmt::Result {
        for number in 0..=u8::MAX {
            if let Some(meaning) = refusal_meaning(number) {
                writeln!(f, "refused {number}: {meaning}")?;
            }
        }
        Ok(())
    }

    fn write_causes<W: fmt::Write>(f: &mut fmt::Formatter<W>) -> fmt::Result {
        for cause in EVERY_CAUSE {
            let letter = cause.letter();
            let meaning = cause_meaning(cause);
            writeln!(f, "auction ended, cause {letter}: {meaning}")?;
        }
        Ok(())
    }

    fn write_faults<W: fmt::Write>(f: &mut fmt::Formatter<W>) -> fmt::Result {
        for cause in EVERY_FAULT {
            let number = cause.number();
            let meaning = fault_meaning(cause);
            writeln!(f, "refused 31, cause {number}: {meaning}")?;
        }
        Ok(())
    }
}

impl fmt::Display for Explanation {
    fn fmt<W: fmt::Write>(&self, f: &mut fmt::Formatter<W>) -> fmt::Result {
        Explanation::write_refusals(f)?;
        Explanation::write_causes(f)?;
        Explanation::write_faults(f)
    }
}

//! Markets: what a complex strategy's market shows, how it takes a quote, and which prices it permits an
//! order.
#![tactic(auto)]

ghost use Rattle.std.specs.Prelude.{◌≡◌};
ghost use Rattle.market.specs.Market.{Meaning, Bounded, RefusedLeaves, Apart, told_by};

use crate::quote::Quote;

pub mod better_of;
pub mod cube;
pub mod fault;
pub mod improve;
pub mod leg;
pub mod legs;
pub mod limits;
pub mod quote;
pub mod range;
pub mod refusal;
pub mod side;
pub mod touch;

/// A market: what it shows when asked, and how it takes a tick, its own kind of message.
pub trait Market {
    /// A message to the market, such as a quote of its book or of one of its legs.
    type Tick;

    /// Why the market refuses a tick, and where.
    type Fault;

    // The market's whole state as a value.
    ghost Position: { Type 0 };

    ghost position: { Self → Position };

    // What is told of a fault.
    ghost Told: { Type 0 };

    ghost told: { Self.Fault → Told };

    // What a position shows, how it answers a tick, and which position follows.
    ghost meaning: { Meaning Position Self.Tick Told };

    /// The bid and the offer that the market shows now. Asking changes nothing.
    fn shown(&self) -> Quote
        ensures answer { result ≡ meaning.shows (position self.now) }
        ensures leaves { position self.exit.now ≡ position self.entry.now };

    /// Takes a tick, or refuses it with a fault and stays as it was.
    fn tick(&mut self, tick: Self::Tick) -> Result<(), Self::Fault>
        ensures answer { told_by told result ≡ meaning.answer (position self.old) tick }
        ensures next { position self.new ≡ meaning.next (position self.old) tick };

    // A shown price is at most 50,000,000 cents either way.
    ghost bounded: { (s : Self) → Bounded (meaning.shows (position s)) };

    // A refused tick leaves the position.
    ghost refused: { RefusedLeaves meaning };

    // All that a fault holds is told: faults of which the same is told are the same.
    ghost told_apart: { Apart told };
}

//! A market improved by a step: its bid is a step higher and its offer a step lower.
ghost use Rattle.std.specs.Prelude.{◌≡◌, ◌≤◌, true, ◌+ℤ◌, unsigned_abs};
ghost use Rattle.std.specs.Option.{option_map};
ghost use Rattle.market.specs.Limits.{showable, nearest_showable};

use crate::Market;
use crate::limits::{MOST_SHOWN, one_to_nine};
use crate::quote::Quote;
use crate::refusal::SetupRefusal;

/// A market that bids a step higher and offers a step lower than another, which is inside it.
#[derive(Drop)]
pub struct Improve<M> {
    pub(crate) inner: M,
    pub(crate) step: u8,
    ghost least: { 1 ≤ step },
    ghost most: { step ≤ 9 },
}

// A price moved by so many cents, as far as a market shows prices.
fn move_price(price: Option<i64>, by: i64) -> Option<i64>
    requires price { showable price ≡ true }
    requires by { unsigned_abs by ≤ 9 }
    ensures { result ≡ option_map (λ z. nearest_showable (z +ℤ by)) price }
{
    price.map(|z| (z + by).clamp(-MOST_SHOWN, MOST_SHOWN))
}

impl<M> Improve<M> {
    ghost use Rattle.market.specs.Improve.{new_improve, improve_parts};

    /// Improves a market by a step of 1 to 9 cents. Another step is refused, and the refusal hands the
    /// market back.
    pub fn new(market: M, step: u8) -> Result<Improve<M>, (SetupRefusal, M)>
        ensures { improve_parts result ≡ new_improve market step }
    {
        if !one_to_nine(step) {
            return Err((SetupRefusal::RatioOrStep, market));
        }
        Ok(Improve {
            inner: market,
            step,
        })
    }

    /// The market that is improved.
    pub fn inner(&self) -> &M
        ensures { result.now ≡ self.now.inner }
    {
        &self.inner
    }

    /// By how many cents.
    pub fn step(&self) -> u8
        ensures { result ≡ self.now.step }
    {
        self.step // in cents
    }
}

// Ticks and faults pass through.
impl<M: Market> Market for Improve<M> {
    ghost use Rattle.std.specs.Prelude.{ℕ};
    ghost use Rattle.std.proofs.Common.{rules, arith};
    ghost use Rattle.market.specs.Improve.{improved_quote, improve_meaning};
    ghost use Rattle.market.specs.Market.{Bounded, told_by};

    type Tick = M::Tick;

    type Fault = M::Fault;

    ghost Position = { M.Market.Position × ℕ };

    ghost position = { λ s. (M.Market.position s.inner, s.step) };

    ghost Told = { M.Market.Told };

    ghost told = { M.Market.told };

    ghost meaning = { improve_meaning M.Market.meaning };

    ghost bounded = { Prim.search rules };

    ghost refused = { Prim.search rules };

    ghost told_apart = { M.Market.told_apart };

    fn shown(&self) -> Quote
        ensures answer { result
            ≡ improved_quote self.now.step (M.Market.meaning.shows (M.Market.position self.now.inner)) }
        ensures leaves { self.exit.now ≡ self.entry.now }
    {
        let inner = self.inner.shown();
        let step = i64::from(self.step);
        Quote {
            bid: move_price(inner.bid, step),
            offer: move_price(inner.offer, -step),
        }
    }

    fn tick(&mut self, tick: M::Tick) -> Result<(), M::Fault>
        ensures answer { told_by M.Market.told result
            ≡ M.Market.meaning.answer (M.Market.position self.old.inner) tick }
        ensures next { M.Market.position self.new.inner
            ≡ M.Market.meaning.next (M.Market.position self.old.inner) tick }
        ensures step { self.new.step ≡ self.old.step }
    {
        self.inner.tick(tick)
    }
}

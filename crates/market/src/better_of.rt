//! The better of two markets, which are its halves: the higher bid and the lower offer. A tick is for one
//! half.
ghost use Rattle.std.specs.Prelude.{◌≡◌};
ghost use Rattle.std.proofs.Common.{rules};
ghost use Rattle.market.specs.BetterOf.{higher_bid, lower_offer, better_quote, half_told, half_answer, half_next, better_of_meaning};
ghost use Rattle.market.specs.BetterOfLaws.{refused_halves_stay, halves_apart};
ghost use Rattle.market.specs.Market.{told_by};
ghost use Rattle.market.specs.declared.better_of.Half.{Half};
ghost use Rattle.market.specs.declared.better_of.Half.TheVariants.{Left, Right};

use crate::Market;
use crate::quote::Quote;

/// What belongs to one half: a tick for it, or its fault. It is no `Result`: neither half is a failure of
/// the other.
#[derive(Drop)]
pub enum Half<S, T> {
    Left(S),
    Right(T),
}

/// The left half's fault, on its way to the fault of the whole. The right half's is another type, since
/// `From` has to tell the halves apart where both have faults of one type.
#[derive(Drop)]
pub struct InLeft<E> {
    pub fault: E,
}

/// The right half's fault, on its way to the fault of the whole.
#[derive(Drop)]
pub struct InRight<E> {
    pub fault: E,
}

impl<S, T> From<InLeft<S>> for Half<S, T> {
    ghost from_gives = { λ x r. r ≡ Left x.fault };

    fn from(value: InLeft<S>) -> Half<S, T> {
        let InLeft { fault } = value;
        Half::Left(fault)
    }
}

impl<S, T> From<InRight<T>> for Half<S, T> {
    ghost from_gives = { λ x r. r ≡ Right x.fault };

    fn from(value: InRight<T>) -> Half<S, T> {
        let InRight { fault } = value;
        Half::Right(fault)
    }
}

/// A market that shows the better of what its two halves show.
#[derive(Drop)]
pub struct BetterOf<X, Y> {
    pub(crate) left: X,
    pub(crate) right: Y,
}

// The higher of two bids; no price does not count. This and the next stay apart: one function would take
// `max` or `min` as a closure, and a clause on what it answers, each longer than these lines.
fn higher_bid(x: Option<i64>, y: Option<i64>) -> Option<i64>
    ensures { result ≡ higher_bid x y }
{
    match (x, y) {
        (Some(x), Some(y)) => Some(x.max(y)),
        (x, None) => x,
        (None, y) => y,
    }
}

// The lower of two offers; no price does not count.
fn lower_offer(x: Option<i64>, y: Option<i64>) -> Option<i64>
    ensures { result ≡ lower_offer x y }
{
    match (x, y) {
        (Some(x), Some(y)) => Some(x.min(y)),
        (x, None) => x,
        (None, y) => y,
    }
}

impl<X, Y> BetterOf<X, Y> {
    /// The better of these two markets.
    pub fn new(left: X, right: Y) -> Self
        ensures { result ≡ record { left = left; right = right } }
    {
        BetterOf { left, right }
    }

    /// The left half.
    pub fn left(&self) -> &X
        ensures { result.now ≡ self.now.left }
    {
        &self.left
    }

    /// The right half.
    pub fn right(&self) -> &Y
        ensures { result.now ≡ self.now.right }
    {
        &self.right
    }
}

impl<X: Market, Y: Market> Market for BetterOf<X, Y> {
    type Tick = Half<X::Tick, Y::Tick>;

    type Fault = Half<X::Fault, Y::Fault>;

    ghost Position = { X.Market.Position × Y.Market.Position };

    ghost position = { λ s. (X.Market.position s.left, Y.Market.position s.right) };

    ghost Told = { Half X.Market.Told Y.Market.Told };

    ghost told = { half_told X.Market.told Y.Market.told };

    ghost meaning = { better_of_meaning X.Market.meaning Y.Market.meaning };

    ghost bounded = { Prim.search rules };

    ghost refused = { refused_halves_stay X.Market.meaning Y.Market.meaning
        X.Market.refused Y.Market.refused };

    ghost told_apart = { halves_apart X.Market.told Y.Market.told X.Market.told_apart Y.Market.told_apart };

    fn shown(&self) -> Quote
        ensures answer { result ≡ better_quote
            (X.Market.meaning.shows (X.Market.position self.now.left))
            (Y.Market.meaning.shows (Y.Market.position self.now.right)) }
        ensures leaves { self.exit.now ≡ self.entry.now }
    {
        let left = self.left.shown();
        let right = self.right.shown();
        Quote {
            bid: higher_bid(left.bid, right.bid),
            offer: lower_offer(left.offer, right.offer),
        }
    }

    fn tick(&mut self, tick: Half<X::Tick, Y::Tick>) -> Result<(), Half<X::Fault, Y::Fault>>
        ensures answer { told_by (half_told X.Market.told Y.Market.told) result
            ≡ half_answer X.Market.meaning Y.Market.meaning
            (X.Market.position self.old.left) (Y.Market.position self.old.right) tick }
        ensures next { (X.Market.position self.new.left, Y.Market.position self.new.right)
            ≡ half_next X.Market.meaning Y.Market.meaning
            (X.Market.position self.old.left) (Y.Market.position self.old.right) tick }
    {
        match tick {
            Half::Left(t) => self.left.tick(t).map_err(|fault| InLeft { fault })?,
            Half::Right(t) => self.right.tick(t).map_err(|fault| InRight { fault })?,
        }
        Ok(())
    }
}

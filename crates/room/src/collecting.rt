// Collecting an ended auction with its claim.
ghost use Rattle.std.specs.Prelude.{◌≡◌};
ghost use Rattle.std.specs.Option.{option_map};
ghost use Rattle.room.specs.Calls.{fills_told, room_state, CollectingGives, Writes};
ghost use Rattle.room.specs.Collecting.{collectable};
ghost use Rattle.room.specs.Refusals.{HoldsNoFault};
ghost use Rattle.room.specs.Rooms.{claim_numbers, open_values, waiting_result};
ghost use Rattle.room.specs.State.{is_number};

use crate::Room;
use crate::answers::Collection;
use crate::claim::Claim;
use crate::ended::EndedAuction;
use crate::refusal::Refusal;
use allocation::fill::{FillRow, LEAST_ROWS};
use allocation::ranking::Ranking;
use interval::source::IntervalSource;
use market::Market;

impl<M: Market, R: Ranking, S: IntervalSource> Room<M, R, S> {
    // The open auction has this number.
    fn is_open(&self, number: u32) -> bool
        ensures { result ≡ is_number number (option_map open_values self.now.current) }
    {
        self.current
            .as_ref()
            .is_some_and(|open| open.number == number)
    }

    // The auction of a claim, or the first refusal.
    fn collectable(&self, claim: &Claim, rows: usize) -> Result<&EndedAuction, Refusal<M::Fault>>
        ensures answer { waiting_result result
            ≡ collectable (room_state M.Market S.IntervalSource self.now) (claim_numbers claim.now) rows }
        ensures no_fault { HoldsNoFault result }
    {
        if rows < LEAST_ROWS {
            return Err(Refusal::ListTooShort);
        }
        if claim.numbers.room != self.number {
            return Err(Refusal::NoSuchAuction);
        }
        if self.is_open(claim.numbers.auction) {
            return Err(Refusal::StillOpen);
        }
        // No `ok_or`, which would have to drop a refusal, and so a market's fault.
        self.waiting
            .auction(claim.numbers.auction)
            .ok_or_else(|| Refusal::NoSuchAuction)
    }

    // Writes the fill list of a claim's auction, or tells the first refusal.
    fn write_fills(
        &self,
        claim: &Claim,
        rows: &mut [FillRow],
    ) -> Result<Collection, Refusal<M::Fault>>
        ensures { Writes M.Market R.Ranking S.IntervalSource self.now (claim_numbers claim.now) rows.old rows.new
            (fills_told M.Market result) }
    {
        let ended = self.collectable(claim, rows.len())?;
        Ok(Collection {
            count: ended.auction.write_fills(&self.ranking, rows),
            cause: ended.cause,
        })
    }

    /// Spends the claim and writes the auction's fill list to the head of the list of rows; the rows behind
    /// it stay. A refusal hands the claim back and writes nothing. Refusals: 6, 41, 42.
    pub fn collect(
        &mut self,
        claim: Claim,
        rows: &mut [FillRow],
    ) -> Result<Collection, (Refusal<M::Fault>, Claim)>
        ensures { CollectingGives M.Market R.Ranking S.IntervalSource self.old self.new claim rows.old rows.new
            result }
    {
        // A match and no `map_err`: no closure can hold the claim, which cannot be dropped.
        match self.write_fills(&claim, rows) {
            Ok(collection) => {
                let Claim { numbers } = claim;
                self.waiting.remove(numbers.auction);
                Ok(collection)
            }
            Err(refusal) => Err((refusal, claim)),
        }
    }
}

// The fill list of an auction: its rows, and how they are written.
ghost use Rattle.std.specs.Prelude.{◌≡◌, ◌≤◌, ◌++◌, length, take, drop};
ghost use Rattle.market.specs.Market.{told_by};
ghost use Rattle.allocation.specs.Auction.{auction_values, ranked_fills, fill_answer, rows_after, LawfulFills, LawfullyFilled, LevelsInRankingOrder};
ghost use Rattle.allocation.specs.Fill.{contra_terms};
ghost use Rattle.allocation.specs.Refusal.{fill_number};
ghost use Rattle.allocation.specs.Split.{guaranteed_share};
ghost use Rattle.allocation.specs.Table.{standing};

use crate::arrange::arrange;
use crate::auction::Auction;
use crate::order::ContraTerms;
use crate::ranking::Ranking;
use crate::refusal::FillRefusal;
use crate::response::{Class, Kind, Response};
use crate::share::Standing;
use crate::split::guaranteed_share;
use crate::walk::ShareOut;

/// The fewest rows that hold every fill list: one for each of 64 responses, and one for the contra at each of
/// 65 prices.
pub const LEAST_ROWS: usize = 129;

/// A row of a fill list: what a response got, or what the contra firm got at a price. The contra's rows have
/// member and own number 0: the venue's form of a row, in which there is no enum of parties.
#[derive(Clone, Copy)]
pub struct FillRow {
    /// The price, not turned, in cents.
    pub price: i64,
    /// The member that responded; 0 in the contra's rows.
    pub member: u8,
    /// The number that the member gave the response; 0 in the contra's rows.
    pub own_number: u8,
    /// The class of the response; other in the contra's rows.
    pub class: Class,
    /// The kind of the response; plain in the contra's rows.
    pub kind: Kind,
    /// Contracts that it got.
    pub filled: u32,
    /// Contracts that it asked for and did not get; 0 in the contra's rows.
    pub left: u32,
}

impl FillRow {
    /// A row before anything is written into it.
    pub const BLANK: FillRow = FillRow {
        price: 0,
        member: 0,
        own_number: 0,
        class: Class::Other,
        kind: Kind::Plain,
        filled: 0,
        left: 0,
    };
}

impl Auction {
    /// The contra's guaranteed share, in contracts.
    pub fn guaranteed(&self) -> u32
        ensures { result ≡ guaranteed_share self.now.order.size (length (standing self.now.table)) }
    {
        guaranteed_share(self.order.size, self.table.standing().len())
    }

    // What the contra's part goes by.
    fn contra_terms(&self) -> ContraTerms
        ensures { result ≡ contra_terms self.now.order self.now.initiating (length (standing self.now.table)) }
    {
        ContraTerms {
            guarantee: self.order.guarantee,
            initiating: self.initiating,
            guaranteed: self.guaranteed(),
        }
    }

    /// Shares out the order's contracts among the responses that stand and the contra firm: writes who gets
    /// how many at which price from the first row on, and answers how many rows that are. The list has
    /// `LEAST_ROWS` rows or more; `fill` tests it.
    pub fn write_fills<R: Ranking>(&self, ranking: &R, rows: &mut [FillRow]) -> usize
        requires { 129 ≤ length rows.old }
        ensures count { result ≡ length (ranked_fills (R.Ranking.ahead ranking.now) (auction_values self.now)) }
        ensures rows { rows.new ≡ ranked_fills (R.Ranking.ahead ranking.now) (auction_values self.now) ++ drop result rows.old }
        ensures ranked { LevelsInRankingOrder (R.Ranking.ahead ranking.now) (auction_values self.now) }
        ensures laws { LawfulFills (R.Ranking.ahead ranking.now) (auction_values self.now) (take result rows.new) }
    {
        let stood = self.table.standing();
        // Not `BLANK`, with which sharing out among two responses took almost twice as long.
        let mut responses = [Response::ZERO; 64];
        let standing = &mut responses[..stood.len()];
        standing.copy_from_slice(stood);
        arrange(ranking, standing);
        let share_out = ShareOut {
            side: self.order.side,
            terms: self.contra_terms(),
            arranged: Standing {
                responses: standing,
            },
        };
        share_out.write_rows(self.order.size, rows)
    }

    /// Shares out likewise, and refuses a list of fewer than `LEAST_ROWS` rows, of which none is then
    /// written.
    pub fn fill<R: Ranking>(&self, ranking: &R, rows: &mut [FillRow]) -> Result<usize, FillRefusal>
        ensures answer { told_by fill_number result ≡ fill_answer (R.Ranking.ahead ranking.now) (auction_values self.now) rows.old }
        ensures rows { rows.new ≡ rows_after (R.Ranking.ahead ranking.now) (auction_values self.now) rows.old }
        ensures ranked { LevelsInRankingOrder (R.Ranking.ahead ranking.now) (auction_values self.now) }
        ensures laws { LawfullyFilled (R.Ranking.ahead ranking.now) (auction_values self.now) result rows.old rows.new }
    {
        if rows.len() < LEAST_ROWS {
            return Err(FillRefusal::ListTooShort);
        }
        Ok(self.write_fills(ranking, rows))
    }
}

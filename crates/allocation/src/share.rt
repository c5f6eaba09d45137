// Sharing contracts among the responses of one class at one price, which stand in ranking order.
ghost use Rattle.std.specs.Prelude.{◌≡◌, ◌*◌, ◌/◌, ◌<◌, ◌≤◌, true, length, take, drop, Some};
ghost use Rattle.std.proofs.Props.{props};
ghost use Rattle.market.specs.Limits.{showable};
ghost use Rattle.allocation.specs.Fill.{fill_row, class_rows, shared_rows};
ghost use Rattle.allocation.specs.LevelSteps.{Sized, Sound};
ghost use Rattle.allocation.specs.Share.{sizes, total, parts_total};

use crate::fill::FillRow;
use crate::response::Response;
use market::side::Side;

// At most 64 responses, each of 1 to 100,000 contracts at a price that can be turned.
#[derive(Clone, Copy)]
pub(crate) struct Standing<'a> {
    pub responses: &'a [Response],
    ghost sound: { Sound responses.now } by { Prim.hlevel props },
}

// Contracts that are dealt among responses by size: no more than these ask for in all.
#[derive(Clone, Copy)]
struct Deal<'a> {
    among: Standing<'a>,
    contracts: u64,
    asked: u64,
    ghost all: { asked ≡ total (sizes among.responses.now) },
    ghost within: { contracts ≤ asked },
}

// Side and rows are handed on side by side, here and at levels: a struct would have to hold the rows as a
// `&mut` and lend parts out of it, of which no proof is made.
//
// The row of a response that got so many contracts.
fn row_of(side: Side, response: &Response, filled: u32) -> FillRow
    requires size { filled ≤ response.now.size }
    requires price { showable (Some response.now.price) ≡ true }
    ensures { result ≡ fill_row side response.now filled }
{
    FillRow {
        price: side.turn(response.price),
        member: response.member,
        own_number: response.own_number,
        class: response.class,
        kind: response.kind,
        filled,
        left: response.size - filled,
    }
}

impl<'a> Standing<'a> {
    // Those before a number of them, and those from there on.
    pub(crate) fn split_at(&self, n: usize) -> (Standing<'a>, Standing<'a>)
        requires { n ≤ length self.now.responses.now }
        ensures front { result.0.responses.now ≡ take n self.now.responses.now }
        ensures behind { result.1.responses.now ≡ drop n self.now.responses.now }
    {
        let (front, behind) = self.responses.split_at(n);
        (
            Standing { responses: front },
            Standing { responses: behind },
        )
    }

    // The sizes, added up.
    pub(crate) fn total_size(&self) -> u64
        ensures value { result ≡ total (sizes self.now.responses.now) }
        ensures most { result ≤ 6400000 }
    {
        self.responses
            .iter()
            .map(|response| u64::from(response.size))
            .sum()
    }

    // Fills each response whole.
    fn write_whole_rows(&self, side: Side, rows: &mut [FillRow])
        requires { length rows.old ≡ length self.now.responses.now }
        ensures { rows.new ≡ class_rows side self.now.responses.now (sizes self.now.responses.now) }
    {
        for (i, response) in self.responses.iter().enumerate() {
            rows[i] = row_of(side, response, response.size);
        }
    }

    // Shares `k` contracts among the responses and writes their rows. Where `k` is enough for all, each part
    // is the whole size, and no division is made to find it.
    pub(crate) fn share(&self, side: Side, k: u64, rows: &mut [FillRow])
        requires { length rows.old ≡ length self.now.responses.now }
        ensures { rows.new ≡ shared_rows side k self.now.responses.now }
    {
        let asked = self.total_size();
        if asked <= k {
            self.write_whole_rows(side, rows);
        } else {
            let deal = Deal {
                among: *self,
                contracts: k,
                asked,
            };
            deal.write_rows(side, rows);
        }
    }
}

impl Deal<'_> {
    // The whole contracts that fall to a size: its part of the contracts by all sizes, rounded down.
    fn whole_part(&self, size: u32) -> u64
        requires some { 1 ≤ size }
        requires within { size ≤ self.now.asked }
        ensures value { result ≡ self.now.contracts * size / self.now.asked }
        ensures most { result ≤ size }
        ensures below { self.now.contracts < self.now.asked → result < size }
    {
        self.contracts * u64::from(size) / self.asked
    }

    // These, added up.
    fn whole_parts(&self) -> u64
        ensures { result ≡ parts_total self.now.contracts self.now.asked (sizes self.now.among.responses.now) }
    {
        self.among
            .responses
            .iter()
            .map(|response| self.whole_part(response.size))
            .sum()
    }

    // Deals each response its whole contracts, and one more to each of the first until none is left.
    fn write_rows(&self, side: Side, rows: &mut [FillRow])
        requires { length rows.old ≡ length self.now.among.responses.now }
        ensures { rows.new ≡ shared_rows side self.now.contracts self.now.among.responses.now }
    {
        // Not `rows.iter_mut().zip(..)`: after such a loop no proof knows what the rows hold.
        let mut odd = self.contracts - self.whole_parts();
        for (i, response) in self.among.responses.iter().enumerate() {
            let extra = odd.min(1);
            let filled = (self.whole_part(response.size) + extra) as u32;
            rows[i] = row_of(side, response, filled);
            odd -= extra;
        }
    }
}

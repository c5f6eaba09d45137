// Levels: from arranged responses to the customers and the others at one price, what each gets there, and its
// rows.
ghost use Rattle.std.specs.Prelude.{◌≡◌, ◌≤◌, true, length, take, drop, Some};
ghost use Rattle.market.specs.Limits.{showable};
ghost use Rattle.allocation.specs.Fill.{contra_row, level_rows, split_at};
ghost use Rattle.allocation.specs.LevelSteps.{stands_at, leading, front_level};
ghost use Rattle.allocation.specs.Split.{total_taken};

use crate::fill::FillRow;
use crate::order::ContraTerms;
use crate::response::{Class, Kind, Response};
use crate::share::Standing;
use crate::split::{Asked, Progress, Split};
use market::side::Side;

/// A class at a price, where responses may stand.
#[derive(Clone, Copy)]
pub struct ClassAtPrice {
    /// The price, turned, in cents.
    pub price: i64,
    /// Customer or other.
    pub class: Class,
}

// One level: its price, the customers and the others who stand there, and what each gets.
#[derive(Clone, Copy)]
pub(crate) struct LevelPlan<'a> {
    pub price: i64,
    pub customers: Standing<'a>,
    pub others: Standing<'a>,
    pub split: Split,
    ghost shown: { showable (Some price) ≡ true },
    ghost few: { split.contra ≤ 100000 },
}

fn is_at(response: &Response, at: &ClassAtPrice) -> bool
    ensures { result ≡ stands_at at.now.price at.now.class response.now }
{
    response.class == at.class && response.price == at.price
}

// How many responses at the front stand there.
fn run_length(responses: &[Response], at: &ClassAtPrice) -> usize
    ensures value { result ≡ leading at.now.price at.now.class responses.now }
    ensures most { result ≤ length responses.now }
{
    responses
        .iter()
        .take_while(|response| is_at(response, at))
        .count()
}

impl<'a> Standing<'a> {
    // Those at the front that stand there, and those behind them.
    fn split_run(&self, at: &ClassAtPrice) -> (Standing<'a>, Standing<'a>)
        ensures run { result.0.responses.now
            ≡ take (leading at.now.price at.now.class self.now.responses.now) self.now.responses.now }
        ensures behind { result.1.responses.now
            ≡ drop (leading at.now.price at.now.class self.now.responses.now) self.now.responses.now }
    {
        self.split_at(run_length(self.responses, at))
    }
}

impl<'a> LevelPlan<'a> {
    ghost use Rattle.allocation.specs.Plans.{planned_level, plan_rows};

    // The level of this price at the front of arranged responses, and what each gets there.
    pub(crate) fn at_front(
        terms: &ContraTerms,
        price: i64,
        arranged: &Standing<'a>,
        progress: Progress,
    ) -> LevelPlan<'a>
        requires price { showable (Some price) ≡ true }
        requires left { progress.left ≤ 100000 }
        ensures level { planned_level result ≡ front_level price arranged.now.responses.now }
        ensures split { result.split
            ≡ split_at terms.now (front_level price arranged.now.responses.now) progress.left progress.so_far }
        ensures least { total_taken result.split ≤ progress.left }
    {
        let (customers, behind) = arranged.split_run(&ClassAtPrice {
            price,
            class: Class::Customer,
        });
        let (others, _) = behind.split_run(&ClassAtPrice {
            price,
            class: Class::Other,
        });
        let asked = Asked {
            customers: customers.total_size(),
            others: others.total_size(),
        };
        LevelPlan {
            price,
            customers,
            others,
            split: terms.split(price, progress, asked),
        }
    }

    // One row for each response, and one for the contra if it gets any.
    pub(crate) fn row_count(&self) -> usize
        ensures { result ≡ plan_rows self.now }
    {
        self.customers.responses.len()
            + (self.split.contra.min(1) as usize + self.others.responses.len())
    }

    fn row_of_contra(&self, side: Side) -> FillRow
        ensures { result ≡ contra_row side self.now.price self.now.split.contra }
    {
        FillRow {
            price: side.turn(self.price),
            member: 0,
            own_number: 0,
            class: Class::Other,
            kind: Kind::Plain,
            filled: self.split.contra as u32,
            left: 0,
        }
    }

    // Writes the level's rows, all of them and no others: the customers', the contra's if it gets any, and
    // the others'.
    pub(crate) fn write_rows(&self, side: Side, rows: &mut [FillRow])
        requires { length rows.old ≡ plan_rows self.now }
        ensures { rows.new ≡ level_rows side (planned_level self.now) self.now.split }
    {
        let (customers, behind) = rows.split_at_mut(self.customers.responses.len());
        let (contra, others) = behind.split_at_mut(self.split.contra.min(1) as usize);
        self.customers.share(side, self.split.customers, customers);
        contra.fill(self.row_of_contra(side));
        self.others.share(side, self.split.others, others);
    }
}

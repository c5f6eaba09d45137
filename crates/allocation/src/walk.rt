// Walking the levels of arranged responses, from the lowest price up.
ghost use Rattle.std.specs.Prelude.{◌≡◌, ◌+◌, ◌≤◌, true, ◌++◌, length, take, drop, Some};
ghost use Rattle.market.specs.Limits.{showable};
ghost use Rattle.allocation.specs.Levels.{contra_level};
ghost use Rattle.allocation.specs.LevelSteps.{next_price};
ghost use Rattle.allocation.specs.Walk.{walk_past, rows_past, all_rows};

use crate::fill::FillRow;
use crate::levels::LevelPlan;
use crate::order::ContraTerms;
use crate::share::Standing;
use crate::split::Progress;
use market::side::Side;

/// How far a walk has come. It holds indexes, and no rest of the responses or of the rows: the definitions
/// build this record, which they could not with the invariant of such a rest in it, and the rows are lent
/// anew for each level.
#[derive(Clone, Copy)]
pub struct Walk {
    /// The contra's price, turned, in cents, while it is still to come.
    pub contra_price: Option<i64>,
    /// The index of the first response that is still to come.
    pub next: usize,
    /// The index of the row that is written next.
    pub row: usize,
    /// What is left of the order.
    pub progress: Progress,
}

// An order that is shared out: its side, the contra's terms, and the responses in the order of their rows.
#[derive(Clone, Copy)]
pub(crate) struct ShareOut<'a> {
    pub side: Side,
    pub terms: ContraTerms,
    pub arranged: Standing<'a>,
}

impl ShareOut<'_> {
    // The lowest price that is still to come, if there is any.
    fn price_to_come(&self, walk: &Walk) -> Option<i64>
        ensures { result ≡ next_price walk.now.contra_price (drop walk.now.next self.now.arranged.responses.now) }
    {
        let next = self
            .arranged
            .responses
            .get(walk.next)
            .map(|next| next.price);
        match (next, walk.contra_price) {
            (Some(next), Some(contra)) => Some(next.min(contra)),
            (Some(next), None) => Some(next),
            (None, contra) => contra,
        }
    }

    // Writes the rows of the level at this price, handing on that level's rows alone, and goes on behind it.
    fn past_level(&self, walk: Walk, price: i64, rows: &mut [FillRow]) -> Walk
        requires price { showable (Some price) ≡ true }
        requires next { walk.next ≤ length self.now.arranged.responses.now }
        requires left { walk.progress.left + walk.progress.so_far ≤ 100000 }
        requires room { walk.row + (length self.now.arranged.responses.now + 1) ≤ walk.next + length rows.old }
        ensures walk { result ≡ walk_past self.now.terms price walk self.now.arranged.responses.now }
        ensures within { (result.next ≤ length self.now.arranged.responses.now)
            × (result.progress.left + result.progress.so_far ≤ 100000) }
        ensures rows { rows.new ≡ take walk.row rows.old
            ++ (rows_past self.now.side self.now.terms price walk self.now.arranged.responses.now
            ++ drop result.row rows.old) }
    {
        let (_, behind) = self.arranged.split_at(walk.next);
        let plan = LevelPlan::at_front(&self.terms, price, &behind, walk.progress);
        let end = walk.row + plan.row_count();
        plan.write_rows(self.side, &mut rows[walk.row..end]);
        Walk {
            contra_price: walk.contra_price.filter(|contra| *contra != price),
            next: walk.next + (plan.customers.responses.len() + plan.others.responses.len()),
            row: end,
            progress: walk.progress.past(&plan.split),
        }
    }

    // Writes the rows of all levels, for an order of this size, and answers how many there are.
    pub(crate) fn write_rows(&self, size: u32, rows: &mut [FillRow]) -> usize
        requires contra { showable (Some (contra_level self.now.terms.guarantee.kind self.now.terms)) ≡ true }
        requires size { size ≤ 100000 }
        requires rows { 129 ≤ length rows.old }
        ensures rows { rows.new ≡ all_rows self.now.side self.now.terms self.now.arranged.responses.now size ++ drop result rows.old }
        ensures count { result ≡ length (all_rows self.now.side self.now.terms self.now.arranged.responses.now size) }
    {
        let mut walk = Walk {
            contra_price: Some(self.terms.contra_price()),
            next: 0,
            row: 0,
            progress: Progress {
                left: u64::from(size),
                so_far: 0,
            },
        };
        while let Some(price) = self.price_to_come(&walk) {
            walk = self.past_level(walk, price, rows);
        }
        walk.row
    }
}

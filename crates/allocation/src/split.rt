// How the contracts that are left are split at one level among customers, contra and others.
ghost use Rattle.std.specs.Prelude.{◌≡◌, ◌+◌, ◌-◌, ◌≤◌};
ghost use Rattle.allocation.specs.Split.{guaranteed_share, others_share, whole_match, clean_up, nothing_trades, stop_rest, match_between, match_rest, rest_by, split, total_taken};

use crate::order::{ContraTerms, GuaranteeKind};
use std::cmp::Ordering;

/// How far an order is shared out at a level. That both are 100,000 at most stands in clauses: the
/// definitions build this record, which they could not with an invariant in it.
#[derive(Clone, Copy)]
pub struct Progress {
    /// The contracts of the order that are left.
    pub left: u64,
    /// The contracts that the contra has so far.
    pub so_far: u64,
}

// The sizes that stand at a level, added up: those of 64 responses at most.
#[derive(Clone, Copy)]
pub(crate) struct Asked {
    pub customers: u64,
    pub others: u64,
    ghost few_customers: { customers ≤ 6400000 },
    ghost few_others: { others ≤ 6400000 },
}

/// What each gets at a level, in contracts.
#[derive(Clone, Copy)]
pub struct Split {
    /// All customers together.
    pub customers: u64,
    /// The contra.
    pub contra: u64,
    /// All others together.
    pub others: u64,
}

/// What the contra and the others get, once the customers have theirs, in contracts. That this is no more
/// than is left stands in the clauses of each function: it is a fact of the rest and of what was left, which
/// the rest does not hold.
#[derive(Clone, Copy)]
pub struct Rest {
    /// The contra.
    pub contra: u64,
    /// All others together.
    pub others: u64,
}

// The contra's guaranteed share: 40% of the order rounded down, 50% with just one response standing, and at
// least 1.
pub(crate) fn guaranteed_share(size: u32, standing: usize) -> u32
    requires { size ≤ 100000 }
    ensures value { result ≡ guaranteed_share size standing }
{
    let percent = if standing == 1 { 50 } else { 40 };
    (size * percent / 100).max(1)
}

// What is left and what the others ask for: two numbers, since a struct of them would be made at each call
// and taken apart in the next line.
fn share_others(left: u64, asked: u64) -> Rest
    ensures value { result ≡ others_share left asked }
    ensures within { result.contra + result.others ≤ left }
{
    Rest {
        contra: 0,
        others: left.min(asked),
    }
}

// The contra takes its part of what is left, the others share, and the contra takes the rest.
fn clean(left: u64, part: u64, asked: u64) -> Rest
    ensures value { result ≡ clean_up left part asked }
    ensures within { result.contra + result.others ≤ left }
{
    let first = left.min(part);
    let others = (left - first).min(asked);
    Rest {
        contra: first + (left - first - others),
        others,
    }
}

impl Progress {
    // Behind a level that was split so.
    pub(crate) fn past(self, split: &Split) -> Progress
        requires within { total_taken split.now ≤ self.left }
        requires most { self.left + self.so_far ≤ 100000 }
        ensures left { result.left ≡ self.left - total_taken split.now }
        ensures so_far { result.so_far ≡ self.so_far + split.now.contra }
    {
        Progress {
            left: self.left - (split.customers + (split.contra + split.others)),
            so_far: self.so_far + split.contra,
        }
    }
}

impl ContraTerms {
    fn rest_at_stop(&self, price: i64, left: u64, asked: u64) -> Rest
        ensures value { result ≡ stop_rest self.now price left asked }
        ensures within { result.contra + result.others ≤ left }
    {
        match price.cmp(&self.guarantee.price) {
            Ordering::Less => share_others(left, asked),
            Ordering::Equal => clean(left, u64::from(self.guaranteed), asked),
            Ordering::Greater => Rest {
                contra: 0,
                others: 0,
            },
        }
    }

    // From the limit price on, before the initiating price.
    fn rest_between(&self, progress: Progress, asked: Asked) -> Rest
        ensures value { result ≡ match_between self.now progress.left progress.so_far asked.customers asked.others }
        ensures within { result.contra + result.others ≤ progress.left }
    {
        let share = u64::from(self.guaranteed);
        let both = asked.customers + asked.others;
        if share <= progress.so_far {
            share_others(progress.left, asked.others)
        } else if asked.others + both <= progress.left {
            Rest {
                contra: both,
                others: asked.others,
            }
        } else {
            clean(progress.left, share - progress.so_far, asked.others)
        }
    }

    fn rest_in_match(&self, price: i64, progress: Progress, asked: Asked) -> Rest
        ensures value { result ≡ match_rest self.now price progress.left progress.so_far asked.customers asked.others }
        ensures within { result.contra + result.others ≤ progress.left }
    {
        if price < self.guarantee.price {
            share_others(progress.left, asked.others)
        } else if price < self.initiating {
            self.rest_between(progress, asked)
        } else {
            let lacking = u64::from(self.guaranteed).saturating_sub(progress.so_far);
            clean(progress.left, lacking, asked.others)
        }
    }

    // The split at a level of the contracts that are left, by the sizes that stand there.
    pub(crate) fn split(&self, price: i64, progress: Progress, asked: Asked) -> Split
        ensures value { result ≡ split self.now price progress.left progress.so_far asked.customers asked.others }
        ensures within { total_taken result ≤ progress.left }
    {
        let customers = progress.left.min(asked.customers);
        let behind = Progress {
            left: progress.left - customers,
            ..progress
        };
        let rest = match self.guarantee.kind {
            GuaranteeKind::SingleStop => self.rest_at_stop(price, behind.left, asked.others),
            GuaranteeKind::AutoMatchLimit => self.rest_in_match(price, behind, asked),
        };
        Split {
            customers,
            contra: rest.contra,
            others: rest.others,
        }
    }
}

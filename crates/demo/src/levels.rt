// A fill list level by level: what was left, who got how many of it, and how a class shared too few.
use crate::table::filled_in;
use crate::text::Price;
use allocation::fill::FillRow;
use allocation::order::GuaranteeKind;
use allocation::response::Class;
use std::{fmt, io};

#[derive(Clone, Copy, PartialEq, Eq)]
enum Party {
    Customers,
    Contra,
    Others,
}

impl Party {
    fn of(row: &FillRow) -> Party {
        match (row.member, row.class) {
            (0, _) => Party::Contra,
            (_, Class::Customer) => Party::Customers,
            (_, Class::Other) => Party::Others,
        }
    }
}

impl fmt::Display for Party {
    fn fmt<W: fmt::Write>(&self, f: &mut fmt::Formatter<W>) -> fmt::Result {
        f.pad(match self {
            Party::Customers => "customers",
            Party::Contra => "contra",
            Party::Others => "others",
        })
    }
}

fn size_of(row: &FillRow) -> u32 {
    row.filled.saturating_add(row.left)
}

// A party's rows at a level, in the order of the ranking.
#[derive(Clone, Copy)]
struct Part<'a> {
    party: Party,
    rows: &'a [FillRow],
}

impl<'a> Part<'a> {
    // Of the rows of one level, where those of each party stand together.
    fn of(party: Party, level: &'a [FillRow]) -> Part<'a> {
        let rows = level
            .chunk_by(|row, next| Party::of(row) == Party::of(next))
            .find(|rows| rows.first().is_some_and(|row| Party::of(row) == party))
            .unwrap_or(&[]);
        Part { party, rows }
    }

    // K, what the party got.
    fn got(&self) -> u32 {
        filled_in(self.rows)
    }

    // T, the total size that it stood there with.
    fn size(&self) -> u32 {
        self.rows.iter().map(size_of).fold(0, u32::saturating_add)
    }

    // K × size / T, rounded down.
    fn rounded_down(&self, row: &FillRow) -> u64 {
        u64::from(self.got())
            .saturating_mul(u64::from(size_of(row)))
            .checked_div(u64::from(self.size()))
            .unwrap_or(0)
    }

    // The contracts that rounding down leaves.
    fn odd_contracts(&self) -> u64 {
        self.rows.iter().fold(u64::from(self.got()), |odd, row| {
            odd.saturating_sub(self.rounded_down(row))
        })
    }

    // One response of a class that shares too few, and its rank in its class, 1 for the first.
    fn show_share(&self, rt: &HostRuntime, rank: u32, row: &FillRow) -> io::Result<()> {
        let FillRow { member, filled, .. } = *row;
        let got = self.got();
        let total = self.size();
        let size = size_of(row);
        let share = self.rounded_down(row);
        print!(rt; "      member {member}: {got} × {size} / {total} rounded down is {share}")?;
        if u64::from(filled) == share {
            println!(rt; "")
        } else {
            println!(rt; ", and an odd contract as number {rank} in the ranking: {filled}")
        }
    }

    fn show_shares(&self, rt: &HostRuntime, ranking: &str) -> io::Result<()> {
        for (rank, row) in (1..=u32::MAX).zip(self.rows) {
            self.show_share(rt, rank, row)?;
        }
        match self.odd_contracts() {
            0 => println!(rt; "      odd contracts: none"),
            odd => println!(rt; "      odd contracts: {odd}, one each, {ranking}"),
        }
    }

    fn show(&self, rt: &HostRuntime, ranking: &str) -> io::Result<()> {
        let party = self.party;
        let got = self.got();
        let size = self.size();
        if size == 0 {
            println!(rt; "    {party}: none stand here")
        } else if size <= got {
            println!(rt; "    {party}: {got}, all that they stand with")
        } else {
            println!(rt; "    {party}: {got} of the {size} that they stand with")?;
            self.show_shares(rt, ranking)
        }
    }
}

// What each party got at a level.
#[derive(Clone, Copy)]
struct Level<'a> {
    price: i64,
    customers: Part<'a>,
    contra: Part<'a>,
    others: Part<'a>,
}

impl<'a> Level<'a> {
    // Of the rows of one price; none of no rows.
    fn of(rows: &'a [FillRow]) -> Option<Level<'a>> {
        Some(Level {
            price: rows.first()?.price,
            customers: Part::of(Party::Customers, rows),
            contra: Part::of(Party::Contra, rows),
            others: Part::of(Party::Others, rows),
        })
    }

    // What is left of so many contracts.
    fn left_of(&self, before: u32) -> u32 {
        before
            .saturating_sub(self.customers.got())
            .saturating_sub(self.contra.got())
            .saturating_sub(self.others.got())
    }
}

/// A fill list, with what tells how it came about.
#[derive(Clone, Copy)]
pub struct Shared<'a> {
    /// Its rows.
    pub rows: &'a [FillRow],
    /// The kind of the order's guarantee.
    pub kind: GuaranteeKind,
    /// The initiating price in cents, not turned.
    pub initiating: i64,
    /// What the ranking is called.
    pub ranking: &'static str,
}

impl Shared<'_> {
    // Whether the contra got as many as both classes stand with, short of the initiating price.
    fn is_matched(&self, level: &Level<'_>) -> bool {
        self.kind == GuaranteeKind::AutoMatchLimit
            && level.price != self.initiating
            && level.others.got() == level.others.size()
            && level.contra.got() == level.customers.size().saturating_add(level.others.size())
    }

    fn show_contra(&self, rt: &HostRuntime, level: &Level<'_>) -> io::Result<()> {
        let got = level.contra.got();
        if got == 0 {
            println!(rt; "    contra: 0")
        } else if self.is_matched(level) {
            println!(rt; "    contra: {got}, matching what customers and others stand with")
        } else {
            println!(rt; "    contra: {got}, cleaning up")
        }
    }

    // Shows a level and answers what it leaves of the order.
    fn show_level(&self, rt: &HostRuntime, level: &Level<'_>, before: u32) -> io::Result<u32> {
        println!(rt; "  level {}: R is {before}", Price(level.price))?;
        level.customers.show(rt, self.ranking)?;
        self.show_contra(rt, level)?;
        level.others.show(rt, self.ranking)?;
        let after = level.left_of(before);
        println!(rt; "    R is then {after}")?;
        Ok(after)
    }

    /// Prints each level of the fill list in turn, with R, what is left of an order of this size.
    pub fn show_levels(&self, rt: &HostRuntime, size: u32) -> io::Result<()> {
        println!(rt; "  level by level, R being what is left of the order:")?;
        self.rows
            .chunk_by(|row, next| row.price == next.price)
            .filter_map(Level::of)
            .try_fold(size, |left, level| self.show_level(rt, &level, left))
            .map(|_| ())
    }
}

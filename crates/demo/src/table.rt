// A fill list as a table, and what its rows come to.
use crate::text::Price;
use allocation::fill::FillRow;
use std::io;

fn show_row(rt: &HostRuntime, row: &FillRow) -> io::Result<()> {
    let FillRow {
        price,
        member,
        class,
        filled,
        left,
        ..
    } = *row;
    print!(rt; "    {}  ", Price(price))?;
    if member == 0 {
        print!(rt; "contra     ")?;
    } else {
        print!(rt; "member {member:<2}  ")?;
    }
    println!(rt; "{class:<8}  {filled:>6}  {left:>4}")
}

/// How many contracts all these rows are filled.
// The examples have one alike: no layer has what only programs call, and neither program rests on the other.
pub fn filled_in(rows: &[FillRow]) -> u32 {
    rows.iter()
        .map(|row| row.filled)
        .fold(0, u32::saturating_add)
}

/// Prints the rows, and whether their filled total the order's size.
pub fn show_table(rt: &HostRuntime, rows: &[FillRow], size: u32) -> io::Result<()> {
    println!(rt; "  the fill list:")?;
    println!(rt; "    price        who        class     filled  left")?;
    for row in rows {
        show_row(rt, row)?;
    }
    let total = filled_in(rows);
    let verdict = if total == size { "equal" } else { "NOT EQUAL" };
    println!(rt; "  filled in all rows {total}, size of the order {size}: {verdict}")
}

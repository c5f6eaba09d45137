// The text of a fill list.
ghost use Rattle.std.specs.Prelude.{Some, ◌≡◌};
ghost use Rattle.script.specs.Answer.{kind_text, party_text, row_text, rows_text};

use allocation::fill::FillRow;
use allocation::response::Kind;
use std::fmt;

/// How a kind of response is called.
#[derive(Clone, Copy)]
pub struct KindText(pub Kind);

impl fmt::Display for KindText {
    ghost output = { λ x. Some (kind_text x.0) };

    fn fmt<W: fmt::Write>(&self, f: &mut fmt::Formatter<W>) -> fmt::Result {
        match self.0 {
            Kind::Sealed => f.write_str("sealed"),
            Kind::Plain => f.write_str("plain"),
        }
    }
}

// Whose row it is: a member's response, or the contra's.
#[derive(Clone, Copy)]
struct PartyText(FillRow);

impl fmt::Display for PartyText {
    ghost output = { λ x. Some (party_text x.0) };

    fn fmt<W: fmt::Write>(&self, f: &mut fmt::Formatter<W>) -> fmt::Result {
        let FillRow {
            member,
            own_number,
            class,
            ..
        } = self.0;
        if member == 0 {
            return f.write_str("contra");
        }
        let kind = KindText(self.0.kind);
        write!(f, "member {member} own {own_number} {class} {kind}")
    }
}

/// One row.
#[derive(Clone, Copy)]
pub struct RowText(pub FillRow);

impl fmt::Display for RowText {
    ghost output = { λ x. Some (row_text x.0) };

    fn fmt<W: fmt::Write>(&self, f: &mut fmt::Formatter<W>) -> fmt::Result {
        let FillRow {
            price,
            filled,
            left,
            ..
        } = self.0;
        let party = PartyText(self.0);
        write!(f, "{price} {party} filled {filled} left {left}")
    }
}

/// All rows, each on a line of its own.
#[derive(Clone, Copy)]
pub struct RowsText<'a>(pub &'a [FillRow]);

impl fmt::Display for RowsText<'_> {
    ghost output = { λ x. Some (rows_text x.0.now) };

    fn fmt<W: fmt::Write>(&self, f: &mut fmt::Formatter<W>) -> fmt::Result {
        for row in self.0 {
            let row = RowText(*row);
            write!(f, "\n  {row}")?;
        }
        Ok(())
    }
}

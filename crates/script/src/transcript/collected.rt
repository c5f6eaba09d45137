// The text of a collecting.
ghost use Rattle.std.specs.Prelude.{Some};
ghost use Rattle.room.specs.Rooms.{collection_told};
ghost use Rattle.script.specs.Answer.{collected_text, collection_text};

use super::rows::RowsText;
use allocation::fill::FillRow;
use room::answers::Collection;
use std::fmt;

// What a collecting tells beside the rows.
#[derive(Clone, Copy)]
struct CollectionText(Collection);

impl fmt::Display for CollectionText {
    ghost output = { λ x. Some (collection_text (collection_told x.0)) };

    fn fmt<W: fmt::Write>(&self, f: &mut fmt::Formatter<W>) -> fmt::Result {
        let count = self.0.count;
        let cause = self.0.cause.letter();
        write!(f, "{count} cause {cause}")
    }
}

/// What a collecting tells, with the rows.
#[derive(Clone, Copy)]
pub struct CollectedText<'a>(pub Collection, pub &'a [FillRow]);

impl fmt::Display for CollectedText<'_> {
    ghost output = { λ x. Some (collected_text (collection_told x.0) x.1.now) };

    fn fmt<W: fmt::Write>(&self, f: &mut fmt::Formatter<W>) -> fmt::Result {
        let collection = CollectionText(self.0);
        let rows = RowsText(self.1);
        write!(f, "collected {collection}{rows}")
    }
}

// The text of the answer to a call.
ghost use Rattle.std.specs.Prelude.{Some};
ghost use Rattle.script.specs.Answer.{answer_text};
ghost use Rattle.script.specs.Told.{answer_told};

use super::collected::CollectedText;
use super::refusal::RefusalText;
use super::stored::StoredText;
use super::view::ViewText;
use market::cube::CubeFault;
use session::answer::Answer;
use std::fmt;

/// The answer to a call.
#[derive(Clone, Copy)]
pub struct AnswerText<'a>(pub &'a Answer<CubeFault>);

impl fmt::Display for AnswerText<'_> {
    ghost output = { λ x. Some (answer_text (answer_told x.0.now)) };

    fn fmt<W: fmt::Write>(&self, f: &mut fmt::Formatter<W>) -> fmt::Result {
        match self.0 {
            Answer::Opened(claim) => {
                let auction = claim.auction;
                write!(f, "opened {auction}")
            }
            Answer::Stored(terms) => {
                let terms = StoredText(*terms);
                write!(f, "stored {terms}")
            }
            Answer::Accepted => f.write_str("accepted"),
            Answer::Looked(view) => {
                let view = ViewText(*view);
                write!(f, "{view}")
            }
            Answer::Collected(collection, rows) => {
                let collected = CollectedText(*collection, rows);
                write!(f, "{collected}")
            }
            Answer::Refused(refusal) => {
                let refusal = RefusalText(refusal);
                write!(f, "refused {refusal}")
            }
            Answer::NoClaim => f.write_str("no claim"),
        }
    }
}

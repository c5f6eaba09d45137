// The text of a response as it was stored.
ghost use Rattle.std.specs.Prelude.{Some};
ghost use Rattle.script.specs.Answer.{stored_text};

use room::answers::StoredTerms;
use std::fmt;

/// The size and the price of a response as it was stored.
#[derive(Clone, Copy)]
pub struct StoredText(pub StoredTerms);

impl fmt::Display for StoredText {
    ghost output = { λ x. Some (stored_text x.0) };

    fn fmt<W: fmt::Write>(&self, f: &mut fmt::Formatter<W>) -> fmt::Result {
        let StoredTerms { price, size } = self.0;
        write!(f, "{size} @ {price}")
    }
}

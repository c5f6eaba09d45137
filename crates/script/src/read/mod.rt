// Reading a line of a script.
ghost use Rattle.std.specs.Prelude.{◌≡◌};
ghost use Rattle.script.specs.Readers.{with_rest};
ghost use Rattle.script.specs.Grammar.{range, statement_after, statement_in, statement_of};

use crate::misread::{Expected, Misread};
use crate::statement::{RangeQuestion, Statement};
use crate::words::Words;
use market::side::Side;
use session::call::Call;

mod calls;
mod named;
mod parts;
mod settings;

impl<'a> Words<'a> {
    #[tactic(auto, unfolding(crate::specs::Grammar::range))]
    fn range(&mut self) -> Result<Statement, Misread>
        ensures { with_rest result self.new ≡ range self.old }
    {
        let side: Side = self.one_of(Expected::Side)?;
        let limit = self.price(Expected::Limit)?;
        Ok(Statement::Range(RangeQuestion { side, limit }))
    }

    // What follows a statement's first word, in a script of the room of this number.
    #[tactic(auto, unfolding(crate::specs::Grammar::statement_after))]
    fn statement_after(&mut self, room: u32, word: &str) -> Result<Statement, Misread>
        ensures { with_rest result self.new ≡ statement_after room word.now self.old }
    {
        match word {
            "room" => self.room(),
            "leg" => self.leg(),
            "ranking" => self.ranking(),
            "interval" => self.interval(),
            "tick" => self.tick(),
            "open" => self.open_auction(),
            "respond" => self.respond(),
            "change" => self.change(),
            "withdraw" => self.withdraw(),
            "halt" => self.halt(),
            "resume" => self.resume(),
            "clock" => self.clock(),
            "look" => Ok(Statement::Call(Call::Look)),
            "collect" => self.collect(room),
            "range" => self.range(),
            _ => Err(Misread::Unknown(Expected::Statement)),
        }
    }

    // What all words say: a statement, or nothing where there are none.
    fn statement(&mut self, room: u32) -> Result<Option<Statement>, Misread>
        ensures { result ≡ statement_of room self.old }
    {
        let Some(first) = self.next() else {
            return Ok(None);
        };
        let statement = self.statement_after(room, first)?;
        match self.next() {
            None => Ok(Some(statement)),
            Some(_) => Err(Misread::Surplus),
        }
    }
}

/// What a line says, without its line end, in a script of the room of this number: a statement, or nothing
/// where it is blank or a comment. Where it is neither, the first place from the left that is wrong is
/// told.
pub fn read_statement(room: u32, line: &str) -> Result<Option<Statement>, Misread>
    ensures { result ≡ statement_in room line.now }
{
    Words::of(line).statement(room)
}

/// Where a line is wrong: a column, counted from 1 in characters, and the word that begins there. There is
/// no word where the line ends too soon, and where all of the line is wrong though it is a statement.
#[derive(Clone, Copy)]
pub struct Stop<'a> {
    /// The column, counted from 1.
    pub column: usize,
    /// The word that begins there.
    pub word: Option<&'a str>,
}

// The first word of a line.
fn start_of(line: &str) -> usize {
    let mut words = Words::of(line);
    let _first = words.next();
    words.last_column()
}

/// Where the reading of a line stops. A statement is wrong from its first word on.
pub fn stop_in(line: &str) -> Stop<'_> {
    let mut words = Words::of(line);
    match words.statement(0) {
        Err(Misread::Missing(_)) => Stop {
            column: words.column_behind_last(),
            word: None,
        },
        Err(_) => Stop {
            column: words.last_column(),
            word: Some(words.last_word()),
        },
        Ok(_) => Stop {
            column: start_of(line),
            word: None,
        },
    }
}

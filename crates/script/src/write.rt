// Writing statements: each as the line that says it.
ghost use Rattle.std.specs.Prelude.{◌≡◌, ℕ, Some, Ok};
ghost use Rattle.script.specs.declared.statement.Statement.{Statement};
ghost use Rattle.script.specs.Grammar.{statement_in};
ghost use Rattle.script.specs.Fits.{StatementFits};
ghost use Rattle.script.specs.Write.{with_blanks, ranking_name, guarantee_name, book_price_word, interval_words, setting_words, tick_words, opening_words, response_words, call_words, statement_text};

use crate::chosen::ChosenRanking;
use crate::statement::{IntervalTerms, RangeQuestion, Setting, Statement};
use crate::transcript::rows::KindText;
use allocation::order::GuaranteeKind;
use market::better_of::Half;
use market::cube::CubeTick;
use room::requests::{ChangeRequest, OpeningRequest, ResponseRequest, WithdrawRequest};
use session::call::Call;
use std::fmt;

impl fmt::Display for ChosenRanking {
    ghost output = { λ x. Some (ranking_name x) };

    fn fmt<W: fmt::Write>(&self, f: &mut fmt::Formatter<W>) -> fmt::Result {
        f.write_str(match self {
            ChosenRanking::Arrival => "arrival",
            ChosenRanking::Size => "size",
        })
    }
}

// A guarantee, by its word.
#[derive(Clone, Copy)]
struct GuaranteeWord(GuaranteeKind);

impl fmt::Display for GuaranteeWord {
    ghost output = { λ x. Some (guarantee_name x.0) };

    fn fmt<W: fmt::Write>(&self, f: &mut fmt::Formatter<W>) -> fmt::Result {
        f.write_str(match self.0 {
            GuaranteeKind::SingleStop => "stop",
            GuaranteeKind::AutoMatchLimit => "match",
        })
    }
}

// A price of the book, which may be none.
#[derive(Clone, Copy)]
struct BookPrice(Option<i64>);

impl fmt::Display for BookPrice {
    ghost output = { λ x. Some (book_price_word x.0) };

    fn fmt<W: fmt::Write>(&self, f: &mut fmt::Formatter<W>) -> fmt::Result {
        match self.0 {
            None => f.write_str("none"),
            Some(price) => write!(f, "{price}"),
        }
    }
}

impl fmt::Display for IntervalTerms {
    ghost output = { λ x. Some (with_blanks (interval_words x)) };

    fn fmt<W: fmt::Write>(&self, f: &mut fmt::Formatter<W>) -> fmt::Result {
        match *self {
            IntervalTerms::Fixed { milliseconds } => write!(f, "fixed {milliseconds}"),
            IntervalTerms::Drawn { seed } => write!(f, "drawn {seed}"),
        }
    }
}

impl fmt::Display for Setting {
    ghost output = { λ x. Some (with_blanks (setting_words x)) };

    fn fmt<W: fmt::Write>(&self, f: &mut fmt::Formatter<W>) -> fmt::Result {
        match *self {
            Setting::Room { number } => write!(f, "room {number}"),
            Setting::Leg(leg) => {
                let side = leg.side;
                let ratio = leg.ratio;
                write!(f, "leg {side} {ratio}")
            }
            Setting::Ranking(ranking) => write!(f, "ranking {ranking}"),
            Setting::Interval(terms) => write!(f, "interval {terms}"),
        }
    }
}

// A tick of the market, from the half that it is for on.
#[derive(Clone, Copy)]
struct TickText<'a>(&'a CubeTick);

impl fmt::Display for TickText<'_> {
    ghost output = { λ x. Some (with_blanks (tick_words x.0.now)) };

    fn fmt<W: fmt::Write>(&self, f: &mut fmt::Formatter<W>) -> fmt::Result {
        match self.0 {
            Half::Left(quote) => {
                let bid = BookPrice(quote.bid);
                let offer = BookPrice(quote.offer);
                write!(f, "book {bid} {offer}")
            }
            Half::Right(tick) => {
                let leg = tick.leg;
                let bid = tick.quote.bid;
                let offer = tick.quote.offer;
                write!(f, "leg {leg} {bid} {offer}")
            }
        }
    }
}

// An opening, behind its first word.
#[derive(Clone, Copy)]
struct OpeningText(OpeningRequest);

impl fmt::Display for OpeningText {
    ghost output = { λ x. Some (with_blanks (opening_words x.0)) };

    fn fmt<W: fmt::Write>(&self, f: &mut fmt::Formatter<W>) -> fmt::Result {
        let OpeningRequest {
            time,
            member,
            order,
        } = self.0;
        let side = order.side;
        let size = order.size;
        let limit = order.limit;
        let guarantee = GuaranteeWord(order.guarantee.kind);
        let price = order.guarantee.price;
        write!(
            f,
            "{time} {member} {side} {size} @ {limit} {guarantee} {price}"
        )
    }
}

// A response, behind its first word.
#[derive(Clone, Copy)]
struct ResponseText(ResponseRequest);

impl fmt::Display for ResponseText {
    ghost output = { λ x. Some (with_blanks (response_words x.0)) };

    fn fmt<W: fmt::Write>(&self, f: &mut fmt::Formatter<W>) -> fmt::Result {
        let ResponseRequest {
            time,
            member,
            own_number,
            side,
            kind,
            class,
            size,
            price,
        } = self.0;
        let kind = KindText(kind);
        write!(
            f,
            "{time} {member} {own_number} {side} {kind} {class} {size} @ {price}"
        )
    }
}

// A call. A collecting names its auction alone, since a script has one room.
#[derive(Clone, Copy)]
struct CallText<'a>(&'a Call<CubeTick>);

impl fmt::Display for CallText<'_> {
    ghost output = { λ x. Some (with_blanks (call_words x.0.now)) };

    fn fmt<W: fmt::Write>(&self, f: &mut fmt::Formatter<W>) -> fmt::Result {
        match self.0 {
            Call::Open(request) => {
                let opening = OpeningText(*request);
                write!(f, "open {opening}")
            }
            Call::Respond(request) => {
                let response = ResponseText(*request);
                write!(f, "respond {response}")
            }
            Call::Change(request) => {
                let ChangeRequest {
                    time,
                    member,
                    own_number,
                    size,
                    price,
                } = *request;
                write!(f, "change {time} {member} {own_number} {size} @ {price}")
            }
            Call::Withdraw(request) => {
                let WithdrawRequest {
                    time,
                    member,
                    own_number,
                } = *request;
                write!(f, "withdraw {time} {member} {own_number}")
            }
            Call::Tick { time, tick } => {
                let tick = TickText(tick);
                write!(f, "tick {time} {tick}")
            }
            Call::Halt { time } => write!(f, "halt {time}"),
            Call::Resume { time } => write!(f, "resume {time}"),
            Call::Clock { time } => write!(f, "clock {time}"),
            Call::Look => f.write_str("look"),
            Call::Collect { claim, rows } => {
                let auction = claim.auction;
                write!(f, "collect {auction} {rows}")
            }
        }
    }
}

impl fmt::Display for Statement {
    ghost output = { λ x. Some (statement_text x) };

    fn fmt<W: fmt::Write>(&self, f: &mut fmt::Formatter<W>) -> fmt::Result {
        match self {
            Statement::Setting(setting) => write!(f, "{setting}"),
            Statement::Call(call) => {
                let call = CallText(call);
                write!(f, "{call}")
            }
            Statement::Range(question) => {
                let RangeQuestion { side, limit } = *question;
                write!(f, "range {side} {limit}")
            }
        }
    }
}

/// Each statement, written and read in the script of its room, is the statement again. It computes nothing.
pub fn statements_read_again()
    ensures { (room : ℕ) (s : Statement) → StatementFits room s → statement_in room (statement_text s)
        ≡ Ok (Some s) }
{}

// A whole transcript.
ghost use Rattle.std.specs.Prelude.{◌≡◌, ◌++◌, [], ◌∷◌, IfOk, OnOk, map, string_bytes, vec_items};
ghost use Rattle.std.specs.Option.{option_map};
ghost use Rattle.market.specs.Cube.{cube_position, cube_meaning};
ghost use Rattle.market.specs.Range.{permitted_range};
ghost use Rattle.script.specs.Reply.{range_reply, reply_told};
ghost use Rattle.script.specs.Told.{answer_told};
ghost use Rattle.session.specs.Closed.{closed_told, listed_told};
ghost use Rattle.session.specs.History.{tick_in};
ghost use Rattle.session.specs.SessionState.{answers_there};
ghost use Rattle.day.specs.Calls.{call_in, calls_in};
ghost use Rattle.day.specs.CarriedOut.{DeskBehind, answers_to, room_at, world_at};
ghost use Rattle.day.specs.Ends.{ended_number, ended_text, ended_to, first_ended_text, open_number};
ghost use Rattle.day.specs.Lines.{line_value, entry_value};
ghost use Rattle.day.specs.Whole.{WholeNotes, WholeTextOf, end_line, end_lines, market_taking, reply_line, reply_lines, whole_notes_after};

use crate::desk::{CubeDesk, desk_of};
use crate::ends::Ends;
use crate::lines::{Entry, Line};
use crate::notes::{Notes, carry_out};
use market::Market;
use market::cube::{CubeFault, CubeMarket, CubeTick, cube_market};
use market::range::PermittedRange;
use script::chosen::{ChosenInterval, ChosenRanking};
use script::setup::room_terms::RoomTerms;
use script::statement::{RangeQuestion, same_tick};
use script::transcript::answer::AnswerText;
use script::transcript::collected::CollectedText;
use script::transcript::reply::Reply;
use session::answer::Answer;
use session::call::Call;
use session::closed::ClosedAuction;
use session::laws::model_keeps_the_promise;
use std::alloc::{AllocError, Global};

fn tick_in(call: &Call<CubeTick>) -> Option<CubeTick>
    ensures { result ≡ tick_in call.now }
{
    match call {
        Call::Tick { time: _, tick } => Some(same_tick(tick)),
        _ => None,
    }
}

// The transcript has a market of its own, for questions about ranges. It takes each tick that the room
// accepted.
fn take_tick(market: &mut CubeMarket, tick: Option<CubeTick>, answer: &Answer<CubeFault>)
    ensures { cube_position market.new ≡ market_taking (cube_position market.old) tick (answer_told
        answer.now) }
{
    if let (Some(tick), Answer::Accepted) = (tick, answer) {
        let _ = market.tick(tick);
    }
}

fn range_in(market: &CubeMarket, question: RangeQuestion) -> Reply
    ensures { reply_told result ≡ range_reply (permitted_range question.side question.limit (cube_meaning.shows
        (cube_position market.now))) }
{
    let RangeQuestion { side, limit } = question;
    Reply::to_range(PermittedRange::of(market, side, limit))
}

// The number of the auction that is open at a desk, if one is: everybody may look.
fn open_number(heap: Global, desk: &mut CubeDesk) -> Result<Option<u32>, AllocError>
    ensures number { IfOk result (λ n. n ≡ open_number (room_at desk.old)) }
    ensures room { OnOk result (room_at desk.new ≡ room_at desk.old) }
    ensures ranking { OnOk result (desk.new.session.room.ranking ≡ desk.old.session.room.ranking) }
{
    match desk.call(heap, Call::Look)? {
        Answer::Looked(view) => Ok(view.auction.map(|auction| auction.number)),
        _ => Ok(None),
    }
}

// The number of the auction that is open before a call and not after it.
fn ended_number(before: Option<u32>, after: Option<u32>) -> Option<u32>
    ensures { result ≡ ended_number before after }
{
    match (before, after) {
        (Some(n), Some(m)) if n == m => None,
        _ => before,
    }
}

// Makes a call: the answer, and the auction that ended at it, where that is asked for.
fn answer_with_end(
    heap: Global,
    ends: Ends,
    desk: &mut CubeDesk,
    call: Call<CubeTick>,
) -> Result<(Answer<CubeFault>, Option<u32>), AllocError>
    ensures answer { IfOk result (λ r. answer_told r.0 ∷ []
        ≡ answers_to (world_at desk.old) (room_at desk.old) (call ∷ [])) }
    ensures ended { IfOk result (λ r. ended_text r.1
        ≡ first_ended_text (ended_to ends (world_at desk.old) (room_at desk.old) (call ∷ []))) }
    ensures desk { OnOk result (DeskBehind desk.old (call ∷ []) desk.new) }
{
    match ends {
        Ends::Omitted => Ok((desk.call(heap, call)?, None)),
        Ends::Shown => {
            let before = open_number(heap, desk)?;
            let answer = desk.call(heap, call)?;
            let after = open_number(heap, desk)?;
            Ok((answer, ended_number(before, after)))
        }
    }
}

// Writes that an auction ended.
fn write_ended(text: &mut String, ended: Option<u32>) -> Result<(), AllocError>
    ensures { OnOk result (string_bytes text.new ≡ string_bytes text.old ++ ended_text ended) }
{
    if let Some(number) = ended {
        writeln!(text, "  ended {number}")?;
    }
    Ok(())
}

/// The whole transcript, as far as it is written, and the market that answers questions for ranges.
#[derive(Drop)]
pub(crate) struct WholeText {
    ends: Ends,
    market: CubeMarket,
    text: String,
}

impl Notes for WholeText {
    ghost Value = { WholeNotes };

    ghost value = { λ x. record {
      ends = x.ends;
      market = cube_position x.market;
      text = string_bytes
          x.text;
    } };

    ghost after = { whole_notes_after };

    fn take(&mut self, heap: Global, desk: &mut CubeDesk, line: Line) -> Result<(), AllocError> {
        let Line { number, entry } = line;
        match entry {
            Entry::Replied(reply) => writeln!(self.text, "{number}: {reply}")?,
            Entry::Range(question) => {
                let reply = range_in(&self.market, question);
                writeln!(self.text, "{number}: {reply}")?;
            }
            Entry::Call(call) => {
                let tick = tick_in(&call);
                let (answer, ended) = answer_with_end(heap, self.ends, desk, call)?;
                take_tick(&mut self.market, tick, &answer);
                let answer = AnswerText(&answer);
                writeln!(self.text, "{number}: {answer}")?;
                write_ended(&mut self.text, ended)?;
            }
        }
        Ok(())
    }
}

// An auction that was collected at the end of the script.
fn write_collected(text: &mut String, auction: &ClosedAuction) -> Result<(), AllocError>
    ensures { OnOk result (string_bytes text.new ≡ string_bytes text.old
        ++ end_line (closed_told auction.now)) }
{
    let number = auction.claim.auction;
    let collected = CollectedText(auction.collection, auction.rows());
    writeln!(text, "end {number}: {collected}")
}

fn write_closed(text: &mut String, closed: &Option<ClosedAuction>) -> Result<(), AllocError>
    ensures { OnOk result (string_bytes text.new ≡ string_bytes text.old
        ++ end_lines (answers_there (option_map closed_told closed.now ∷ []))) }
{
    if let Some(auction) = closed {
        write_collected(text, auction)?;
    }
    Ok(())
}

// The auctions that were collected at the end of the script, the older one first.
fn write_end(
    text: &mut String,
    first: &Option<ClosedAuction>,
    second: &Option<ClosedAuction>,
) -> Result<(), AllocError>
    ensures { OnOk result (string_bytes text.new ≡ string_bytes text.old
        ++ end_lines (listed_told first.now second.now)) }
{
    write_closed(text, first)?;
    write_closed(text, second)
}

/// Carries out the calls of the lines, and writes the answers to all lines and those at the end.
pub(crate) fn whole_text(
    heap: Global,
    lines: Vec<Line>,
    terms: RoomTerms,
    ends: Ends,
) -> Result<String, AllocError>
    ensures { IfOk result (λ text. WholeTextOf ends terms (map line_value (vec_items lines)) (string_bytes
        text)) }
{
    model_keeps_the_promise::<CubeMarket, ChosenInterval, ChosenRanking>(&terms.ranking);
    let mut desk = desk_of(heap, terms);
    let mut whole = WholeText {
        ends,
        market: cube_market(terms.legs),
        text: String::new(heap),
    };
    let written = carry_out(heap, &mut whole, &mut desk, lines);
    let closed = desk.close();
    written?;
    let mut text = whole.text;
    write_end(&mut text, &closed.first, &closed.second)?;
    Ok(text)
}

// Writes a line that is answered at once.
fn write_reply(text: &mut String, line: &Line) -> Result<(), AllocError>
    ensures { OnOk result (string_bytes text.new ≡ string_bytes text.old
        ++ reply_line line.now.number (entry_value line.now.entry)) }
{
    if let Entry::Replied(reply) = &line.entry {
        let number = line.number;
        writeln!(text, "{number}: {reply}")?;
    }
    Ok(())
}

/// The text of lines for which there is no room.
pub(crate) fn replies_text(heap: Global, lines: &[Line]) -> Result<String, AllocError>
    ensures { IfOk result (λ text. string_bytes text ≡ reply_lines (map line_value lines.now)) }
{
    let mut text = String::new(heap);
    for line in lines {
        write_reply(&mut text, line)?;
    }
    Ok(text)
}

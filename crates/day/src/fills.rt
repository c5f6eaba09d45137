// The fills of all collectings of a script, as values.
ghost use Rattle.std.specs.Prelude.{◌≡◌, ◌++◌, [], ◌∷◌, IfOk, OnOk, map, vec_items, Some};
ghost use Rattle.std.specs.Option.{option_map};
ghost use Rattle.allocation.specs.Cause.{cause_letter};
ghost use Rattle.script.specs.Told.{answer_told};
ghost use Rattle.session.specs.Closed.{closed_told, listed_told};
ghost use Rattle.session.specs.History.{auction_in, order_in};
ghost use Rattle.session.specs.SessionState.{answers_there};
ghost use Rattle.day.specs.Fills.{FillNotes, FillsOf, ScriptFills, fill_value, fills_at_end, fills_closed, fills_collected, fill_notes_after, fills_of, order_of, order_opened};
ghost use Rattle.day.specs.Lines.{line_value};

use crate::desk::{CubeDesk, desk_of};
use crate::lines::{Entry, Line, Script};
use crate::notes::{Notes, carry_out};
use allocation::cause::EndCause;
use allocation::fill::FillRow;
use allocation::order::PairedOrder;
use market::cube::{CubeFault, CubeMarket, CubeTick};
use market::side::Side;
use script::chosen::{ChosenInterval, ChosenRanking};
use script::setup::room_terms::RoomTerms;
use session::answer::Answer;
use session::call::Call;
use session::closed::ClosedAuction;
use session::laws::model_keeps_the_promise;
use std::alloc::{AllocError, Global};

/// A row of a fill list, with what is told of its auction.
#[derive(Clone, Copy)]
pub struct Fill {
    /// The auction's number.
    pub auction: u32,
    /// The side of its order.
    pub side: Side,
    /// The contracts of its order.
    pub size: u32,
    /// Why it ended.
    pub cause: EndCause,
    /// The row of the fill list.
    pub row: FillRow,
}

/// The order of an opening that was accepted, with its auction's number.
#[derive(Clone, Copy)]
pub(crate) struct OpenedOrder {
    auction: u32,
    side: Side,
    size: u32,
}

// The order that a call hands in.
fn order_in(call: &Call<CubeTick>) -> Option<PairedOrder>
    ensures { result ≡ order_in call.now }
{
    match call {
        Call::Open(request) => Some(request.order),
        _ => None,
    }
}

// The auction whose claim a call hands in.
fn auction_in(call: &Call<CubeTick>) -> Option<u32>
    ensures { result ≡ auction_in call.now }
{
    match call {
        Call::Collect { claim, rows: _ } => Some(claim.auction),
        _ => None,
    }
}

// The order of the last opening that was told this auction's number. No more than two auctions wait or are
// open, so it is one of the last.
fn order_of(orders: &[OpenedOrder], auction: u32) -> Option<OpenedOrder>
    ensures { result ≡ order_of orders.now auction }
{
    orders
        .iter()
        .rev()
        .find(|order| order.auction == auction)
        .copied()
}

// Notes the order of an opening that was accepted.
fn note_order(
    orders: &mut Vec<OpenedOrder>,
    order: Option<PairedOrder>,
    answer: &Answer<CubeFault>,
) -> Result<(), AllocError>
    ensures { OnOk result (orders.new.items ≡ orders.old.items
        ++ order_opened order (answer_told answer.now)) }
{
    if let (Some(order), Answer::Opened(claim)) = (order, answer) {
        orders.push(OpenedOrder {
            auction: claim.auction,
            side: order.side,
            size: order.size,
        })?;
    }
    Ok(())
}

// Notes the rows of an auction with this order.
fn note_rows(
    fills: &mut Vec<Fill>,
    order: OpenedOrder,
    auction: u32,
    cause: EndCause,
    rows: &[FillRow],
) -> Result<(), AllocError>
    ensures { OnOk result (map fill_value fills.new.items ≡ map fill_value fills.old.items
        ++ fills_of (Some order) auction (cause_letter cause) rows.now) }
{
    let OpenedOrder {
        auction: _,
        side,
        size,
    } = order;
    for row in rows {
        fills.push(Fill {
            auction,
            side,
            size,
            cause,
            row: *row,
        })?;
    }
    Ok(())
}

// Notes the fills of a collecting of this auction.
fn note_collected(
    fills: &mut Vec<Fill>,
    orders: &[OpenedOrder],
    auction: Option<u32>,
    answer: &Answer<CubeFault>,
) -> Result<(), AllocError>
    ensures { OnOk result (map fill_value fills.new.items ≡ map fill_value fills.old.items
        ++ fills_collected orders.now auction (answer_told answer.now)) }
{
    if let (Some(auction), Answer::Collected(collection, rows)) = (auction, answer) {
        if let Some(order) = order_of(orders, auction) {
            note_rows(fills, order, auction, collection.cause, rows)?;
        }
    }
    Ok(())
}

/// The fills so far, and the orders of the auctions that were opened.
#[derive(Drop)]
struct FillsSoFar {
    orders: Vec<OpenedOrder>,
    fills: Vec<Fill>,
}

impl Notes for FillsSoFar {
    ghost Value = { FillNotes };

    ghost value = { λ x. record { orders = x.orders.items; fills = map fill_value x.fills.items } };

    ghost after = { fill_notes_after };

    fn take(&mut self, heap: Global, desk: &mut CubeDesk, line: Line) -> Result<(), AllocError> {
        if let Entry::Call(call) = line.entry {
            let order = order_in(&call);
            let auction = auction_in(&call);
            let answer = desk.call(heap, call)?;
            note_collected(&mut self.fills, &self.orders, auction, &answer)?;
            note_order(&mut self.orders, order, &answer)?;
        }
        Ok(())
    }
}

// Notes the fills of an auction that was collected at the end of the script.
fn note_closed(
    fills: &mut Vec<Fill>,
    orders: &[OpenedOrder],
    auction: &ClosedAuction,
) -> Result<(), AllocError>
    ensures { OnOk result (map fill_value fills.new.items ≡ map fill_value fills.old.items
        ++ fills_closed orders.now (closed_told auction.now)) }
{
    let number = auction.claim.auction;
    match order_of(orders, number) {
        Some(order) => note_rows(
            fills,
            order,
            number,
            auction.collection.cause,
            auction.rows(),
        ),
        None => Ok(()),
    }
}

fn note_if_closed(
    fills: &mut Vec<Fill>,
    orders: &[OpenedOrder],
    closed: &Option<ClosedAuction>,
) -> Result<(), AllocError>
    ensures { OnOk result (map fill_value fills.new.items ≡ map fill_value fills.old.items
        ++ fills_at_end orders.now (answers_there (option_map closed_told closed.now ∷ []))) }
{
    match closed {
        Some(auction) => note_closed(fills, orders, auction),
        None => Ok(()),
    }
}

// The auctions that were collected at the end of the script, the older one first.
fn note_end(
    fills: &mut Vec<Fill>,
    orders: &[OpenedOrder],
    first: &Option<ClosedAuction>,
    second: &Option<ClosedAuction>,
) -> Result<(), AllocError>
    ensures { OnOk result (map fill_value fills.new.items ≡ map fill_value fills.old.items
        ++ fills_at_end orders.now (listed_told first.now second.now)) }
{
    note_if_closed(fills, orders, first)?;
    note_if_closed(fills, orders, second)
}

// Carries out the calls of the lines: the fills of their collectings, and of those at the end.
fn fills_of_lines(heap: Global, lines: Vec<Line>, terms: RoomTerms) -> Result<Vec<Fill>, AllocError>
    ensures { IfOk result (λ fills. FillsOf terms (map line_value (vec_items lines)) (map fill_value
        (vec_items fills))) }
{
    model_keeps_the_promise::<CubeMarket, ChosenInterval, ChosenRanking>(&terms.ranking);
    let mut desk = desk_of(heap, terms);
    let mut noted = FillsSoFar {
        orders: Vec::new(heap),
        fills: Vec::new(heap),
    };
    let written = carry_out(heap, &mut noted, &mut desk, lines);
    let closed = desk.close();
    written?;
    let FillsSoFar { orders, fills } = noted;
    let mut fills = fills;
    note_end(&mut fills, &orders, &closed.first, &closed.second)?;
    Ok(fills)
}

/// Carries out a script: the fills of all its collectings in their order, and of those at its end.
pub fn fills(heap: Global, script: &str) -> Result<Vec<Fill>, AllocError>
    ensures { IfOk result (λ fills. ScriptFills script.now (map fill_value (vec_items fills))) }
{
    let Script { lines, room } = Script::read(heap, script)?;
    match room {
        Some(terms) => fills_of_lines(heap, lines, terms),
        None => Ok(Vec::new(heap)),
    }
}

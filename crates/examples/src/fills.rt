// Orders with their responses, shared out under both rankings: who gets how many contracts at which price.
use allocation::auction::Auction;
use allocation::fill::{FillRow, LEAST_ROWS};
use allocation::order::{Guarantee, GuaranteeKind, PairedOrder};
use allocation::ranking::{EarlierArrival, LargerSize, Ranking};
use allocation::response::Class::{self, Customer, Other};
use allocation::response::{Kind, NewTerms, Response, ResponseId};
use allocation::terms::AuctionTerms;
use market::side::Side::{self, Buy, Sell};
use std::io;

fn order(side: Side, size: u32, kind: GuaranteeKind, price: i64) -> PairedOrder {
    PairedOrder {
        side,
        size,
        limit: 300,
        guarantee: Guarantee { kind, price },
    }
}

// The first response of a member, at a turned price; it gets its arrival number where it is stored.
fn first_of(member: u8, class: Class, size: u32, price: i64) -> Response {
    Response {
        member,
        own_number: 1,
        kind: Kind::Sealed,
        class,
        size,
        price,
        arrival: 0,
    }
}

// Stores a response, if it may be stored.
fn store(auction: &mut Auction, response: Response) -> bool {
    let may = auction.may_store(&response);
    if may {
        auction.store(response);
    }
    may
}

// Changes a response, if it may be changed so.
fn change(auction: &mut Auction, of: ResponseId, to: NewTerms) -> bool {
    let may = auction.may_change(of, to);
    if may {
        auction.change(of, to);
    }
    may
}

// Withdraws a response, if it stands.
fn withdraw(auction: &mut Auction, of: ResponseId) -> bool {
    let stands = auction.response_of(of).is_some();
    if stands {
        auction.withdraw(of);
    }
    stands
}

// Whether all may stand; each is stored, up to one that may not. Its place among them, from 1, is its arrival number.
// The demo has one alike: no layer holds what only programs call, and neither program rests on the other.
fn store_all(auction: &mut Auction, told: &[Response]) -> bool {
    (1..=u32::MAX).zip(told).all(|(arrival, response)| {
        let response = Response {
            arrival,
            ..*response
        };
        store(auction, response)
    })
}

fn print_rows(rt: &HostRuntime, rows: &[FillRow]) -> io::Result<()> {
    for row in rows {
        let FillRow {
            price,
            member,
            class,
            filled,
            left,
            ..
        } = *row;
        print!(rt; "    {price} ")?;
        if member == 0 {
            print!(rt; "contra")?;
        } else {
            print!(rt; "{class}")?;
        }
        println!(rt; " {member} filled {filled} left {left}")?;
    }
    Ok(())
}

// One row too few for every fill list.
const ONE_LESS: usize = LEAST_ROWS - 1;

// One row more than any fill list needs.
const ONE_MORE: usize = LEAST_ROWS + 1;

// The fill list, and that the row behind it is as it was.
fn print_fills<R: Ranking>(rt: &HostRuntime, ranking: &R, auction: &Auction) -> io::Result<()> {
    let mut rows = [FillRow::BLANK; ONE_MORE];
    rows[LEAST_ROWS].left = 77;
    match auction.fill(ranking, &mut rows) {
        Ok(count) => {
            let behind = rows[LEAST_ROWS].left;
            println!(rt; "  {count} rows, and the last place has {behind}")?;
            print_rows(rt, rows.get(..count).unwrap_or(&[]))
        }
        Err(refusal) => println!(rt; "  refusal {}", refusal.number()),
    }
}

// An auction of the order in this range of turned prices, if it can have it.
fn auction_in(order: PairedOrder, floor: i64, initiating: i64) -> Option<Auction> {
    let terms = AuctionTerms {
        order,
        floor,
        initiating,
    };
    if !terms.hold() {
        return None;
    }
    Some(Auction::new(terms))
}

// An auction of the order in the range of prices from 294 to 304, which for a sell order are turned.
fn auction_of(order: PairedOrder) -> Option<Auction> {
    match order.side {
        Buy => auction_in(order, 294, 304),
        Sell => auction_in(order, -304, -294),
    }
}

// An order with the responses to it.
#[derive(Clone, Copy)]
struct Case<'a> {
    title: &'a str,
    order: PairedOrder,
    told: &'a [Response],
}

impl Case<'_> {
    fn work<R: Ranking>(&self, rt: &HostRuntime, ranking: &R) -> io::Result<()> {
        println!(rt; "{}", self.title)?;
        let Some(mut auction) = auction_of(self.order) else {
            return println!(rt; "  NO AUCTION HAS THESE TERMS");
        };
        let stored = store_all(&mut auction, self.told);
        println!(rt; "  all stored: {stored}")?;
        print_fills(rt, ranking, &auction)
    }
}

fn at_stop(rt: &HostRuntime) -> io::Result<()> {
    let case = Case {
        title: "stop 300, at it a customer and two others: the contra has 40% of the order, and not of what is left",
        order: order(Buy, 100, GuaranteeKind::SingleStop, 300),
        told: &[
            first_of(2, Customer, 30, 300),
            first_of(3, Other, 50, 300),
            first_of(4, Other, 20, 300),
        ],
    };
    case.work(rt, &EarlierArrival)
}

fn odd_contracts(rt: &HostRuntime) -> io::Result<()> {
    let by_arrival = Case {
        title: "31 contracts among 10, 20 and 10, by arrival",
        order: order(Buy, 31, GuaranteeKind::SingleStop, 300),
        told: &[
            first_of(2, Other, 10, 296),
            first_of(3, Other, 20, 296),
            first_of(4, Other, 10, 296),
        ],
    };
    by_arrival.work(rt, &EarlierArrival)?;
    let by_size = Case {
        title: "the same by size",
        ..by_arrival
    };
    by_size.work(rt, &LargerSize)
}

fn beyond_stop(rt: &HostRuntime) -> io::Result<()> {
    let case = Case {
        title: "responses beyond the stop get nothing",
        order: order(Buy, 100, GuaranteeKind::SingleStop, 300),
        told: &[
            first_of(2, Other, 30, 302),
            first_of(3, Other, 60, 298),
            first_of(4, Customer, 10, 301),
        ],
    };
    case.work(rt, &EarlierArrival)
}

fn one_firm(rt: &HostRuntime) -> io::Result<()> {
    let first = first_of(2, Other, 60, 298);
    let second = Response {
        own_number: 2,
        ..first_of(2, Other, 10, 298)
    };
    let two = Case {
        title: "40%, and not 50%, with two responses of one firm",
        order: order(Buy, 99, GuaranteeKind::SingleStop, 298),
        told: &[first, second],
    };
    two.work(rt, &EarlierArrival)?;
    let one = Case {
        title: "50% with one response",
        told: &[first],
        ..two
    };
    one.work(rt, &EarlierArrival)
}

fn stops(rt: &HostRuntime) -> io::Result<()> {
    at_stop(rt)?;
    odd_contracts(rt)?;
    beyond_stop(rt)?;
    one_firm(rt)
}

fn matches(rt: &HostRuntime) -> io::Result<()> {
    let cases = [
        Case {
            title: "auto-match limit 298, customers and others",
            order: order(Buy, 100, GuaranteeKind::AutoMatchLimit, 298),
            told: &[
                first_of(2, Customer, 10, 298),
                first_of(3, Other, 20, 298),
                first_of(4, Other, 10, 301),
                first_of(5, Customer, 100, 304),
            ],
        },
        Case {
            title: "auto-match limit 290, below a floor that has risen to 294: matched from the floor on",
            order: order(Buy, 100, GuaranteeKind::AutoMatchLimit, 290),
            told: &[first_of(2, Other, 20, 295), first_of(3, Other, 10, 301)],
        },
        Case {
            title: "a sell order: prices are not turned",
            order: order(Sell, 100, GuaranteeKind::SingleStop, -300),
            told: &[
                first_of(2, Customer, 30, -300),
                first_of(3, Other, 50, -300),
                first_of(4, Other, 20, -302),
            ],
        },
    ];
    for case in cases {
        case.work(rt, &EarlierArrival)?;
    }
    Ok(())
}

fn edges(rt: &HostRuntime) -> io::Result<()> {
    println!(rt;
        "no auction has a stop below its floor, a guarantee above the initiating price, or no size"
    )?;
    let has_none = |size, price| {
        auction_of(order(Buy, size, GuaranteeKind::SingleStop, price)).is_none()
    };
    let below = has_none(100, 293);
    let above = has_none(100, 305);
    let empty = has_none(0, 300);
    println!(rt; "  {below} {above} {empty}")
}

// The response number `i` of 64, counted from 0: each of 16 members has four, each at its own price.
fn one_of_64(i: u8) -> Response {
    Response {
        member: i / 4 + 1,
        own_number: i % 4 + 1,
        kind: Kind::Plain,
        class: Other,
        size: 1,
        price: 200 + i64::from(i),
        arrival: u32::from(i) + 1,
    }
}

// 64 responses at 64 prices below the initiating price, each matched by the contra, which then cleans up.
fn full_table() -> Option<Auction> {
    let mut auction = auction_in(
        order(Buy, 100_000, GuaranteeKind::AutoMatchLimit, 200),
        200,
        304,
    )?;
    if !(0..64).all(|i| store(&mut auction, one_of_64(i))) {
        return None;
    }
    Some(auction)
}

// The contracts that all these rows are filled.
// The demo has one alike: no layer holds what only programs call, and neither program rests on the other.
fn added(rows: &[FillRow]) -> u32 {
    rows.iter()
        .map(|row| row.filled)
        .fold(0, u32::saturating_add)
}

fn lengths(rt: &HostRuntime) -> io::Result<()> {
    println!(rt; "64 responses at 64 prices, and the contra at each and at the end")?;
    let Some(auction) = full_table() else {
        return println!(rt; "  NOT ALL STORED");
    };
    let mut short = [FillRow::BLANK; ONE_LESS];
    match auction.fill(&EarlierArrival, &mut short) {
        Ok(_) => println!(rt; "  ACCEPTED")?,
        Err(refusal) => {
            let number = refusal.number();
            let written = added(&short);
            println!(rt; "  in {ONE_LESS} rows: refusal {number}, and {written} written")?;
        }
    }
    let mut rows = [FillRow::BLANK; LEAST_ROWS];
    match auction.fill(&EarlierArrival, &mut rows) {
        Ok(count) => {
            let all = added(&rows);
            println!(rt; "  in {LEAST_ROWS} rows: {count} rows, {all} contracts in all")
        }
        Err(_) => println!(rt; "  REFUSED"),
    }
}

// The response that a member numbered 1.
fn id_of(member: u8) -> ResponseId {
    ResponseId {
        member,
        own_number: 1,
    }
}

fn terms(size: u32, price: i64, arrival: u32) -> NewTerms {
    NewTerms {
        size,
        price,
        arrival,
    }
}

// A change gives a new arrival number, and so a later place among equals; what is withdrawn is not listed; what cannot
// stand is refused, and nothing changes.
fn changes(rt: &HostRuntime) -> io::Result<()> {
    println!(rt; "30 contracts among 20, 20 and 20: one is changed, one withdrawn")?;
    let Some(mut auction) = auction_of(order(Buy, 30, GuaranteeKind::SingleStop, 300)) else {
        return println!(rt; "  NO AUCTION HAS THESE TERMS");
    };
    let three_alike = [2, 3, 4].map(|member| first_of(member, Other, 20, 297));
    let stored = store_all(&mut auction, &three_alike);
    let changed = change(&mut auction, id_of(2), terms(21, 297, 4));
    let missing = change(&mut auction, id_of(5), terms(21, 297, 5));
    let above = change(&mut auction, id_of(3), terms(20, 305, 6));
    let again = change(&mut auction, id_of(3), terms(20, 297, 4));
    let withdrawn = withdraw(&mut auction, id_of(4));
    let twice = withdraw(&mut auction, id_of(4));
    println!(rt;
        "  stored {stored}, changed {changed} {missing} {above} {again}, withdrawn {withdrawn} {twice}"
    )?;
    print_fills(rt, &EarlierArrival, &auction)
}

pub fn work(rt: &HostRuntime) -> io::Result<()> {
    stops(rt)?;
    matches(rt)?;
    changes(rt)?;
    edges(rt)?;
    lengths(rt)
}

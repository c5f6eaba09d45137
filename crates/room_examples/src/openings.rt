// A million auctions in one room, and one more.
use crate::answer::{AnswerText, is_refusal, print_auctions, verdict};
use crate::made::{TouchDesk, collecting, desk, opening, quoting};
use session::answer::Answer;
use std::alloc::{AllocError, Global};
use std::io;

const MOST: u32 = 1_000_000;

// Opens the auction of this number, which ends the one before it; that one is then collected.
fn open_next(heap: Global, desk: &mut TouchDesk, number: u32) -> Result<bool, AllocError> {
    let opened = desk.call(heap, opening())?;
    let before = desk.call(heap, collecting(number.saturating_sub(1)))?;
    let is_opened = matches!(opened, Answer::Opened(claim) if claim.auction == number);
    let is_collected = matches!(before, Answer::Collected(..));
    Ok(is_opened && (is_collected || number == 1))
}

// How many were opened, and collected, with the number that is next.
fn count_opened(heap: Global, desk: &mut TouchDesk) -> Result<u32, AllocError> {
    let mut opened = 0_u32;
    for number in 1..=MOST {
        if open_next(heap, desk, number)? {
            opened = opened.saturating_add(1);
        }
    }
    Ok(opened)
}

fn open_all(rt: &HostRuntime, desk: &mut TouchDesk) -> io::Result<()> {
    let heap = rt.alloc();
    let _quoted = desk.call(heap, quoting())?;
    let opened = count_opened(heap, desk)?;
    println!(rt; "  accepted: {opened}{}", verdict(opened == MOST))?;
    let answer = desk.call(heap, opening())?;
    println!(rt;
        "  one more: {}{}",
        AnswerText(&answer),
        verdict(is_refusal(&answer, 17))
    )
}

/// Opens a million auctions, and one more.
pub fn work(rt: &HostRuntime) -> io::Result<()> {
    println!(rt; "A million auctions, each ended by the next and then collected:")?;
    let Some(mut desk) = desk(rt.alloc()) else {
        return println!(rt; "  no interval");
    };
    let done = open_all(rt, &mut desk);
    let closed = desk.close();
    done?;
    print_auctions(rt, &closed)
}

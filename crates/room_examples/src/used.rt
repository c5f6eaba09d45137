// The 10,000 responses and changes of a member, and one more.
use crate::answer::{AnswerText, is_refusal, is_stored, print_auctions, verdict};
use crate::made::{
    TouchCall, TouchDesk, changing, desk, opening, quoting, responding, withdrawing,
};
use std::alloc::{AllocError, Global};
use std::io;

const MOST: u32 = 10_000;

// How many of a member's first response and its changes are accepted.
fn count_stored(heap: Global, desk: &mut TouchDesk, member: u8) -> Result<u32, AllocError> {
    let mut stored = 0_u32;
    for turn in 1..=MOST {
        let call = if turn == 1 {
            responding(member, 1)
        } else {
            changing(member)
        };
        if is_stored(&desk.call(heap, call)?) {
            stored = stored.saturating_add(1);
        }
    }
    Ok(stored)
}

fn show_refused(
    rt: &HostRuntime,
    desk: &mut TouchDesk,
    name: &str,
    call: TouchCall,
) -> io::Result<()> {
    let answer = desk.call(rt.alloc(), call)?;
    println!(rt;
        "  {name}: {}{}",
        AnswerText(&answer),
        verdict(is_refusal(&answer, 27))
    )
}

fn show_stored(
    rt: &HostRuntime,
    desk: &mut TouchDesk,
    name: &str,
    call: TouchCall,
) -> io::Result<()> {
    let answer = desk.call(rt.alloc(), call)?;
    println!(rt;
        "  {name}: {}{}",
        AnswerText(&answer),
        verdict(is_stored(&answer))
    )
}

fn use_all(rt: &HostRuntime, desk: &mut TouchDesk) -> io::Result<()> {
    let heap = rt.alloc();
    let _quoted = desk.call(heap, quoting())?;
    let _opened = desk.call(heap, opening())?;
    let stored = count_stored(heap, desk, 2)?;
    println!(rt; "  accepted: {stored}{}", verdict(stored == MOST))?;
    show_refused(rt, desk, "one more change", changing(2))?;
    show_refused(rt, desk, "another response", responding(2, 2))?;
    show_stored(rt, desk, "another member's response", responding(3, 1))?;
    show_stored(rt, desk, "a withdrawal", withdrawing(2))?;
    show_refused(rt, desk, "a response in its place", responding(2, 1))
}

/// Uses up a member's responses and changes.
pub fn work(rt: &HostRuntime) -> io::Result<()> {
    println!(rt; "A member's response, changed 9,999 times:")?;
    let Some(mut desk) = desk(rt.alloc()) else {
        return println!(rt; "  no interval");
    };
    let done = use_all(rt, &mut desk);
    let closed = desk.close();
    done?;
    print_auctions(rt, &closed)
}

// A run that is handed a claim of another room.
ghost use Rattle.std.specs.Prelude.{◌≡◌, [], ◌∷◌, map, vec_items, IfOk};
ghost use Rattle.room.specs.Rooms.{claim_numbers};
ghost use Rattle.session.specs.declared.call.Call.TheVariants.{Collect};
ghost use Rattle.session.specs.Claims.{claim_to};

use crate::answer::{AnswerText, verdict};
use crate::claims::{Opened, open_in, settle, show_collected};
use crate::made::{TouchAnswer, TouchCall, collecting_in};
use allocation::ranking::EarlierArrival;
use interval::fixed::FixedInterval;
use market::touch::Touch;
use room::Room;
use room::claim::Claim;
use session::Session;
use std::alloc::{AllocError, Global};
use std::io;

// The claim 1 of room 1, and one of room 2 that nobody holds.
fn calls(heap: Global) -> Result<Vec<TouchCall>, AllocError>
    ensures { IfOk result (λ calls. vec_items calls ≡ Collect (claim_to 1 1) 129 ∷ (Collect (claim_to 2 1) 129 ∷ [])) }
{
    let mut calls = Vec::with_capacity(heap, 2)?;
    calls.push_reserved(collecting_in(1, 1));
    calls.push_reserved(collecting_in(2, 1));
    Ok(calls)
}

// The only claim of a purse.
fn only(purse: Vec<Claim>) -> Claim
    requires { map claim_numbers (vec_items purse) ≡ claim_to 1 1 ∷ [] }
    ensures { claim_numbers result ≡ claim_to 1 1 }
{
    let mut purse = purse;
    let claim = purse.pop().unwrap();
    purse.destroy_empty();
    claim
}

// The only claim of a session.
fn claim_of(session: Session<Touch, EarlierArrival, FixedInterval>) -> Claim
    requires { session.purse.numbers ≡ claim_to 1 1 ∷ [] }
    ensures { claim_numbers result ≡ claim_to 1 1 }
{
    let (_room, purse) = session.into_parts();
    only(purse)
}

// The run of room 2 with a purse that has the claim of room 1: what it answers, and the claim.
fn run_with(
    heap: Global,
    calls: Vec<TouchCall>,
    purse: Vec<Claim>,
    source: FixedInterval,
) -> (Option<Vec<TouchAnswer>>, Claim)
    requires calls { vec_items calls ≡ Collect (claim_to 1 1) 129 ∷ (Collect (claim_to 2 1) 129 ∷ []) }
    requires purse { map claim_numbers (vec_items purse) ≡ claim_to 1 1 ∷ [] }
    ensures { claim_numbers result.1 ≡ claim_to 1 1 }
{
    let room = Room::new(2, Touch::new(), EarlierArrival, source);
    let mut session = Session::new(heap, room, purse);
    match session.run(heap, calls) {
        Ok(answers) => (Some(answers), claim_of(session)),
        Err(_calls) => (None, claim_of(session)),
    }
}

fn show_answers(rt: &HostRuntime, answers: &Option<Vec<TouchAnswer>>) -> io::Result<()> {
    let Some(list) = answers else {
        return println!(rt; "    memory was wanting{}", verdict(false));
    };
    for answer in list.iter() {
        println!(rt; "    {}", AnswerText(answer))?;
    }
    Ok(())
}

/// Hands a claim of another room in to a run.
pub fn work(rt: &HostRuntime) -> io::Result<()> {
    let Ok(source) = FixedInterval::new(100) else {
        return println!(rt; "no interval");
    };
    println!(rt;
        "A run of room 2, handed the claim of room 1: that claim, and one that nobody holds:"
    )?;
    let heap = rt.alloc();
    let calls = calls(heap)?;
    let memory = Vec::with_capacity(heap, 1)?;
    let Opened { room, claim } = open_in(1, source);
    let mut own = room;
    let mut purse = memory;
    purse.push_reserved(claim);
    let (answers, claim) = run_with(heap, calls, purse, source);
    let told = settle(&mut own, claim);
    show_answers(rt, &answers)?;
    show_collected(rt, told)
}

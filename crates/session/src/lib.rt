// Sessions: a room with a purse of claims. Calls are made one by one, or a list of them in one run.
#![tactic(auto)]

ghost use Rattle.std.specs.Prelude.{◌≡◌, ◌+◌, ◌≤◌, [], ◌∷◌, ◌++◌, length, map, vec_len, vec_capacity, vec_items, IfErr, IfOk, OnErr, OnOk};
ghost use Rattle.room.specs.Rooms.{claim_numbers};
ghost use Rattle.session.specs.declared.call.Call.TheVariants.{Open, Collect};
ghost use Rattle.session.specs.Session.{CollectedAsModelled, HasMemoryFor, MadeAsModelled, session_now, session_world, RunAsModelled};
ghost use Rattle.session.specs.SessionState.{session_answers, session_end};
ghost use Rattle.session.specs.Answer.{told, told_result};

use crate::answer::Answer;
use crate::call::{Call, lists_for_all};
use crate::lists::RowLists;
use crate::purse::{Purse, TakenClaim};
use allocation::fill::{FillRow, LEAST_ROWS};
use allocation::ranking::Ranking;
use interval::source::IntervalSource;
use market::Market;
use room::Room;
use room::answers::ClaimNumbers;
use room::claim::Claim;
use room::refusal::Refusal;
use room::requests::OpeningRequest;
use std::alloc::{AllocError, Global};

pub mod answer;
pub mod call;
pub mod closed;
pub mod desk;
pub mod laws;
mod lists;
mod purse;

/// A room with a purse of claims, also of other rooms. A claim may not be let go, so a session is taken apart
/// at its end.
pub struct Session<M, R, S> {
    pub(crate) room: Room<M, R, S>,
    pub(crate) purse: Purse,
    pub(crate) lists: RowLists,
}

impl<M: Market, R: Ranking, S: IntervalSource> Session<M, R, S> {
    /// The session of a room, with these claims, also to auctions of other rooms. It takes no memory.
    pub fn new(heap: Global, room: Room<M, R, S>, claims: Vec<Claim>) -> Session<M, R, S>
        ensures room { result.room ≡ room }
        ensures claims { result.purse.numbers ≡ map claim_numbers (vec_items claims) }
    {
        Session {
            room,
            purse: Purse::new(claims),
            lists: RowLists::new(heap),
        }
    }

    /// The room, and the claims that are still held.
    pub fn into_parts(self) -> (Room<M, R, S>, Vec<Claim>)
        ensures room { result.0 ≡ self.room }
        ensures claims { map claim_numbers (vec_items result.1) ≡ self.purse.numbers }
    {
        let Session {
            room,
            purse,
            lists: _,
        } = self;
        (room, purse.into_claims())
    }

    // Takes the memory that so many calls can want, with so many lists of rows among them. Where it is
    // wanting, the lists are as many as before.
    pub(crate) fn reserve(
        &mut self,
        heap: Global,
        calls: usize,
        lists: usize,
    ) -> Result<(), AllocError>
        ensures claims { OnOk result (calls ≤ self.new.purse.free) }
        ensures lists { OnOk result (lists ≤ self.new.lists) }
        ensures no_fewer_lists { self.old.lists ≤ self.new.lists }
        ensures lists_back { OnErr result (self.new.lists ≡ self.old.lists) }
        ensures same_room { self.new.room ≡ self.old.room }
        ensures same_claims { self.new.purse.numbers ≡ self.old.purse.numbers }
    {
        self.purse.reserve(calls)?;
        self.lists.reserve(heap, lists)
    }

    // Takes the memory that a run of these calls can want, and that for its answers. This comes last: an
    // answer may hold a fault that may not be let go, and then no list of answers may be let go, not even an
    // empty one.
    fn reserve_for_all(
        &mut self,
        heap: Global,
        calls: &[Call<M::Tick>],
    ) -> Result<Vec<Answer<M::Fault>>, AllocError>
        ensures memory { OnOk result (HasMemoryFor self.new calls.now) }
        ensures answers { IfOk result (λ answers. (answers.items ≡ []) × (length calls.now ≤ vec_capacity answers)) }
        ensures lists_back { OnErr result (self.new.lists ≡ self.old.lists) }
        ensures same_room { self.new.room ≡ self.old.room }
        ensures same_claims { self.new.purse.numbers ≡ self.old.purse.numbers }
    {
        let before = self.lists.len();
        self.reserve(heap, calls.len(), lists_for_all(calls))?;
        let Ok(answers) = Vec::with_capacity(heap, calls.len()) else {
            self.lists.truncate(before);
            return Err(AllocError);
        };
        Ok(answers)
    }

    // Opens an auction and keeps the claim.
    fn open(&mut self, request: OpeningRequest) -> Result<Answer<M::Fault>, Refusal<M::Fault>>
        requires { HasMemoryFor {T = M.Tick} self.old (Open request ∷ []) }
        ensures { MadeAsModelled (session_world M.Market.meaning S.IntervalSource.meaning R.Ranking.ahead self.old)
            M.Market.position S.IntervalSource.position
            self.old self.new (told_result M.Market.told result) (Open request) }
    {
        let claim = self.room.open(request)?;
        let numbers = claim.numbers();
        self.purse.add(claim);
        Ok(Answer::Opened(numbers))
    }

    // Collects with the claim of these numbers, if the purse has one; a refusal puts it back to where it was.
    fn collect(
        &mut self,
        numbers: ClaimNumbers,
        rows: usize,
    ) -> Result<Answer<M::Fault>, Refusal<M::Fault>>
        requires { HasMemoryFor {T = M.Tick} self.old (Collect numbers rows ∷ []) }
        ensures { MadeAsModelled (session_world M.Market.meaning S.IntervalSource.meaning R.Ranking.ahead self.old)
            M.Market.position S.IntervalSource.position
            self.old self.new (told_result M.Market.told result) (Collect numbers rows) }
    {
        let Some(taken) = self.purse.take(&numbers) else {
            return Ok(Answer::NoClaim);
        };
        // The room refuses a list that is too short, whatever its length: it is lent none then.
        if rows < LEAST_ROWS {
            return self.collect_into(taken, &mut []);
        }
        self.collect_whole(taken)
    }

    // Collects into a list that has a place for every row. A function pays for its locals at its entry, so the
    // list stands in one of its own.
    fn collect_whole(&mut self, taken: TakenClaim) -> Result<Answer<M::Fault>, Refusal<M::Fault>>
        requires within { taken.index ≤ length self.old.purse.numbers }
        requires free { 1 ≤ self.old.purse.free }
        requires lists { 1 ≤ self.old.lists }
        ensures { CollectedAsModelled (session_world M.Market.meaning S.IntervalSource.meaning R.Ranking.ahead self.old)
            M.Market.position S.IntervalSource.position
            self.old self.new (told_result M.Market.told result) (claim_numbers taken.claim) taken.index 129 }
    {
        self.collect_into(taken, &mut [FillRow::BLANK; LEAST_ROWS])
    }

    // Collects into this list with a claim that was taken out of the purse. Called at two places, it would not
    // be inlined by itself, and a collecting took a fifth more time.
    #[inline(always)]
    fn collect_into(
        &mut self,
        taken: TakenClaim,
        list: &mut [FillRow],
    ) -> Result<Answer<M::Fault>, Refusal<M::Fault>>
        requires within { taken.index ≤ length self.old.purse.numbers }
        requires free { 1 ≤ self.old.purse.free }
        requires lists { 1 ≤ self.old.lists }
        requires few { length list.old ≤ 129 }
        ensures { CollectedAsModelled (session_world M.Market.meaning S.IntervalSource.meaning R.Ranking.ahead self.old)
            M.Market.position S.IntervalSource.position
            self.old self.new (told_result M.Market.told result) (claim_numbers taken.claim) taken.index
            (length list.old) }
    {
        let TakenClaim { claim, index } = taken;
        // A match: with a closure under `map_err` that puts the claim back, no proof knows what the purse
        // then holds.
        match self.room.collect(claim, list) {
            Ok(collection) => {
                let rows = self.lists.take(&list[..collection.count]);
                Ok(Answer::Collected(collection, rows))
            }
            Err((refusal, claim)) => {
                self.purse.put_back(index, claim);
                Err(refusal)
            }
        }
    }

    // Carries out one call.
    fn try_call(&mut self, call: Call<M::Tick>) -> Result<Answer<M::Fault>, Refusal<M::Fault>>
    where
        M::Tick: Drop,
        requires { HasMemoryFor self.old (call ∷ []) }
        ensures { MadeAsModelled (session_world M.Market.meaning S.IntervalSource.meaning R.Ranking.ahead self.old)
            M.Market.position S.IntervalSource.position
            self.old self.new (told_result M.Market.told result) call }
    {
        match call {
            Call::Open(request) => self.open(request),
            Call::Respond(request) => Ok(Answer::Stored(self.room.respond(request)?)),
            Call::Change(request) => Ok(Answer::Stored(self.room.change(request)?)),
            Call::Withdraw(request) => Ok(Answer::Stored(self.room.withdraw(request)?)),
            Call::Tick { time, tick } => {
                self.room.tick(time, tick)?;
                Ok(Answer::Accepted)
            }
            Call::Halt { time } => {
                self.room.halt(time)?;
                Ok(Answer::Accepted)
            }
            Call::Resume { time } => {
                self.room.resume(time)?;
                Ok(Answer::Accepted)
            }
            Call::Clock { time } => {
                self.room.clock(time)?;
                Ok(Answer::Accepted)
            }
            Call::Look => Ok(Answer::Looked(self.room.look())),
            Call::Collect { claim, rows } => self.collect(claim, rows),
        }
    }

    // The same, with a refusal among the answers.
    pub(crate) fn make_call(&mut self, call: Call<M::Tick>) -> Answer<M::Fault>
    where
        M::Tick: Drop,
        requires { HasMemoryFor self.old (call ∷ []) }
        ensures { MadeAsModelled (session_world M.Market.meaning S.IntervalSource.meaning R.Ranking.ahead self.old)
            M.Market.position S.IntervalSource.position
            self.old self.new (told M.Market.told result) call }
    {
        self.try_call(call).unwrap_or_else(Answer::Refused)
    }

    // Carries out the calls, one after another.
    fn play(&mut self, calls: Vec<Call<M::Tick>>, answers: &mut Vec<Answer<M::Fault>>)
    where
        M::Tick: Drop,
        requires memory { HasMemoryFor self.old calls.items }
        requires answers { vec_len answers.old + vec_len calls ≤ vec_capacity answers.old }
        ensures answers { map (told M.Market.told) answers.new.items
            ≡ map (told M.Market.told) answers.old.items
            ++ session_answers (session_world M.Market.meaning S.IntervalSource.meaning R.Ranking.ahead self.old)
            (session_now M.Market.position S.IntervalSource.position self.old) calls.items }
        ensures session { session_now M.Market.position S.IntervalSource.position self.new
            ≡ session_end (session_world M.Market.meaning S.IntervalSource.meaning R.Ranking.ahead self.old)
            (session_now M.Market.position S.IntervalSource.position self.old) calls.items }
        ensures ranking { self.new.room.ranking ≡ self.old.room.ranking }
    {
        for call in calls {
            answers.push_reserved(self.make_call(call));
        }
    }

    /// Carries out the calls in order, and answers each. A collecting whose claim the session does not hold
    /// makes no call. All memory is taken before the first call: where it is wanting the calls come back,
    /// none was made, and the room and the claims are as they were. What it takes for rows and does not use
    /// is let go at its end.
    pub fn run(
        &mut self,
        heap: Global,
        calls: Vec<Call<M::Tick>>,
    ) -> Result<Vec<Answer<M::Fault>>, Vec<Call<M::Tick>>>
    where
        M::Tick: Drop,
        ensures run { IfOk result (λ answers.
            RunAsModelled M.Market.told M.Market.position S.IntervalSource.position
            (session_world M.Market.meaning S.IntervalSource.meaning R.Ranking.ahead self.old)
            self.old self.new (vec_items calls) (vec_items answers)) }
        ensures calls_back { IfErr result (λ back. back ≡ calls) }
        ensures room_back { OnErr result (self.new.room ≡ self.old.room) }
        ensures claims_back { OnErr result (self.new.purse.numbers ≡ self.old.purse.numbers) }
        ensures lists_back { OnErr result (self.new.lists ≡ self.old.lists) }
        ensures no_more_lists { self.new.lists ≤ self.old.lists }
    {
        let kept = self.lists.len();
        let Ok(mut answers) = self.reserve_for_all(heap, &calls) else {
            return Err(calls);
        };
        self.play(calls, &mut answers);
        self.lists.truncate(kept);
        Ok(answers)
    }
}

// The purse of a session: the claims that it holds, and free memory for those to come.
ghost use Rattle.std.specs.Prelude.{◌≡◌, ◌+◌, ◌-◌, ◌≤◌, [], ◌∷◌, ◌++◌, length, map, if◌then◌else◌, Some, None as Nothing, position, vec_len, vec_capacity, MatchOption, OnOk};
ghost use Rattle.std.specs.List.{insert};
ghost use Rattle.std.specs.Option.{option_map};
ghost use Rattle.room.specs.Rooms.{claim_numbers};
ghost use Rattle.session.specs.Purse.{taken_numbers, same_claim, holds, without_claim};

use room::answers::ClaimNumbers;
use room::claim::Claim;
use std::alloc::AllocError;
use std::marker::Model;

// A contract sees the numbers of the claims, and for how many more memory is free.
pub(crate) struct Purse {
    claims: Vec<Claim>,
}

impl Model for Purse {
    ghost use Rattle.std.specs.Prelude.{◌-◌, map, vec_len, vec_capacity};
    ghost use Rattle.room.specs.Rooms.{claim_numbers};
    ghost use Rattle.session.specs.Purse.{PurseValue};

    ghost Value = { PurseValue };

    ghost view = { λ p. record {
      numbers = map claim_numbers p.claims.items;
      free = vec_capacity p.claims - vec_len p.claims;
    } };
}

// A claim that was taken out of a purse, and its index there.
pub(crate) struct TakenClaim {
    pub(crate) claim: Claim,
    pub(crate) index: usize,
}

// The index of the first claim of these numbers.
fn index_of(claims: &[Claim], numbers: &ClaimNumbers) -> Option<usize>
    ensures { result ≡ position (λ claim. same_claim (claim_numbers claim) numbers.now) claims.now }
{
    claims.iter().position(|claim| claim.numbers() == *numbers)
}

impl Purse {
    pub(crate) fn new(claims: Vec<Claim>) -> Purse
        ensures numbers { result.numbers ≡ map claim_numbers claims.items }
        ensures free { result.free ≡ vec_capacity claims - vec_len claims }
    {
        Purse { claims }
    }

    pub(crate) fn into_claims(self) -> Vec<Claim>
        ensures { map claim_numbers result.items ≡ self.numbers }
    {
        let Purse { claims } = self;
        claims
    }

    // Takes memory for so many claims more.
    pub(crate) fn reserve(&mut self, more: usize) -> Result<(), AllocError>
        ensures free { OnOk result (more ≤ self.new.free) }
        ensures numbers { self.new.numbers ≡ self.old.numbers }
    {
        self.claims.try_reserve(more)
    }

    // Takes out the first claim of these numbers; where there is none, the purse is as it was.
    pub(crate) fn take(&mut self, numbers: &ClaimNumbers) -> Option<TakenClaim>
        ensures claim { option_map taken_numbers result
            ≡ (if holds numbers.now self.old.numbers then Some numbers.now else Nothing) }
        ensures others { self.new.numbers ≡ without_claim numbers.now self.old.numbers }
        ensures index { MatchOption result (self.new.numbers ≡ self.old.numbers) (λ t.
            (t.index ≤ length self.new.numbers)
            × (insert self.new.numbers t.index (taken_numbers t) ≡ self.old.numbers)) }
        ensures free { MatchOption result (self.new.free ≡ self.old.free) (λ _. self.new.free ≡ self.old.free + 1) }
    {
        let index = index_of(&self.claims, numbers)?;
        Some(TakenClaim {
            claim: self.claims.remove(index),
            index,
        })
    }

    // Puts a claim to this index, before the one that stands there and those behind it.
    pub(crate) fn put_back(&mut self, index: usize, claim: Claim)
        requires within { index ≤ length self.old.numbers }
        requires free { 1 ≤ self.old.free }
        ensures numbers { self.new.numbers ≡ insert self.old.numbers index (claim_numbers claim) }
        ensures free { self.new.free + 1 ≡ self.old.free }
    {
        self.claims.insert(index, claim).unwrap();
    }

    // Adds a claim behind the others.
    pub(crate) fn add(&mut self, claim: Claim)
        requires { 1 ≤ self.old.free }
        ensures numbers { self.new.numbers ≡ self.old.numbers ++ claim_numbers claim ∷ [] }
        ensures free { self.new.free + 1 ≡ self.old.free }
    {
        self.claims.push_reserved(claim);
    }
}

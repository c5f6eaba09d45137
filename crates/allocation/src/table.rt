// The responses that stand in an auction: at most 64, since 16 members have 4 own numbers each.
ghost use Rattle.std.specs.Prelude.{◌≡◌, ◌<◌, ◌≤◌, true, not, [], ◌∷◌, ◌++◌, length, is_some, Some, nat_lt};
ghost use Rattle.allocation.specs.Table.{standing, index_of, own_response, change_at, without_index};

use crate::response::{NewTerms, Response, ResponseId};
use arrayvec::ArrayVec;

// Fixed memory, and no heap.
#[derive(Clone, Drop)]
pub struct ResponseTable {
    pub(crate) responses: ArrayVec<Response, 64>,
}

impl ResponseTable {
    // A table where no response stands.
    pub(crate) fn empty() -> ResponseTable
        ensures { standing result ≡ [] }
    {
        ResponseTable {
            responses: ArrayVec::new(),
        }
    }

    // The responses that stand, in the order in which they were stored.
    pub(crate) fn standing(&self) -> &[Response]
        ensures value { result.now ≡ standing self.now }
        ensures few { length result.now ≤ 64 }
    {
        self.responses.as_slice()
    }

    // No more responses can stand.
    pub(crate) fn is_full(&self) -> bool
        ensures { result ≡ not (nat_lt (length (standing self.now)) 64) }
    {
        self.responses.is_full()
    }

    // Stores one more response behind those that stand.
    pub(crate) fn push(&mut self, response: Response)
        requires { length (standing self.old) < 64 }
        ensures { standing self.new ≡ standing self.old ++ response ∷ [] }
    {
        self.responses.push(response);
    }

    // The index of the response of this member with this own number, which stands.
    pub(crate) fn index_of(&self, of: ResponseId) -> usize
        requires { is_some (own_response of.member of.own_number (standing self.now)) ≡ true }
        ensures value { index_of of.member of.own_number (standing self.now) ≡ Some result }
        ensures below { result < length (standing self.now) }
    {
        self.standing()
            .iter()
            .position(|row| row.id() == of)
            .unwrap()
    }

    // The standing response of this member with this own number, if there is one.
    pub(crate) fn own_response(&self, of: ResponseId) -> Option<Response>
        ensures { result ≡ own_response of.member of.own_number (standing self.now) }
    {
        self.standing().iter().find(|row| row.id() == of).copied()
    }

    // Gives the response at this index other terms, and no other response.
    pub(crate) fn rewrite(&mut self, index: usize, to: NewTerms)
        requires { index < length (standing self.old) }
        ensures { standing self.new ≡ change_at index to.size to.price to.arrival (standing self.old) }
    {
        let row = &mut self.responses[index];
        row.restore(to);
    }

    // Removes the response at this index; each one behind it comes one forward.
    pub(crate) fn remove(&mut self, index: usize)
        requires { index < length (standing self.old) }
        ensures { standing self.new ≡ without_index index (standing self.old) }
    {
        self.responses.remove(index);
    }
}

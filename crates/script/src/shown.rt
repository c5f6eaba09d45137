// What a member is shown of a transcript.
ghost use Rattle.std.specs.Prelude.{◌≡◌, cond, Some, None};
ghost use Rattle.session.specs.Runs.{Answer};
ghost use Rattle.session.specs.Learning.{shown_of};
ghost use Rattle.script.specs.Shown.{answer_shown};
ghost use Rattle.market.specs.Cube.{CubeFaultTold};

use crate::statement::Statement;
use market::cube::CubeTick;
use session::call::Call;

/// Whether a member is shown what a call is answered: looks, and its own responses, changes and withdrawals.
pub fn is_shown_to(call: &Call<CubeTick>, member: u8) -> bool
    ensures { (a : Answer CubeFaultTold) → shown_of member call.now a ≡ cond result (Some a) None }
{
    match call {
        Call::Look => true,
        Call::Respond(request) => request.member == member,
        Call::Change(request) => request.member == member,
        Call::Withdraw(request) => request.member == member,
        _ => false,
    }
}

impl Statement {
    /// Whether a member is shown what the statement is answered. Settings and questions for ranges are no
    /// calls.
    pub fn is_shown_to(&self, member: u8) -> bool
        ensures { (a : Answer CubeFaultTold) → answer_shown member self.now a ≡ cond result (Some a) None }
    {
        match self {
            Statement::Call(call) => is_shown_to(call, member),
            Statement::Setting(_) | Statement::Range(_) => false,
        }
    }
}

// The text of a refusal.
ghost use Rattle.std.specs.Prelude.{Some};
ghost use Rattle.room.specs.Refusals.{refusal_told};
ghost use Rattle.script.specs.Answer.{fault_text, refusal_text};
ghost use Rattle.market.specs.Cube.{cube_fault_told};

use market::better_of::Half;
use market::cube::CubeFault;
use room::refusal::Refusal;
use std::fmt;

// A market's fault: which half of the market refused, the cause and the place.
#[derive(Clone, Copy)]
struct FaultText<'a>(&'a CubeFault);

impl fmt::Display for FaultText<'_> {
    ghost output = { λ x. Some (fault_text (cube_fault_told x.0.now)) };

    fn fmt<W: fmt::Write>(&self, f: &mut fmt::Formatter<W>) -> fmt::Result {
        let (half, fault) = match self.0 {
            Half::Left(fault) => ("book", *fault),
            Half::Right(fault) => ("leg", *fault),
        };
        let cause = fault.cause.number();
        let place = fault.place;
        write!(f, "{half} cause {cause} place {place}")
    }
}

/// A refusal of a room: its number, and the market's fault where it holds one.
#[derive(Clone, Copy)]
pub struct RefusalText<'a>(pub &'a Refusal<CubeFault>);

impl fmt::Display for RefusalText<'_> {
    ghost output = { λ x. Some (refusal_text (refusal_told cube_fault_told x.0.now)) };

    fn fmt<W: fmt::Write>(&self, f: &mut fmt::Formatter<W>) -> fmt::Result {
        let number = self.0.number();
        match self.0 {
            Refusal::MarketFault(fault) => {
                let fault = FaultText(fault);
                write!(f, "{number} {fault}")
            }
            _ => write!(f, "{number}"),
        }
    }
}

// The desk at which the calls of a script are made, one line after another.
ghost use Rattle.std.specs.Prelude.{◌≡◌};
ghost use Rattle.market.specs.Cube.{cube_start};
ghost use Rattle.market.specs.Legs.{legs_of};
ghost use Rattle.room.specs.State.{new_room};
ghost use Rattle.day.specs.CarriedOut.{room_at};

use market::cube::{CubeMarket, cube_market};
use script::chosen::{ChosenInterval, ChosenRanking};
use script::setup::room_terms::RoomTerms;
use session::desk::Desk;
use std::alloc::Global;

/// A desk over the CUBE market, with the ranking and the interval source that a script chooses.
pub(crate) type CubeDesk = Desk<CubeMarket, ChosenRanking, ChosenInterval>;

/// A desk with the room of these terms.
pub(crate) fn desk_of(heap: Global, terms: RoomTerms) -> CubeDesk
    ensures room { room_at result ≡ new_room terms.number (cube_start (legs_of terms.legs)) terms.source }
    ensures ranking { result.session.room.ranking ≡ terms.ranking }
{
    let RoomTerms {
        number,
        legs,
        ranking,
        source,
    } = terms;
    Desk::new(heap, number, cube_market(legs), ranking, source)
}

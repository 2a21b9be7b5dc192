// A send of any routing type on a lent table (Searches 1).
#![tactic(auto)]

ghost use Rattle.std.specs.Prelude.{◌≡◌, ◌≢◌};
ghost use Rattle.table.specs.View.{view};
ghost use Rattle.answers.specs.PassOnBytes.{opened_answer};
ghost use Rattle.answers.specs.SendAnswer.{MaySendIn, BoardIn, searched, sent_on_bytes};

use answers::{Acknowledged, Rejected, SendRequest};
use common::refusal::Refusal;
use cube::{Board, RoutingType};
use layout::Layout;

// The search of a routing type: a number that is no type, which the tests of an open let no one send, is sent as type 0, as the definition has it.
fn search_by_type<L: Layout, B: Board>(
    t: &mut [u8],
    request: SendRequest,
    routing: u16,
    board: B,
) -> Result<Acknowledged, Rejected>
    requires board_of { BoardIn L.PORTS B.width (B.fold board) (view t.old) }
    requires may_send { MaySendIn L.LENGTH t.old request.source.0 request.target.0 request.circuit.0 request.vector }
    requires vector_nonzero { request.vector ≢ 0 }
    ensures { opened_answer result t.new ≡ searched t.old request.source.0 request.target.0 request.circuit.0 routing request.vector }
{
    match RoutingType::sent_as(routing) {
        RoutingType::Maze => search::maze::<L, B>(t, request, board),
        RoutingType::Helix => helix::try_each::<L, B>(t, request, board),
        RoutingType::Fixed => helix::try_lowest::<L, B>(t, request, board),
        RoutingType::AlternateMaze => search::alternate_maze::<L, B>(t, request, board),
    }
}

// A send of a routing type on a board. No search is told the type, so it is no part of the request. Where its
// search is route rejected, it asks whether a path that it may try has no blocked link: with none, waiting does not help.
fn send_by<L: Layout, B: Board>(
    t: &mut [u8],
    request: SendRequest,
    routing: u16,
    board: B,
) -> Result<Acknowledged, Rejected>
    requires board_of { BoardIn L.PORTS B.width (B.fold board) (view t.old) }
    requires may_send { MaySendIn L.LENGTH t.old request.source.0 request.target.0 request.circuit.0 request.vector }
    requires vector_nonzero { request.vector ≢ 0 }
    ensures { opened_answer result t.new ≡ sent_on_bytes t.old request.source.0 request.target.0 request.circuit.0 routing request.vector }
{
    let rejected = match search_by_type::<L, B>(t, request, routing, board) {
        Err(rejected) if rejected.refusal == Refusal::RouteRejected => rejected,
        Err(rejected) => return Err(rejected),
        Ok(found) => return Ok(found),
    };
    if reach::some_path_enabled::<L, B>(t, request, routing, board) {
        return Err(rejected);
    }
    Err(Rejected {
        refusal: Refusal::NoRoute,
        ..rejected
    })
}

// The same on the board of the table.
#[tactic(auto, unfolding(table::specs::View::view))]
pub fn send<L: Layout>(
    t: &mut [u8],
    request: SendRequest,
    routing: u16,
) -> Result<Acknowledged, Rejected>
    requires may_send { MaySendIn L.LENGTH t.old request.source.0 request.target.0 request.circuit.0 request.vector }
    requires vector_nonzero { request.vector ≢ 0 }
    ensures { opened_answer result t.new ≡ sent_on_bytes t.old request.source.0 request.target.0 request.circuit.0 routing request.vector }
{
    send_by::<L, L::Board>(t, request, routing, L::board(t))
}

// Routing types 1 and 3: helix paths (Searches 6), tried one after another. A path is looked at first and held when it is known to be free, so that a rejection
// has nothing to give back.
#![tactic(auto)]

ghost use Rattle.std.specs.Prelude.{◌≡◌, ◌≢◌, length};
ghost use Rattle.std.specs.List.{fold};
ghost use Rattle.paths.specs.HelixLinks.{helix_links};
ghost use Rattle.table.specs.View.{view};
ghost use Rattle.answers.specs.PassOnBytes.{opened_answer};
ghost use Rattle.answers.specs.SendAnswer.{MaySendIn, BoardIn, searched};
ghost use Rattle.helix.specs.HelixContracts.{hold_link, FrontLooked, MayFollow, MayTryPaths, FirstFree, sent_over};

use answers::{Acknowledged, LinkState, Rejected, SendRequest};
use common::refusal::Refusal;
use cube::{Board, Circuit, Port, VectorPorts};
use layout::Layout;
use paths::HelixPath;
use table::{Channels, Links};

// Goes along the helix path of a port until a link is not free or the target is reached: the hops of a path that is free, or the free hops at the front of one that is not.
fn free_front<L: Layout, B: Board>(
    t: &[u8],
    request: SendRequest,
    port: Port,
    board: B,
) -> Result<u16, u16>
    requires may_follow { MayFollow L.LENGTH L.PORTS B.width (B.fold board) t.now request.source.0 request.target.0 port.0 }
    ensures { FrontLooked t.now (helix_links (B.fold board) request.source.0 request.target.0 port.0) result }
{
    let mut hops: u16 = 0;
    for (node, port) in HelixPath::new(request.source, request.target, port, board) {
        let LinkState::Free = answers::link_state::<L>(t, node, port) else {
            return Err(hops);
        };
        hops += 1;
    }
    Ok(hops)
}

// Gives the links of a helix path to the circuit.
fn hold_helix<L: Layout, B: Board>(t: &mut [u8], request: SendRequest, port: Port, board: B)
    requires may_follow { MayFollow L.LENGTH L.PORTS B.width (B.fold board) t.old request.source.0 request.target.0 port.0 }
    ensures { t.new ≡ fold (hold_link request.circuit.0) t.old (helix_links (B.fold board) request.source.0 request.target.0 port.0) }
{
    for (node, port) in HelixPath::new(request.source, request.target, port, board) {
        table::set_owner::<Links<L>>(t, node, port, request.circuit);
    }
}

// The port of a helix path that was found free, its hops, and the scouts sent until then.
#[derive(Clone, Copy)]
struct FreePath {
    port: Port,
    hops: u16,
    scouts: u32,
}

// Tries the helix path of each port of a vector, from the lowest port upward, until one is free.
fn first_free<L: Layout, B: Board>(
    t: &[u8],
    request: SendRequest,
    ports: u32,
    board: B,
) -> Result<FreePath, Rejected>
    requires may_try_paths { MayTryPaths L.LENGTH L.PORTS B.width (B.fold board) t.now request.source.0 request.target.0 ports }
    ensures { FirstFree B.width t.now request.source.0 request.target.0 ports result }
{
    let mut scouts: u32 = 0;
    for port in VectorPorts::new(ports) {
        match free_front::<L, B>(t, request, port, board) {
            Ok(hops) => {
                return Ok(FreePath {
                    port,
                    hops,
                    scouts: scouts + u32::from(hops),
                });
            }
            Err(hops) => scouts += u32::from(hops),
        }
    }
    Err(Rejected {
        refusal: Refusal::RouteRejected,
        scouts,
    })
}

// The helix path of each port of a vector, in rising order, until one is free; that one is held.
fn try_ports<L: Layout, B: Board>(
    t: &mut [u8],
    request: SendRequest,
    ports: u32,
    board: B,
) -> Result<Acknowledged, Rejected>
    requires may_try_paths { MayTryPaths L.LENGTH L.PORTS B.width (B.fold board) t.old request.source.0 request.target.0 ports }
    ensures { opened_answer result t.new ≡ sent_over t.old request.source.0 request.target.0 request.circuit.0 ports }
{
    let free = first_free::<L, B>(t, request, ports, board)?;
    let receive = table::available_channel::<L>(t, request.target).ok_or(Rejected {
        refusal: Refusal::ReceiveRejected,
        scouts: free.scouts,
    })?;
    hold_helix::<L, B>(t, request, free.port, board);
    table::set_owner::<Channels<L>>(t, request.target, receive, request.circuit);
    Ok(Acknowledged {
        hops: free.hops,
        receive,
        scouts: free.scouts,
    })
}

// Searches 8, routing type 1: the helix path of each port of the send vector, with the partners of its folded ports.
pub fn try_each<L: Layout, B: Board>(
    t: &mut [u8],
    request: SendRequest,
    board: B,
) -> Result<Acknowledged, Rejected>
    requires board_of { BoardIn L.PORTS B.width (B.fold board) (view t.old) }
    requires may_send { MaySendIn L.LENGTH t.old request.source.0 request.target.0 request.circuit.0 request.vector }
    ensures { opened_answer result t.new ≡ searched t.old request.source.0 request.target.0 request.circuit.0 1 request.vector }
{
    let ports = board.with_partners(u32::from(request.vector));
    try_ports::<L, B>(t, request, ports, board)
}

// Searches 7, routing type 3: the helix path of the lowest of them, and no other: not that of its partner.
pub fn try_lowest<L: Layout, B: Board>(
    t: &mut [u8],
    request: SendRequest,
    board: B,
) -> Result<Acknowledged, Rejected>
    requires board_of { BoardIn L.PORTS B.width (B.fold board) (view t.old) }
    requires may_send { MaySendIn L.LENGTH t.old request.source.0 request.target.0 request.circuit.0 request.vector }
    requires vector_nonzero { request.vector ≢ 0 }
    ensures { opened_answer result t.new ≡ searched t.old request.source.0 request.target.0 request.circuit.0 3 request.vector }
{
    let ports = board.with_partners(u32::from(request.vector));
    let lowest = board.first_port(ports, Port(B::SEND_ARRIVAL));
    try_ports::<L, B>(t, request, 1 << lowest.0, board)
}

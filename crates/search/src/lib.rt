// The search for a free permitted path on a lent table, for routing types 0 (Searches 3) and 4 (Searches 4). Two functions that call each other: Forms 3.
#![tactic(auto)]

ghost use Rattle.std.specs.Prelude.{◌≡◌};
ghost use Rattle.entries.specs.EntryContracts.{InTable};
ghost use Rattle.table.specs.View.{view};
ghost use Rattle.answers.specs.PassOnBytes.{opened_answer};
ghost use Rattle.search.specs.SearchContracts.{Narrowed, Enabled, search_answer, receive_as, try_answer, arrive_answer, MayTry, MayArrive};
ghost use Rattle.answers.specs.SendAnswer.{MaySendIn, BoardIn, searched};

use answers::{Acknowledged, LinkState, Rejected, SendRequest};
use common::refusal::Refusal;
use cube::{Board, Circuit, Node, Port};
use layout::Layout;
use table::{Channels, Links};

// The ports of a vector that are enabled at a node: no scout leaves by another.
fn enabled_ports<L: Layout>(t: &[u8], n: Node, vector: u32) -> u32
    requires { InTable L.LENGTH L.PORTS t.now n.0 0 }
    ensures { Narrowed (view t.now) n.0 vector result × Enabled (view t.now) n.0 result }
{
    vector & table::enable_bits::<L>(t, n)
}

// What stays the same through a pass: the target, its lowest receive channel that may be taken, if one may, the circuit that holds the hops, and the board.
// What is another at each hop, its node, vector, arrival and counts, are parameters of the methods.
// A pass answers the hops of the free path that it found, and counts its scouts in a number that is lent to it: an `Option` of a number goes back from hop to hop
// in registers, and a larger answer through memory, which is slower (docs/history/PERFORMANCE.md).
#[derive(Clone, Copy)]
struct Search<B: Board> {
    target: Node,
    receive: Option<u16>,
    circuit: Circuit,
    board: B,
}

impl<B: Board> Search<B> {
    // A node tries the ports of a vector, all of them enabled. With none it rejects at once, as many do in a search that finds no path.
    #[cycle(arrive_try_in_turn_try_ports)]
    #[tactic(auto, using(crate::proofs::PortsTried::before_first_port, crate::proofs::PortsTried::no_port_left))]
    fn try_ports<L: Layout>(
        &self,
        t: &mut [u8],
        at: Node,
        vector: u32,
        arrival: Port,
        hops: u16,
        scouts: &mut u32,
    ) -> Option<u16>
        requires may_try { MayTry L.LENGTH L.PORTS B.width (B.fold self.now.board) t.old self.now.target.0 self.now.circuit.0 at.0 vector arrival.0 hops scouts.old }
        requires enabled { Enabled (view t.old) at.0 vector }
        ensures { search_answer result self.now.receive scouts.new t.new
            ≡ try_answer t.old self.now.target.0 self.now.circuit.0 (receive_as self.now.receive) at.0 vector arrival.0 hops scouts.old }
    {
        if vector == 0 {
            return None;
        }
        self.try_in_turn::<L>(t, at, vector, arrival, hops, scouts)
    }

    // Searches 17: it tries them in turn, in the helical order (Order 1), and hands on to an arrival at the next node. Each hop is held as the scout goes, and
    // given back where no free path is found behind it, or the target has no receive channel that may be taken.
    #[cycle(arrive_try_in_turn_try_ports)]
    #[tactic(auto, using(crate::proofs::PortsTried::now_within, crate::proofs::PortsTried::no_port_left))]
    fn try_in_turn<L: Layout>(
        &self,
        t: &mut [u8],
        at: Node,
        vector: u32,
        arrival: Port,
        hops: u16,
        scouts: &mut u32,
    ) -> Option<u16>
        requires may_try { MayTry L.LENGTH L.PORTS B.width (B.fold self.now.board) t.old self.now.target.0 self.now.circuit.0 at.0 vector arrival.0 hops scouts.old }
        requires enabled { Enabled (view t.old) at.0 vector }
        ensures { search_answer result self.now.receive scouts.new t.new
            ≡ try_answer t.old self.now.target.0 self.now.circuit.0 (receive_as self.now.receive) at.0 vector arrival.0 hops scouts.old }
    {
        let mut left = vector;
        // No iterator as `cube::VectorPorts` is: the helical order asks the board at each turn, and every hop of a search passes here.
        while left != 0 {
            let p = self.board.first_port(left, arrival);
            left = cube::wide_without(left, p);
            let LinkState::Free = answers::link_state_given::<L>(t, at, p, true) else {
                continue;
            };
            table::set_owner::<Links<L>>(t, at, p, self.circuit);
            *scouts += 1;
            let found = self.arrive::<L>(t, self.board.neighbour(at, p), p, hops + 1, scouts);
            match (found, self.receive) {
                (None, _) => table::set_owner::<Links<L>>(t, at, p, Circuit(0)),
                (Some(_), None) => {
                    table::set_owner::<Links<L>>(t, at, p, Circuit(0));
                    return found;
                }
                (Some(_), Some(_)) => return found,
            }
        }
        None
    }

    // A scout arrives: at the target, or at a node, which hands on to the trying of its uphill ports, those of them that are enabled.
    #[cycle(arrive_try_in_turn_try_ports)]
    fn arrive<L: Layout>(
        &self,
        t: &mut [u8],
        at: Node,
        arrival: Port,
        hops: u16,
        scouts: &mut u32,
    ) -> Option<u16>
        requires may_arrive { MayArrive L.LENGTH L.PORTS B.width (B.fold self.now.board) t.old self.now.target.0 self.now.circuit.0 at.0 arrival.0 hops scouts.old }
        ensures { search_answer result self.now.receive scouts.new t.new
            ≡ arrive_answer t.old self.now.target.0 self.now.circuit.0 (receive_as self.now.receive) at.0 arrival.0 hops scouts.old }
    {
        if at == self.target {
            return Some(hops);
        }
        let uphill = u32::from(cube::uphill_vector(at, self.target));
        let vector = enabled_ports::<L>(t, at, self.board.with_partners(uphill));
        self.try_ports::<L>(t, at, vector, arrival, hops, scouts)
    }
}

// Searches 2: a pass from a source, over the ports of a send vector: a send tries them from 0 upward, as a scout does that came in on port 7 (Order 7). Where it
// is acknowledged, the links of the path and the receive channel are held by the circuit. Routing type 0 is one pass.
// Inlined, for speed: a job's sends of one hop take 4 % more time with a call, whose answer goes through memory.
#[inline(always)]
pub fn maze<L: Layout, B: Board>(
    t: &mut [u8],
    request: SendRequest,
    board: B,
) -> Result<Acknowledged, Rejected>
    requires board_of { BoardIn L.PORTS B.width (B.fold board) (view t.old) }
    requires may_send { MaySendIn L.LENGTH t.old request.source.0 request.target.0 request.circuit.0 request.vector }
    ensures { opened_answer result t.new ≡ searched t.old request.source.0 request.target.0 request.circuit.0 0 request.vector }
{
    let vector = board.with_partners(u32::from(request.vector));
    let ports = enabled_ports::<L>(t, request.source, vector);
    let search = Search {
        target: request.target,
        receive: table::available_channel::<L>(t, request.target),
        circuit: request.circuit,
        board,
    };
    let mut scouts = 0;
    let found = search.try_in_turn::<L>(
        t,
        request.source,
        ports,
        Port(B::SEND_ARRIVAL),
        0,
        &mut scouts,
    );
    let hops = found.ok_or(Rejected {
        refusal: Refusal::RouteRejected,
        scouts,
    })?;
    let receive = search.receive.ok_or(Rejected {
        refusal: Refusal::ReceiveRejected,
        scouts,
    })?;
    table::set_owner::<Channels<L>>(t, request.target, receive, request.circuit);
    Ok(Acknowledged {
        hops,
        receive,
        scouts,
    })
}

// Routing type 4: where the pass finds no path, a second one over the ports of the cube that are not in the vector (Searches 5). The answer is that of the last
// pass, with the scouts of both. A receive rejection ends the send: the second pass would come to the same target (Searches 11).
pub fn alternate_maze<L: Layout, B: Board>(
    t: &mut [u8],
    request: SendRequest,
    board: B,
) -> Result<Acknowledged, Rejected>
    requires board_of { BoardIn L.PORTS B.width (B.fold board) (view t.old) }
    requires may_send { MaySendIn L.LENGTH t.old request.source.0 request.target.0 request.circuit.0 request.vector }
    ensures { opened_answer result t.new ≡ searched t.old request.source.0 request.target.0 request.circuit.0 4 request.vector }
{
    let vector = (cube::node_count(table::dimension(t)) - 1) ^ request.vector;
    let scouts = match maze::<L, B>(t, request, board) {
        Err(rejected) if rejected.refusal == Refusal::RouteRejected => rejected.scouts,
        Err(rejected) => return Err(rejected),
        Ok(found) => return Ok(found),
    };
    match maze::<L, B>(t, SendRequest { vector, ..request }, board) {
        Ok(found) => Ok(Acknowledged {
            scouts: scouts + found.scouts,
            ..found
        }),
        Err(rejected) => Err(Rejected {
            scouts: scouts + rejected.scouts,
            ..rejected
        }),
    }
}

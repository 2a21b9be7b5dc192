// Whether a path that a send may try crosses no blocked link, held ones allowed: what a rejected send asks, to tell whether closing circuits could help
// (Searches 13). For a pass, which has many paths, one sweep over the cube answers it, from the target outward; helix paths are walked one by one.
#![tactic(auto)]

ghost use Rattle.std.specs.Prelude.{◌≡◌, ◌<◌, ◌^◌, take};
ghost use Rattle.common.specs.Lists.{any};
ghost use Rattle.cube.specs.Cube.{next};
ghost use Rattle.cube.specs.CubeContracts.{WithPartners};
ghost use Rattle.paths.specs.Pass.{pass};
ghost use Rattle.paths.specs.Waiting.{finds_path, some_attempt};
ghost use Rattle.paths.specs.BoardPorts.{BoardPorts};
ghost use Rattle.paths.specs.CubeNetwork.{send_ports, attempts};
ghost use Rattle.paths.specs.HelixLinks.{largest};
ghost use Rattle.entries.specs.EntryContracts.{InTable};
ghost use Rattle.table.specs.View.{view, net, shape_of};
ghost use Rattle.reach.specs.Marks.{reach_mark, leads_to_marked, ReachMarks, helix_enabled, MaySweep, MayAsk, CubePort};

use answers::SendRequest;
use cube::{Board, Node, Port, RoutingType, VectorPorts};
use layout::Layout;
use paths::HelixPath;
use std::marker::PhantomData;
use table::Links;

// Whether a port of a vector leads from a node to a marked one.
fn leads_on<B: Board>(marks: &[bool; 256], n: Node, vector: u32, board: B) -> bool
    requires { (n.0 < 256) × BoardPorts B.width (largest (B.fold board)) vector }
    ensures { result ≡ leads_to_marked marks.now n.0 vector }
{
    VectorPorts::new(vector).any(
        |p|
            requires { (n.0 < 256) × (p.0 < B.width) × (next n.0 p.0 < 256) }
            ensures { result ≡ reach_mark marks.entry.now (next n.0 p.0) }
        { marks[usize::from(board.neighbour(n, p).0)] },
    )
}

// Marks the nodes that reach a target over enabled uphill links. They are taken in rising order of the vector in which they differ from the target, so that
// each looks only at nodes whose marks are there.
fn reaching<L: Layout, B: Board>(t: &[u8], target: Node, board: B) -> [bool; 256]
    requires { MaySweep L.LENGTH L.PORTS B.width (B.fold board) t.now target.0 }
    ensures { ReachMarks t.now target.0 result }
{
    let mut marks = [false; 256];
    marks[usize::from(target.0)] = true;
    for x in 1..cube::node_count(table::dimension(t)) {
        let n = Node(x ^ target.0);
        let offered = board.with_partners(u32::from(x)) & table::enable_bits::<L>(t, n);
        marks[usize::from(n.0)] = leads_on(&marks, n, offered, board);
    }
    marks
}

// A send that is asked about, on its table and for its board.
#[derive(Drop)]
struct AskedSend<'a, L: Layout, B: Board> {
    bytes: &'a [u8],
    request: SendRequest,
    board: B,
    layout: PhantomData<L>,
    ghost may_ask: { MayAsk L.LENGTH L.PORTS B.width (B.fold board) bytes.now request.source.0 request.target.0 request.vector },
}

impl<'a, L: Layout, B: Board> AskedSend<'a, L, B> {
    // Its vector with the partners of its folded ports.
    fn ports(&self) -> u32
        ensures { WithPartners (B.fold self.now.board) self.now.request.vector result × (result < 2 ^ B.width) }
    {
        self.board.with_partners(u32::from(self.request.vector))
    }

    // Whether a pass over the ports of its vector would find a path, were all circuits closed.
    fn any_path(&self) -> bool
        ensures { result ≡ finds_path (pass (net (view self.now.bytes.now)) (view self.now.bytes.now).enabled self.now.request.source.0 (send_ports (shape_of (view self.now.bytes.now)) self.now.request.vector) self.now.request.target.0) }
    {
        let marks = reaching::<L, B>(self.bytes, self.request.target, self.board);
        leads_on(
            &marks,
            self.request.source,
            self.ports() & table::enable_bits::<L>(self.bytes, self.request.source),
            self.board,
        )
    }

    // Whether the links of the helix path of a port are all enabled.
    fn helix_enabled(&self, port: Port) -> bool
        requires { CubePort B.width self.now.bytes.now port.0 }
        ensures { result ≡ helix_enabled self.now.bytes.now self.now.request.source.0 self.now.request.target.0 port.0 }
    {
        HelixPath::new(self.request.source, self.request.target, port, self.board).all(
            |(n, p)|
                requires { InTable L.LENGTH L.PORTS self.now.bytes.now n.0 p.0 }
            { table::enabled::<Links<L>>(self.bytes, n, p) },
        )
    }

    // Whether those of some port of its vector are.
    fn any_helix(&self) -> bool
        ensures { result ≡ any (helix_enabled self.now.bytes.now self.now.request.source.0 self.now.request.target.0) (send_ports (shape_of (view self.now.bytes.now)) self.now.request.vector) }
    {
        VectorPorts::new(self.ports()).any(
            |p|
                requires { CubePort B.width self.now.bytes.now p.0 }
            { self.helix_enabled(p) },
        )
    }

    // Whether those of its lowest port are.
    fn lowest_helix(&self) -> bool
        ensures { result ≡ any (helix_enabled self.now.bytes.now self.now.request.source.0 self.now.request.target.0) (take 1 (send_ports (shape_of (view self.now.bytes.now)) self.now.request.vector)) }
    {
        match VectorPorts::new(self.ports()).next() {
            Some(lowest) => self.helix_enabled(lowest),
            None => false,
        }
    }
}

// Whether a send of a routing type would find a path, were all circuits closed: whether some path that it may try crosses no blocked link. Both vectors of
// type 4 together have every port.
pub fn some_path_enabled<L: Layout, B: Board>(
    t: &[u8],
    request: SendRequest,
    routing: u16,
    board: B,
) -> bool
    requires may_ask { MayAsk L.LENGTH L.PORTS B.width (B.fold board) t.now request.source.0 request.target.0 request.vector }
    ensures { result ≡ some_attempt (net (view t.now)) (view t.now).enabled request.source.0 request.target.0 (attempts (shape_of (view t.now)) routing request.vector) }
{
    let send = AskedSend::<L, B> {
        bytes: t,
        request,
        board,
        layout: PhantomData,
    };
    // Any number is taken here and by a send, as the definition has it: a number that is no type is sent as type 0.
    match RoutingType::sent_as(routing) {
        RoutingType::Maze => send.any_path(),
        RoutingType::Helix => send.any_helix(),
        RoutingType::Fixed => send.lowest_helix(),
        RoutingType::AlternateMaze => {
            // The language has no `..send` for a struct with a ghost field.
            let vector = cube::node_count(table::dimension(t)) - 1;
            let over_all_ports = AskedSend::<L, B> {
                bytes: t,
                request: SendRequest { vector, ..request },
                board,
                layout: PhantomData,
            };
            over_all_ports.any_path()
        }
    }
}

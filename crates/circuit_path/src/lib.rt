// The path of a circuit, recovered from the links that it holds.
#![tactic(auto)]

ghost use Rattle.std.specs.Prelude.{◌≡◌, true, ◌-◌, ◌^◌, ◌≤◌, ◌<◌, length};
ghost use Rattle.entries.specs.EntryContracts.{InTable};
ghost use Rattle.common.specs.Lists.{any, lowest};
ghost use Rattle.cube.specs.Cube.{largest_dimension};
ghost use Rattle.cube.specs.CubeContracts.{WithPartners};
ghost use Rattle.cube.specs.Helical.{ports_of};
ghost use Rattle.paths.specs.BoardPorts.{BoardPorts};
ghost use Rattle.paths.specs.HelixLinks.{largest};
ghost use Rattle.layout.specs.Layout.{dimension_at};
ghost use Rattle.table.specs.View.{view, held_by};
ghost use Rattle.circuit_path.specs.CircuitSound.{end_for};
ghost use Rattle.circuit_path.specs.PathOf.{path_of};
ghost use Rattle.circuit_path.specs.OpenCircuit.{is_open_in};
ghost use Rattle.circuit_path.specs.Traced.{traced_into};
ghost use Rattle.circuit_path.specs.Follow.{holds_port, comes_back, first_hop, port_is, BoardHere, HasSourceIn};

use cube::{Board, Circuit, Node, Port};
use layout::Layout;
use table::Links;

// How many hops a path has, which a trace answers to C, and the node where it ends.
#[derive(Clone, Copy)]
pub struct WrittenPath {
    pub hops: u16,
    pub end: Node,
}

// A path as a slice of its ports, and the node where it ends.
#[derive(Clone, Copy)]
pub struct CircuitPath<'a> {
    pub ports: &'a [u8],
    pub end: Node,
}

// Whether a circuit holds the link out of a port. Table, circuit, node and vector are parameters here and below: each hop asks of another node and vector.
#[tactic(auto, unfolding(table::specs::View::view))]
fn holds<L: Layout>(t: &[u8], c: Circuit, n: Node, p: Port) -> bool
    requires { InTable L.LENGTH L.PORTS t.now n.0 p.0 }
    ensures { result ≡ held_by (view t.now) c.0 n.0 p.0 }
{
    table::owner::<Links<L>>(t, n, p) == c
}

// Whether it holds the link out of some port of a vector.
fn some_held<L: Layout>(t: &[u8], c: Circuit, n: Node, vector: u32) -> bool
    requires { InTable L.LENGTH L.PORTS t.now n.0 0 × (vector < 2 ^ L.PORTS) }
    ensures { result ≡ any (held_by (view t.now) c.0 n.0) (ports_of L.PORTS vector) }
{
    table::ports_held::<L>(t, c, n) & vector != 0
}

// Whether a port is in a vector and a circuit holds the link out of it.
#[tactic(auto, unfolding(crate::specs::Follow::holds_port, cube::specs::Bits::has, cube::specs::Bits::bit_at))]
fn holds_port<L: Layout>(t: &[u8], c: Circuit, n: Node, vector: u32, p: Port) -> bool
    requires { InTable L.LENGTH L.PORTS t.now n.0 p.0 }
    ensures { result ≡ holds_port (view t.now) c.0 n.0 vector p.0 }
{
    let q = p.0;
    (vector >> q) % 2 == 1 && holds::<L>(t, c, n, p)
}

// Whether it holds a way back too, over some port of the axis.
fn comes_back<L: Layout, B: Board>(
    t: &[u8],
    c: Circuit,
    n: Node,
    vector: u32,
    p: Port,
    board: B,
) -> bool
    requires within { InTable L.LENGTH L.PORTS t.now n.0 p.0 }
    requires board_here { BoardHere L.PORTS B.width (B.fold board) (view t.now) }
    requires small { p.0 < B.width }
    requires vector_ports { BoardPorts B.width (largest (B.fold board)) vector }
    ensures { result ≡ comes_back B.width (view t.now) c.0 n.0 vector p.0 }
{
    holds_port::<L>(t, c, n, vector, p)
        && some_held::<L>(t, c, board.neighbour(n, p), vector & board.axis_ports(p))
}

// The lowest port of a vector whose link a circuit holds at a node. No port below the lowest of the vector is looked at.
fn held_port<L: Layout, B: Board>(
    t: &[u8],
    c: Circuit,
    n: Node,
    vector: u32,
    board: B,
) -> Option<Port>
    requires within { InTable L.LENGTH L.PORTS t.now n.0 0 }
    requires board_here { BoardHere L.PORTS B.width (B.fold board) (view t.now) }
    requires small { vector < 2 ^ B.width }
    ensures { port_is B.width (lowest (holds_port (view t.now) c.0 n.0 vector) B.width 0) result }
{
    let first = cube::lowest_port(vector)?;
    // Tried with `find` and `map`, speed: the book of a full table takes 30 % more time.
    for p in first..B::SEND_ARRIVAL + 1 {
        if holds_port::<L>(t, c, n, vector, Port(p)) {
            return Some(Port(p));
        }
    }
    None
}

// The first hop of a circuit's path from its source: one whose way back it holds too, or else the lowest.
// One loop looks for both, for speed: a `find` for each took 14 % more instructions for the paths of a full table.
fn first_hop<L: Layout, B: Board>(
    t: &[u8],
    c: Circuit,
    s: Node,
    vector: u32,
    board: B,
) -> Option<Port>
    requires within { InTable L.LENGTH L.PORTS t.now s.0 0 }
    requires board_here { BoardHere L.PORTS B.width (B.fold board) (view t.now) }
    requires vector_ports { BoardPorts B.width (largest (B.fold board)) vector }
    ensures { port_is B.width (first_hop B.width (view t.now) c.0 s.0 vector) result }
{
    let mut found = None;
    for p in 0..B::SEND_ARRIVAL + 1 {
        if holds_port::<L>(t, c, s, vector, Port(p)) {
            if comes_back::<L, B>(t, c, s, vector, Port(p), board) {
                return Some(Port(p));
            }
            found = found.or(Some(Port(p)));
        }
    }
    found
}

// All ports of a table's cube, as a vector.
fn cube_ports<L: Layout, B: Board>(t: &[u8], board: B) -> u32
    requires { (length t.now ≡ L.LENGTH) × (dimension_at t.now ≤ largest_dimension) }
    ensures { WithPartners (B.fold board) (2 ^ dimension_at t.now - 1) result × (result < 2 ^ B.width) }
{
    board.with_partners(u32::from(cube::node_count(table::dimension(t)) - 1))
}

// Whether a circuit is open. `HasSource` says of a table and a circuit that its source is a node of the cube. It is a clause here and below, and that the circuit is open is one of `write_path`,
// `path` and `release::release`, which writes the bytes: a struct that lends them would be made for one call each time.
fn is_open_on<L: Layout, B: Board>(t: &[u8], c: Circuit, board: B) -> bool
    requires has_source { HasSourceIn L.LENGTH t.now c.0 }
    requires board_here { BoardHere L.PORTS B.width (B.fold board) (view t.now) }
    ensures { result ≡ is_open_in (view t.now) c.0 }
{
    some_held::<L>(t, c, cube::source_of(c), cube_ports::<L, B>(t, board))
}

#[tactic(auto, unfolding(table::specs::View::view))]
pub fn is_open<L: Layout>(t: &[u8], c: Circuit) -> bool
    requires { HasSourceIn L.LENGTH t.now c.0 }
    ensures { result ≡ is_open_in (view t.now) c.0 }
{
    is_open_on::<L, L::Board>(t, c, L::board(t))
}

// Writes the ports of an open circuit from the start of a buffer, one byte a hop in path order.
fn write_path_on<L: Layout, B: Board>(
    t: &[u8],
    c: Circuit,
    buffer: &mut [u8],
    board: B,
) -> WrittenPath
    requires has_source { HasSourceIn L.LENGTH t.now c.0 }
    requires board_here { BoardHere L.PORTS B.width (B.fold board) (view t.now) }
    requires c_value { is_open_in (view t.now) c.0 ≡ true }
    requires in_bounds { 9 ≤ length buffer.old }
    ensures hops_value { result.hops ≡ length (path_of (view t.now) c.0) }
    ensures few { result.hops ≤ 9 }
    ensures end_value { result.end.0 ≡ end_for (view t.now) c.0 (path_of (view t.now) c.0) }
    ensures buffer_after { buffer.new ≡ traced_into (path_of (view t.now) c.0) buffer.old }
{
    let mut left = cube_ports::<L, B>(t, board);
    let source = cube::source_of(c);
    let first = first_hop::<L, B>(t, c, source, left, board).unwrap();
    // A port is below 18: `try_from` would answer a failure that cannot come, here and below.
    buffer[0] = first.0 as u8;
    // The axis of the first hop may be taken again; behind it each axis is taken once. No iterator as `paths::HelixPath` is: the node where the path ends is a part of the answer.
    let mut at = board.neighbour(source, first);
    let mut hops: u16 = 1;
    while let Some(p) = held_port::<L, B>(t, c, at, left, board) {
        buffer[usize::from(hops)] = p.0 as u8;
        hops += 1;
        at = board.neighbour(at, p);
        left ^= left & board.axis_ports(p);
    }
    WrittenPath { hops, end: at }
}

#[tactic(auto, unfolding(table::specs::View::view))]
pub fn write_path<L: Layout>(t: &[u8], c: Circuit, buffer: &mut [u8]) -> WrittenPath
    requires has_source { HasSourceIn L.LENGTH t.now c.0 }
    requires c_value { is_open_in (view t.now) c.0 ≡ true }
    requires in_bounds { 9 ≤ length buffer.old }
    ensures hops_value { result.hops ≡ length (path_of (view t.now) c.0) }
    ensures few { result.hops ≤ 9 }
    ensures end_value { result.end.0 ≡ end_for (view t.now) c.0 (path_of (view t.now) c.0) }
    ensures buffer_after { buffer.new ≡ traced_into (path_of (view t.now) c.0) buffer.old }
{
    write_path_on::<L, L::Board>(t, c, buffer, L::board(t))
}

// The path of an open circuit, its ports written to a buffer.
pub fn path<'a, L: Layout>(t: &[u8], c: Circuit, buffer: &'a mut [u8; 9]) -> CircuitPath<'a>
    requires has_source { HasSourceIn L.LENGTH t.now c.0 }
    requires c_value { is_open_in (view t.now) c.0 ≡ true }
    ensures ports_value { result.ports.now ≡ path_of (view t.now) c.0 }
    ensures few { length result.ports.now ≤ 9 }
    ensures end_value { result.end.0 ≡ end_for (view t.now) c.0 (path_of (view t.now) c.0) }
{
    let written = write_path::<L>(t, c, buffer);
    CircuitPath {
        ports: &buffer[..usize::from(written.hops)],
        end: written.end,
    }
}

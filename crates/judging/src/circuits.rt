// Whether each circuit of a book has a source, a path and a send channel that a table can take.
ghost use Rattle.std.specs.Prelude.{◌≡◌, map, ◌≤◌, ◌<◌, length};
ghost use Rattle.std.specs.List.{list_all};
ghost use Rattle.table.specs.View.{view, shape_of};
ghost use Rattle.book.specs.BookContracts.{lines_left};
ghost use Rattle.judging.specs.Judged.{judge_facts, circuit_on, circuit_fits};
ghost use Rattle.judging.specs.JudgeContracts.{LinesInside, in_vector, path_fits};

use crate::cube_board::cube_ports;
use book::IndexLines;
use cube::{Board, Circuit, POSITIONS, Port};
use layout::Layout;
use table::CubeTable;

// Whether a port is in a vector of ports. Of a book it may be any byte.
fn has_port(vector: u32, port: u8) -> bool
    ensures { result ≡ in_vector vector port }
{
    u16::from(port) < POSITIONS && layout::mask_bit(vector, u16::from(port))
}

// Whether the ports of a path are the cube's, and it is permitted to the node where they lead: it is where it takes no axis twice behind the first hop, by whatever port.
fn path_fits<L: Layout>(table: &CubeTable<L>, path: &[u8]) -> bool
    requires { 1 ≤ length path.now }
    ensures { result ≡ path_fits (shape_of (view table.now.bytes.now)) path.now }
{
    let board = L::board(table.bytes);
    let mut left = cube_ports(table);
    if !has_port(left, path[0]) {
        return false;
    }
    let later = &path[1..];
    for port in later {
        if !has_port(left, *port) {
            return false;
        }
        left ^= left & board.axis_ports(Port(u16::from(*port)));
    }
    true
}

// Whether the source and the ports of a circuit are the cube's, they make a permitted path to the node where they lead, and its send channel has no open circuit.
fn circuit_fits<L: Layout>(table: &CubeTable<L>, c: Circuit, path: &[u8]) -> bool
    requires { (0 < c.0) × (1 ≤ length path.now) }
    ensures { result ≡ circuit_fits (judge_facts (view table.now.bytes.now)) (record { number = c.0; ports = path.now }) }
{
    if cube::source_of(c).0 >= table.nodes {
        return false;
    }
    path_fits(table, path) && !circuit_path::is_open::<L>(table.bytes, c)
}

// Whether each circuit of a book fits the table so.
pub fn circuits_fit<L: Layout>(table: &CubeTable<L>, lines: IndexLines, ports: &[u8]) -> bool
    requires { LinesInside ports.now (lines_left lines) }
    ensures { result ≡ list_all (circuit_fits (judge_facts (view table.now.bytes.now))) (map (circuit_on ports.now) (lines_left lines.entry)) }
{
    for line in lines {
        if !circuit_fits(table, Circuit(line.number), line.path(ports)) {
            return false;
        }
    }
    true
}

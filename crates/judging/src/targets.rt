// Whether each target of a book has enough available receive channels.
ghost use Rattle.std.specs.Prelude.{◌≡◌, true, [], map, ◌+◌, ◌≤◌, ◌<◌, ltb, get_or, set, replicate};
ghost use Rattle.cube.specs.Cube.{channels};
ghost use Rattle.table.specs.View.{view, net, shape_of, available};
ghost use Rattle.book.specs.BookContracts.{lines_left};
ghost use Rattle.judging.specs.Judged.{circuit_on, target_in, targets_fit};
ghost use Rattle.judging.specs.JudgeContracts.{LinesInCube, PortsOf, leads_to};

use crate::cube_board::board_of;
use book::IndexLines;
use cube::{Board, Circuit, Node, Port};
use layout::Layout;
use table::CubeTable;

// A byte for each node: how many circuits of the book end there.
#[derive(Clone, Copy)]
struct TargetCounts {
    of_node: [u8; 256],
}

impl TargetCounts {
    fn new() -> TargetCounts
        ensures { result.of_node ≡ replicate 256 0 }
    {
        TargetCounts { of_node: [0; 256] }
    }

    // Counts a circuit to a target, if fewer came before it than the target has available channels.
    fn add(&mut self, target: Node, available: u32) -> bool
        requires { (target.0 < 256) × (available ≤ channels) }
        ensures has_room { result ≡ ltb (get_or self.old.of_node target.0 0) available }
        ensures added { result ≡ true → self.new.of_node ≡ set self.old.of_node target.0 (get_or self.old.of_node target.0 0 + 1) }
    {
        let at = usize::from(target.0);
        if u32::from(self.of_node[at]) >= available {
            return false;
        }
        self.of_node[at] += 1;
        true
    }
}

// The node to which ports lead from another.
fn end_of<L: Layout>(table: &CubeTable<L>, from: Node, path: &[u8]) -> Node
    requires { PortsOf (shape_of (view table.now.bytes.now)) path.now }
    ensures { result.0 ≡ leads_to from.0 path.now }
{
    let board = board_of(table);
    let mut at = from;
    for port in path {
        at = board.neighbour(at, Port(u16::from(*port)));
    }
    at
}

// Whether at each target fewer circuits of the book came before one than it has available channels.
pub fn targets_fit<L: Layout>(table: &CubeTable<L>, lines: IndexLines, ports: &[u8]) -> bool
    requires { LinesInCube (shape_of (view table.now.bytes.now)) ports.now (lines_left lines) }
    ensures { result ≡ targets_fit (available (view table.now.bytes.now)) [] (map (target_in (net (view table.now.bytes.now))) (map (circuit_on ports.now) (lines_left lines.entry))) }
{
    let mut counts = TargetCounts::new();
    for line in lines {
        let source = cube::source_of(Circuit(line.number));
        let target = end_of(table, source, line.path(ports));
        if !counts.add(target, table::available_count::<L>(table.bytes, target)) {
            return false;
        }
    }
    true
}

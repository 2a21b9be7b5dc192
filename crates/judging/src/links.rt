// Whether all links that the circuits of a book use are free, and no two circuits share one.
ghost use Rattle.std.specs.Prelude.{◌≡◌, true, not, [], map, ◌<◌, get_or, replicate};
ghost use Rattle.cube.specs.Axes.{positions};
ghost use Rattle.cube.specs.Bits.{has};
ghost use Rattle.cube.specs.Cube.{NodeOf};
ghost use Rattle.paths.specs.Network.{links};
ghost use Rattle.layout.specs.Layout.{dimension_at};
ghost use Rattle.table.specs.View.{view, net, shape_of};
ghost use Rattle.answers.specs.SendOnTable.{free_in};
ghost use Rattle.book.specs.BookContracts.{lines_left};
ghost use Rattle.judging.specs.Judged.{circuit_on, links_fit, all_links};
ghost use Rattle.judging.specs.JudgeContracts.{LinesInCube, PortsOf, UsesLinks, marks_with};

use crate::cube_board::board_of;
use answers::LinkState;
use book::IndexLines;
use cube::{Board, Circuit, Node, Port};
use layout::Layout;
use table::CubeTable;

// A number for each node, with bit p set where a circuit of the book uses the link out of port p.
#[derive(Clone, Copy)]
struct UsedLinks {
    of_node: [u32; 256],
}

impl UsedLinks {
    fn new() -> UsedLinks
        ensures { result.of_node ≡ replicate 256 0 }
    {
        UsedLinks { of_node: [0; 256] }
    }

    // Marks a link as used, if no circuit of the book used it before.
    fn use_link(&mut self, n: Node, p: Port) -> bool
        requires { (n.0 < 256) × (p.0 < positions) }
        ensures is_new { result ≡ not (has (get_or self.old.of_node n.0 0) p.0) }
        ensures used { result ≡ true → self.new.of_node ≡ marks_with self.old.of_node n.0 p.0 }
    {
        let at = usize::from(n.0);
        if layout::mask_bit(self.of_node[at], p.0) {
            return false;
        }
        self.of_node[at] = layout::mask_with(self.of_node[at], p.0, true);
        true
    }
}

// Uses the links of a path one after another; false where one is not free or was used before.
fn use_path<L: Layout>(
    table: &CubeTable<L>,
    used: &mut UsedLinks,
    source: Node,
    path: &[u8],
) -> bool
    requires inside { NodeOf (dimension_at table.now.bytes.now) source.0 }
    requires ports { PortsOf (shape_of (view table.now.bytes.now)) path.now }
    ensures { UsesLinks (free_in (view table.now.bytes.now)) used.old.of_node used.new.of_node (links (net (view table.now.bytes.now)) source.0 path.now) result }
{
    let board = board_of(table);
    let mut at = source;
    for port in path {
        let p = Port(u16::from(*port));
        let LinkState::Free = answers::link_state::<L>(table.bytes, at, p) else {
            return false;
        };
        if !used.use_link(at, p) {
            return false;
        }
        at = board.neighbour(at, p);
    }
    true
}

// Whether the links of all circuits of a book can be used, each once.
pub fn links_fit<L: Layout>(table: &CubeTable<L>, lines: IndexLines, ports: &[u8]) -> bool
    requires { LinesInCube (shape_of (view table.now.bytes.now)) ports.now (lines_left lines) }
    ensures { result ≡ links_fit (free_in (view table.now.bytes.now)) [] (all_links (net (view table.now.bytes.now)) (map (circuit_on ports.now) (lines_left lines.entry))) }
{
    let mut used = UsedLinks::new();
    for line in lines {
        let source = cube::source_of(Circuit(line.number));
        if !use_path(table, &mut used, source, line.path(ports)) {
            return false;
        }
    }
    true
}

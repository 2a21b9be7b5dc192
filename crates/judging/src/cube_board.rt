// The ports of a table's cube, and the board for them.
ghost use Rattle.std.specs.Prelude.{◌≡◌};
ghost use Rattle.table.specs.View.{view, shape_of};
ghost use Rattle.judging.specs.JudgeContracts.{CubePorts, BoardOver};

use cube::Board;
use layout::Layout;
use table::CubeTable;

// All ports of a table's cube, as a vector.
pub fn cube_ports<L: Layout>(table: &CubeTable<L>) -> u32
    ensures { CubePorts L.Board.width (shape_of (view table.now.bytes.now)) result }
{
    L::board(table.bytes).with_partners(u32::from(table.nodes) - 1)
}

// The board of a table: it has a position for every port of the cube.
pub fn board_of<L: Layout>(table: &CubeTable<L>) -> L::Board
    ensures { BoardOver L.PORTS L.Board.width (L.Board.fold result) (shape_of (view table.now.bytes.now)) }
{
    // That the ports fit shows in their vector. It is asked for nothing else, so the compiler leaves it out.
    cube_ports(table);
    L::board(table.bytes)
}

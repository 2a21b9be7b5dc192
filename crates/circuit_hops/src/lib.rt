// The hops of one circuit from its source to a node, each circuit counted once.
#![tactic(auto)]

mod marks;

ghost use Rattle.std.specs.Prelude.{◌≡◌, ◌≢◌, true, ℕ, ◌<◌, ◌≤◌, IfSome};
ghost use Rattle.common.specs.Decides.{Decides};
ghost use Rattle.cube.specs.Axes.{present};
ghost use Rattle.cube.specs.Bits.{has};
ghost use Rattle.cube.specs.Cube.{source_of, NodeOf};
ghost use Rattle.layout.specs.Layout.{dimension_at};
ghost use Rattle.table.specs.TableContracts.{HeldIn};
ghost use Rattle.table.specs.View.{view};
ghost use Rattle.circuit_hops.specs.CountHops.{OnePort, Walks, Leaves, CountsHops};

use cube::{Board, Circuit, Node};
use layout::Layout;
pub use marks::{ByteMarks, Marks, WideMarks};
use table::CubeTable;

// Whether a vector has one port at most.
#[tactic(auto, using(crate::proofs::OneBit::few_ones))]
fn one_at_most(vector: u32) -> bool
    ensures { Decides (vector ≢ 0 → OnePort vector) result }
{
    vector.count_ones() <= 1
}

// The hops of a circuit that has made one, to a node: at each node the link that it holds there and whose axis is uphill, if it is the only one. None where it does not lead there.
fn walk<L: Layout>(table: &CubeTable<L>, c: Circuit, from: Node, end: Node) -> Option<u32>
    requires { (from.0 < table.now.nodes) × (end.0 < table.now.nodes) }
    ensures { Walks (view table.now.bytes.now) c.0 end.0 from.0 1 result }
{
    let board = L::board(table.bytes);
    let mut at = from;
    let mut hops = 1;
    // No iterator of nodes: each step may fail, and the order of its tests decides the speed.
    while at != end {
        // The row is read for the vector and for the count here, and `on` is tested after both: the compiler then reads it in one go, as it does not where a function answers the link.
        let held = table::ports_held::<L>(table.bytes, c, at);
        let on = held & board.with_partners(u32::from(cube::uphill_vector(at, end)));
        if table::links_held::<L>(table.bytes, c, at) > 1 {
            if !one_at_most(on) {
                return None;
            }
        }
        if on == 0 {
            return None;
        }
        at = board.neighbour_over(at, on);
        hops += 1;
    }
    Some(hops)
}

// The link by which a path to a node leaves the source of a circuit, of the links that the circuit holds there. None where there is none, or where one is none of the cube's.
fn first_link<L: Layout>(table: &CubeTable<L>, c: Circuit, held: u32, end: Node) -> Option<u32>
    requires c_in_cube { (0 < c.0) × NodeOf (dimension_at table.now.bytes.now) (source_of c.0) }
    requires held_there { HeldIn L.PORTS table.now.bytes.now c.0 (source_of c.0) held }
    requires end_in_cube { end.0 < table.now.nodes }
    ensures leaves { Leaves (view table.now.bytes.now) c.0 end.0 result }
    ensures of_cube { IfSome result (λ _. (p : ℕ) → has held p ≡ true → present (view table.now.bytes.now).dimension (view table.now.bytes.now).fold p ≡ true) }
{
    let source = cube::source_of(c);
    let board = L::board(table.bytes);
    // Whether the links are the cube's is asked in both branches, and only after them whether there is a link: in any other order the compiler reads the row entry by entry.
    let first = if table::links_held::<L>(table.bytes, c, source) > 1 {
        // Its path comes through its source again, so it went out over a port whose axis is not uphill, and those of the others are.
        let uphill = u32::from(cube::uphill_vector(source, end));
        let out = held ^ (held & board.with_partners(uphill));
        if !one_at_most(out) || !board.in_cube(held, table.nodes) {
            return None;
        }
        out
    } else {
        if !board.in_cube(held, table.nodes) {
            return None;
        }
        held
    };
    if first == 0 {
        return None;
    }
    Some(first)
}

// The hops of the circuit that holds a receive channel at a node; None where its links do not fit together or it was counted before.
pub fn hops_to<L: Layout, M: Marks>(
    table: &CubeTable<L>,
    c: Circuit,
    end: Node,
    seen: &mut M,
) -> Option<u32>
    requires circuit { 0 < c.0 }
    requires end_in_cube { end.0 < table.now.nodes }
    requires room { L.PORTS ≤ M.width }
    ensures { CountsHops (view table.now.bytes.now) c.0 end.0 (M.of_node seen.old) (M.of_node seen.new) result }
{
    if c.0 > cube::CHANNELS * table.nodes {
        return None;
    }
    let source = cube::source_of(c);
    let held = table::ports_held::<L>(table.bytes, c, source);
    let first = first_link(table, c, held, end)?;
    if !seen.mark(source, held) {
        return None;
    }
    let next = L::board(table.bytes).neighbour_over(source, first);
    walk(table, c, next, end)
}

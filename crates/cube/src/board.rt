// What a search asks of a board: its ports, where they lead, and which is tried first. Two boards are made: with 8 ports, whose first port comes from a constant table, and
// with 18, of which 10 to 17 are there where a dimension is folded.
ghost use Rattle.std.specs.Prelude.{◌≡◌, ℕ, ◌+◌, ◌≤◌, ◌<◌, ◌^◌};
ghost use Rattle.cube.specs.Axes.{positions};
ghost use Rattle.cube.specs.Cube.{port_count, next};
ghost use Rattle.cube.specs.CubeContracts.{WithPartners, AxisPorts, PortsInside, FirstByRule, FirstAsked, BoardLaws};
ghost use Rattle.cube.specs.Boards.{narrow_laws, wide_laws};

use crate::first_port_table::FIRST_PORTS;
use crate::kinds::{Node, Port};
use crate::{folds, helical, vectors};

pub trait Board: Copy {
    // Order 7: a send arrives on port 7, and on a wide board on 17: behind the last of its ports the order begins with port 0.
    const SEND_ARRIVAL: u16;

    ghost SEND_ARRIVAL: { ℕ };

    // How many positions a vector of its ports has.
    ghost width: { ℕ };

    // The fold mask of its cube.
    ghost fold: { Self → ℕ };

    // That mask as a number.
    fn fold_mask(self) -> u32
        ensures { result ≡ fold self };

    // A vector of ports below the dimension, with the partners of those that are folded.
    fn with_partners(self, vector: u32) -> u32
        requires { vector < 256 }
        ensures { WithPartners (fold self) vector result × (result < 2 ^ width) };

    // The port of a vector that is tried first after an arrival.
    fn first_port(self, vector: u32, arrival: Port) -> Port
        requires { FirstAsked width vector arrival.0 }
        ensures { FirstByRule vector arrival.0 result.0 };

    // The ports of the axis of a port: behind the first hop a path takes each axis once, by any of them.
    fn axis_ports(self, port: Port) -> u32
        requires { port.0 < width }
        ensures { AxisPorts width port.0 result };

    // The node that a port leads to.
    fn neighbour(self, node: Node, port: Port) -> Node
        requires { port.0 < width }
        ensures { result.0 ≡ next node.0 port.0 };

    // The node that the one port of a vector leads to.
    fn neighbour_over(self, node: Node, vector: u32) -> Node
        requires { (0 < vector) × (vector < 2 ^ width) }
        ensures { (p : ℕ) → vector ≡ 2 ^ p → result.0 ≡ next node.0 p };

    // Whether every port of a vector is one of a cube of so many nodes.
    fn in_cube(self, vector: u32, nodes: u16) -> bool
        requires { (0 < nodes) × (nodes ≤ 256) }
        ensures { PortsInside (fold self) vector nodes result };

    ghost laws: { BoardLaws width SEND_ARRIVAL };
}

// A board of 8 ports.
#[derive(Clone, Copy)]
pub struct NarrowBoard;

impl Board for NarrowBoard {
    const SEND_ARRIVAL: u16 = 7;

    ghost SEND_ARRIVAL = { 7 };

    ghost width = { 8 };

    ghost fold = { λ b. 0 };

    ghost laws = { narrow_laws };

    fn fold_mask(self) -> u32 {
        0
    }

    fn with_partners(self, vector: u32) -> u32 {
        vector
    }

    fn first_port(self, vector: u32, arrival: Port) -> Port {
        Port(u16::from(FIRST_PORTS[(8 * vector + u32::from(arrival.0)) as usize]))
    }

    fn axis_ports(self, port: Port) -> u32 {
        1 << port.0
    }

    fn neighbour(self, node: Node, port: Port) -> Node {
        vectors::neighbour(node, port)
    }

    // Each port is its own axis.
    fn neighbour_over(self, node: Node, vector: u32) -> Node {
        Node(node.0 ^ vector as u16)
    }

    fn in_cube(self, vector: u32, nodes: u16) -> bool {
        vector < u32::from(nodes)
    }
}

// A board of 18 ports, whose cube has a fold mask.
#[derive(Clone, Copy)]
pub struct WideBoard {
    pub fold: u32,
}

impl Board for WideBoard {
    const SEND_ARRIVAL: u16 = 17;

    ghost SEND_ARRIVAL = { 17 };

    ghost width = { 18 };

    ghost fold = { λ b. b.fold };

    ghost laws = { wide_laws };

    fn fold_mask(self) -> u32 {
        self.fold
    }

    fn with_partners(self, vector: u32) -> u32 {
        folds::with_partners(self.fold, vector)
    }

    fn first_port(self, vector: u32, arrival: Port) -> Port {
        helical::first_by_rule(vector, arrival)
    }

    fn axis_ports(self, port: Port) -> u32 {
        folds::axis_ports(port)
    }

    fn neighbour(self, node: Node, port: Port) -> Node {
        folds::folded_neighbour(node, port)
    }

    fn neighbour_over(self, node: Node, vector: u32) -> Node {
        folds::folded_neighbour(node, Port(u32::trailing_zeros(vector) as u16))
    }

    fn in_cube(self, vector: u32, nodes: u16) -> bool {
        vector & folds::with_partners(self.fold, u32::from(nodes - 1)) == vector
    }
}

// Where a port leads, and vectors of ports: bit p of a vector stands for port p. A vector, as a dimension, is a plain number whose bound stands in the contracts: of the three kinds (Forms 1)
// it is none.
ghost use Rattle.std.specs.Prelude.{◌≡◌, true, ◌≤◌, ◌<◌, ◌^◌};
ghost use Rattle.common.specs.Lists.{lowest};
ghost use Rattle.common.specs.SomeBelow.{some_below};
ghost use Rattle.cube.specs.Bits.{has};
ghost use Rattle.cube.specs.Axes.{positions, own_axes};
ghost use Rattle.cube.specs.CubeContracts.{NodeCount, UphillVector, Without};
ghost use Rattle.cube.specs.Cube.{largest_dimension, port_count, next};

use crate::kinds::{Node, Port};

// How many nodes a cube has: 0 up to this are its node numbers, and a vector of its ports is below it.
pub fn node_count(dimension: u16) -> u16
    requires { dimension ≤ largest_dimension }
    ensures { NodeCount dimension result }
{
    1 << dimension
}

// The node that a port leads to, for a port that is its own axis.
pub fn neighbour(node: Node, port: Port) -> Node
    requires { port.0 < own_axes }
    ensures { result.0 ≡ next node.0 port.0 }
{
    let n = node.0;
    let p = port.0;
    Node(n ^ (1 << p))
}

// The ports that lead from a node towards a target.
pub fn uphill_vector(node: Node, target: Node) -> u16
    ensures { UphillVector node.0 target.0 result }
{
    let n = node.0;
    let t = target.0;
    n ^ t
}

// A vector without one of its ports.
pub fn without(vector: u16, port: Port) -> u16
    requires { (port.0 < 16) × (has vector port.0 ≡ true) }
    ensures { Without vector port.0 result }
{
    let p = port.0;
    vector ^ (1 << p)
}

// The same of a vector of 32 bits, which has room for 18 ports.
pub fn wide_without(vector: u32, port: Port) -> u32
    requires { (port.0 < 32) × (has vector port.0 ≡ true) }
    ensures { Without vector port.0 result }
{
    let p = port.0;
    vector ^ (1u32 << p)
}

// The lowest bit that is set of eight.
pub fn lowest_of(vector: u16) -> Option<u16>
    requires { vector < 256 }
    ensures { result ≡ some_below port_count (lowest (has vector) port_count 0) }
{
    if vector == 0 {
        None
    } else {
        // At most 16: a conversion that can fail would say less than the cast.
        Some(u16::trailing_zeros(vector) as u16)
    }
}

// The lowest port of a vector of 18 positions.
pub fn lowest_port(vector: u32) -> Option<u16>
    requires { vector < 2 ^ positions }
    ensures { result ≡ some_below positions (lowest (has vector) positions 0) }
{
    if vector == 0 {
        None
    } else {
        Some(u32::trailing_zeros(vector) as u16)
    }
}

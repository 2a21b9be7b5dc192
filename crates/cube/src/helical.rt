// The choice of port by rule, whatever the number of positions.
ghost use Rattle.std.specs.Prelude.{◌<◌};
ghost use Rattle.cube.specs.CubeContracts.{FirstByRule};

use crate::kinds::Port;
use common::bits;

// The port of a vector that is tried first after an arrival, by the rule and without a table, whatever the number of positions: the lowest port above the
// arrival port, or else the lowest. For boards with more than 8 ports (Order 9).
pub fn first_by_rule(vector: u32, arrival: Port) -> Port
    requires { (0 < vector) × (arrival.0 < 31) }
    ensures { FirstByRule vector arrival.0 result.0 }
{
    Port(bits::first_after(vector, arrival.0).unwrap())
}

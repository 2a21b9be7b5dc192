// The ports of a vector, one by one.
ghost use Rattle.std.specs.Prelude.{◌≡◌, ◌<◌, ◌^◌};
ghost use Rattle.cube.specs.Axes.{positions};
ghost use Rattle.cube.specs.Helical.{ports_of};

use crate::kinds::Port;
use crate::vectors::{lowest_port, wide_without};

// Those that are still to come, from the lowest upward.
#[derive(Clone, Copy)]
pub struct VectorPorts {
    left: u32,
    ghost few: { left < 2 ^ positions },
}

impl VectorPorts {
    ghost use Rattle.cube.specs.PortsLeft.{ports_left};

    pub fn new(vector: u32) -> VectorPorts
        requires { vector < 2 ^ positions }
        ensures { ports_left result ≡ ports_of positions vector }
    {
        VectorPorts { left: vector }
    }
}

impl Iterator for VectorPorts {
    ghost use Rattle.std.specs.Iterator.{YieldsFirstBy, item_count};
    ghost use Rattle.cube.specs.PortsLeft.{ports_left};

    type Item = Port;

    ghost next_gives = { YieldsFirstBy (λ port. port.0) ports_left };

    ghost remaining = { item_count ports_left };

    fn next(&mut self) -> Option<Port> {
        let port = Port(lowest_port(self.left)?);
        self.left = wide_without(self.left, port);
        Some(port)
    }
}

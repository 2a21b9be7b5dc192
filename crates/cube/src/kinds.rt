// Forms 1: node numbers, port numbers and circuit numbers, three kinds, none of which is taken for another. The public calls
// take any 16-bit number as one of them and test it (Calls 3); the functions below say in their `requires` what was tested.
ghost use Rattle.std.specs.Prelude.{◌≡◌, ◌<◌};
ghost use Rattle.cube.specs.Cube.{channels, circuit_of, source_of, channel_of};

// A cube has dimension 1 to 8, a row of the table eight ports, a node eight send and eight receive channels.
pub const LARGEST_DIMENSION: u16 = 8;

pub const PORTS: u16 = 8;

pub const CHANNELS: u16 = 8;

#[derive(Clone, Copy, Debug, PartialEq, Eq)]
pub struct Node(pub u16);

#[derive(Clone, Copy, Debug, PartialEq, Eq)]
pub struct Port(pub u16);

// 0 is no circuit.
#[derive(Clone, Copy, Debug, PartialEq, Eq)]
pub struct Circuit(pub u16);

// The circuit of a send channel.
pub fn circuit_of(source: Node, channel: u16) -> Circuit
    requires { (source.0 < 256) × (channel < channels) }
    ensures { result.0 ≡ circuit_of source.0 channel }
{
    Circuit(8 * source.0 + channel + 1)
}

// The node at which a circuit starts.
pub fn source_of(circuit: Circuit) -> Node
    requires { 0 < circuit.0 }
    ensures { result.0 ≡ source_of circuit.0 }
{
    Node((circuit.0 - 1) / 8)
}

// The send channel that a circuit belongs to.
pub fn channel_of(circuit: Circuit) -> u16
    requires { 0 < circuit.0 }
    ensures { result ≡ channel_of circuit.0 }
{
    (circuit.0 - 1) % 8
}

// Ports of folded dimensions. Port 17 - p is the partner of port p (Cube 5): both change bit p of a node, their axis.
ghost use Rattle.std.specs.Prelude.{◌≡◌, true, ◌<◌};
ghost use Rattle.cube.specs.Axes.{positions, own_axes, axis, partner, present};
ghost use Rattle.cube.specs.CubeContracts.{Partners, WithPartners, AxisPorts};
ghost use Rattle.cube.specs.Cube.{next};

use crate::kinds::{Node, Port};

// A board with room for folds has ports 0 to 17.
pub const POSITIONS: u16 = 18;

const LAST: u16 = 17;

// The bits of a byte from the other end. A static is read where it stands; a constant array is built anew wherever it is indexed.
static REVERSED: [u8; 256] = [
    0, 128, 64, 192, 32, 160, 96, 224, // 0
    16, 144, 80, 208, 48, 176, 112, 240, // 8
    8, 136, 72, 200, 40, 168, 104, 232, // 16
    24, 152, 88, 216, 56, 184, 120, 248, // 24
    4, 132, 68, 196, 36, 164, 100, 228, // 32
    20, 148, 84, 212, 52, 180, 116, 244, // 40
    12, 140, 76, 204, 44, 172, 108, 236, // 48
    28, 156, 92, 220, 60, 188, 124, 252, // 56
    2, 130, 66, 194, 34, 162, 98, 226, // 64
    18, 146, 82, 210, 50, 178, 114, 242, // 72
    10, 138, 74, 202, 42, 170, 106, 234, // 80
    26, 154, 90, 218, 58, 186, 122, 250, // 88
    6, 134, 70, 198, 38, 166, 102, 230, // 96
    22, 150, 86, 214, 54, 182, 118, 246, // 104
    14, 142, 78, 206, 46, 174, 110, 238, // 112
    30, 158, 94, 222, 62, 190, 126, 254, // 120
    1, 129, 65, 193, 33, 161, 97, 225, // 128
    17, 145, 81, 209, 49, 177, 113, 241, // 136
    9, 137, 73, 201, 41, 169, 105, 233, // 144
    25, 153, 89, 217, 57, 185, 121, 249, // 152
    5, 133, 69, 197, 37, 165, 101, 229, // 160
    21, 149, 85, 213, 53, 181, 117, 245, // 168
    13, 141, 77, 205, 45, 173, 109, 237, // 176
    29, 157, 93, 221, 61, 189, 125, 253, // 184
    3, 131, 67, 195, 35, 163, 99, 227, // 192
    19, 147, 83, 211, 51, 179, 115, 243, // 200
    11, 139, 75, 203, 43, 171, 107, 235, // 208
    27, 155, 91, 219, 59, 187, 123, 251, // 216
    7, 135, 71, 199, 39, 167, 103, 231, // 224
    23, 151, 87, 215, 55, 183, 119, 247, // 232
    15, 143, 79, 207, 47, 175, 111, 239, // 240
    31, 159, 95, 223, 63, 191, 127, 255, // 248
];

// The bit of a node that a port changes.
pub fn axis(port: Port) -> u16
    requires { port.0 < positions }
    ensures { (result ≡ axis port.0) × (result < own_axes) }
{
    let p = port.0;
    if p < 9 { p } else { LAST - p }
}

// The other port of its axis.
#[tactic(auto, unfolding(crate::specs::Axes::partner))]
pub fn partner(port: Port) -> Port
    requires { port.0 < positions }
    ensures { result.0 ≡ partner port.0 }
{
    Port(LAST - port.0)
}

// Whether a cube of a dimension and a fold mask has a port: any number is taken for one, as block and unblock are given them.
pub fn present(dimension: u16, fold: u32, port: Port) -> bool
    ensures { result ≡ present dimension fold port.0 }
{
    if port.0 >= POSITIONS {
        return false;
    }
    let a = axis(port);
    a < dimension && (port.0 == a || (fold >> a) % 2 == 1)
}

// The node that a port leads to, for every port.
pub fn folded_neighbour(node: Node, port: Port) -> Node
    requires { port.0 < positions }
    ensures { result.0 ≡ next node.0 port.0 }
{
    Node(node.0 ^ (1 << axis(port)))
}

// Both ports of its axis, as a vector.
pub fn axis_ports(port: Port) -> u32
    requires { port.0 < positions }
    ensures { AxisPorts positions port.0 result }
{
    (1 << port.0) | (131072 >> port.0)
}

// The partners of the ports of a vector.
pub fn partners(vector: u32) -> u32
    requires { vector < 256 }
    ensures { Partners vector result }
{
    u32::from(REVERSED[vector as usize]) << 10
}

// A vector with the partners of those of its ports that are folded.
pub fn with_partners(fold: u32, vector: u32) -> u32
    requires { vector < 256 }
    ensures { WithPartners fold vector result }
{
    vector | partners(fold & vector)
}

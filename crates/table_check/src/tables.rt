// Tables that hold circuits, laid hop by hop. A dimension is a number here, as `table::make` takes it. What is lent may have any length: where it is no narrow table, nothing of it changes, and
// nothing does for a dimension above 8.
use cube::{Circuit, Node, Port};
use table::{Channels, Links};

const UP: [u8; 9] = [0, 0, 1, 2, 3, 4, 5, 6, 7];

const DOWN: [u8; 8] = [7, 6, 5, 4, 3, 2, 1, 0];

fn empty(t: &mut [u8], dimension: u8) {
    if t.len() == table::BYTES && dimension <= 8 {
        table::make::<table::Narrow>(t, dimension);
    }
}

// Gives a circuit one link: the node that it leads to.
fn hop(t: &mut [u8], c: Circuit, n: Node, p: Port) -> Node {
    if t.len() == table::BYTES && n.0 < 256 && p.0 < 8 {
        table::set_owner::<Links>(t, n, p, c);
        cube::neighbour(n, p)
    } else {
        n
    }
}

// The hops of a circuit from its source: the node that they lead to.
fn lay(t: &mut [u8], c: Circuit, source: Node, ports: &[u8]) -> Node {
    let mut n = source;
    for port in ports {
        n = hop(t, c, n, Port(u16::from(*port)));
    }
    n
}

// Gives a circuit a receive channel, which is armed.
fn receive(t: &mut [u8], c: Circuit, n: Node, channel: u16) {
    if t.len() == table::BYTES && n.0 < 256 && channel < 8 {
        table::set_owner::<Channels>(t, n, channel, c);
        table::set_enabled::<Channels>(t, n, channel, true);
    }
}

// Arms channel 1 of node 1 and disarms channel 0.
fn arm_the_other(t: &mut [u8]) {
    if t.len() == table::BYTES {
        table::set_enabled::<Channels>(t, Node(1), 1, true);
        table::set_enabled::<Channels>(t, Node(1), 0, false);
    }
}

// One hop from node 0, and all ports downwards from the last node's last send channel.
pub fn two_ways(t: &mut [u8], dimension: u8) {
    if dimension > 8 {
        return;
    }
    empty(t, dimension);
    let n = lay(t, Circuit(1), Node(0), b"\x00");
    receive(t, Circuit(1), n, 0);
    let nodes = cube::node_count(u16::from(dimension));
    let m = lay(
        t,
        Circuit(8 * nodes),
        Node(nodes - 1),
        &DOWN[8 - usize::from(dimension)..],
    );
    receive(t, Circuit(8 * nodes), m, 3);
}

// Out of node 1 and back, and on by all ports upwards; and two hops from node 0.
pub fn through_the_source(t: &mut [u8], dimension: u8) {
    if dimension > 8 {
        return;
    }
    empty(t, dimension);
    let n = lay(t, Circuit(14), Node(1), &UP[..1 + usize::from(dimension)]);
    receive(t, Circuit(14), n, 6);
    if dimension > 1 {
        let m = lay(t, Circuit(2), Node(0), b"\x01\x00");
        receive(t, Circuit(2), m, 0);
    }
}

// Circuit 1 in a cube of dimension 3: its hops, and the node at which it has a receive channel.
fn one(t: &mut [u8], source: Node, ports: &[u8], n: Node, channel: u16) {
    empty(t, 3);
    lay(t, Circuit(1), source, ports);
    receive(t, Circuit(1), n, channel);
}

// Eleven tables that hold circuit 1, by the number that is printed beside the answer. 0, 1 and 8 are sound.
pub fn single(t: &mut [u8], which: u16) {
    match which {
        // ports in an order that goes round
        0 => one(t, Node(0), b"\x00\x01\x00", Node(2), 0),
        // a send to the node itself
        1 => one(t, Node(0), b"\x02\x02", Node(0), 7),
        // the receive channel is not at the path's end
        2 => one(t, Node(0), b"\x00\x01", Node(1), 0),
        // a later hop is not uphill
        3 => one(t, Node(0), b"\x00\x01\x02\x01", Node(5), 0),
        // links off the path
        4 => {
            one(t, Node(0), b"\x00", Node(1), 0);
            lay(t, Circuit(1), Node(6), b"\x00\x00");
        }
        // links alone
        5 => {
            empty(t, 3);
            lay(t, Circuit(1), Node(0), b"\x00\x01");
        }
        // a receive channel alone
        6 => {
            empty(t, 3);
            receive(t, Circuit(1), Node(1), 0);
        }
        // two receive channels
        7 => {
            one(t, Node(0), b"\x00", Node(1), 0);
            receive(t, Circuit(1), Node(1), 1);
        }
        // out by a port that is not the lowest, back, and on
        8 => one(t, Node(0), b"\x02\x02\x00", Node(1), 0),
        // a path that does not begin at the source
        9 => one(t, Node(2), b"\x00", Node(3), 0),
        // the receive channel is not armed, and another one is
        _ => {
            one(t, Node(0), b"\x00", Node(1), 0);
            arm_the_other(t);
        }
    }
}

// A circuit and the other one, each on a way from a node.
fn both(t: &mut [u8], from: Node, ports: &[u8], other: Node, others: &[u8]) {
    empty(t, 3);
    lay(t, Circuit(1), from, ports);
    lay(t, Circuit(2), other, others);
}

// Eight tables that hold circuits 1 and 2. The hops to each receive channel, added up, are as many as the links held. 0 alone is sound.
pub fn sums(t: &mut [u8], which: u16) {
    match which {
        // two circuits on their paths
        0 => {
            both(t, Node(0), b"\x00\x01", Node(0), b"\x02");
            receive(t, Circuit(1), Node(3), 0);
            receive(t, Circuit(2), Node(4), 0);
        }
        // received half-way too, and a stray link of the other circuit
        1 => {
            both(t, Node(0), b"\x00\x01", Node(6), b"\x00");
            receive(t, Circuit(1), Node(1), 0);
            receive(t, Circuit(1), Node(3), 0);
        }
        // received at two nodes, to each through the source again, and two strays
        2 => {
            both(t, Node(0), b"\x00\x00\x01\x01", Node(6), b"\x00\x00");
            receive(t, Circuit(1), Node(1), 0);
            receive(t, Circuit(1), Node(2), 0);
        }
        // out over an absent port and back
        3 => one(t, Node(0), b"\x05\x05", Node(0), 0),
        // two links at a later node, and the other circuit received twice
        4 => {
            both(t, Node(0), b"\x00\x01", Node(0), b"\x02");
            lay(t, Circuit(1), Node(1), b"\x02");
            receive(t, Circuit(1), Node(3), 0);
            receive(t, Circuit(2), Node(4), 0);
            receive(t, Circuit(2), Node(4), 1);
        }
        // received twice at its end, and a stray link of its own
        5 => {
            one(t, Node(0), b"\x00", Node(1), 0);
            lay(t, Circuit(1), Node(6), b"\x00");
            receive(t, Circuit(1), Node(1), 7);
        }
        // two circuits, each received at the other's end
        6 => {
            both(t, Node(0), b"\x00", Node(0), b"\x01");
            receive(t, Circuit(1), Node(2), 0);
            receive(t, Circuit(2), Node(1), 0);
        }
        // a loop at the end of a path in place of its last two links
        _ => {
            one(t, Node(0), b"\x00", Node(7), 0);
            lay(t, Circuit(1), Node(6), b"\x00\x00");
        }
    }
}

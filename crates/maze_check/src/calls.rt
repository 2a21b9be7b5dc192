// Examples 1 to 7 and 9, with every receive channel armed first, and 25, through the router's calls: each line is a call with its numbers, a colon, and what it
// answered. The functions print to one place and change one table: both are lent to each, and no struct would hold them longer than a call.
use answers::Opening;
use common::refusal::{Refusal, answer};
use cube::{Node, Port};
use std::io;
use table::Narrow;

// A call of an example, of node 0 where no node is named.
#[derive(Clone, Copy)]
enum Call {
    // Dimension.
    Make(u16),
    // How many nodes have all their receive channels armed.
    ArmAll(u8),
    Block(Node, Port),
    // Node and receive channel.
    Arm(Node, u16),
    Disarm(Node, u16),
    // Send channel, target, routing type, send vector.
    Open(u16, Node, u16, u16),
    // Send channel.
    Close(u16),
    Trace(u16),
}

// Arms the eight receive channels of each of so many nodes, up to the first that is refused.
fn arm_all(t: &mut [u8], nodes: u8) -> Result<(), Refusal> {
    for i in 0..8 * u16::from(nodes) {
        router::arm::<Narrow>(t, Node(i / 8), i % 8)?;
    }
    Ok(())
}

fn open(rt: &impl Print, t: &mut [u8], x: Opening) -> io::Result<()> {
    print!(rt;
        "open {} {} {} {} {}: ",
        x.source.0, x.channel, x.target.0, x.routing, x.vector
    )?;
    match router::open::<Narrow>(t, x) {
        Ok(found) => println!(rt; "0 {} {} {}", found.hops, found.receive, found.scouts),
        Err(rejected) => println!(rt; "{} 0 0 {}", rejected.refusal.number(), rejected.scouts),
    }
}

// The nine bytes of the buffer follow the hops; those behind the path stay 9.
fn trace(rt: &impl Print, t: &[u8], channel: u16) -> io::Result<()> {
    let mut buffer = [9u8; 9];
    match router::trace::<Narrow>(t, Node(0), channel, &mut buffer) {
        Ok(hops) => print!(rt; "trace 0 {channel}: 0 {hops}")?,
        Err(refused) => print!(rt; "trace 0 {channel}: {} 0", refused.number())?,
    }
    for port in buffer {
        print!(rt; " {port}")?;
    }
    println!(rt; "")
}

// A call, and its line.
fn carry_out(rt: &impl Print, t: &mut [u8], call: Call) -> io::Result<()> {
    match call {
        Call::Make(d) => println!(rt; "make {d}: {}", answer(router::make::<Narrow>(t, d))),
        Call::ArmAll(nodes) => println!(rt; "arm all of {nodes}: {}", answer(arm_all(t, nodes))),
        Call::Block(n, p) => {
            println!(rt;
                "block {} {}: {}",
                n.0,
                p.0,
                answer(router::block::<Narrow>(t, n, p))
            )
        }
        Call::Arm(n, c) => println!(rt;
            "arm {} {c}: {}",
            n.0,
            answer(router::arm::<Narrow>(t, n, c))
        ),
        Call::Disarm(n, c) => {
            println!(rt;
                "disarm {} {c}: {}",
                n.0,
                answer(router::disarm::<Narrow>(t, n, c))
            )
        }
        Call::Open(channel, target, routing, vector) => open(
            rt,
            t,
            Opening {
                source: Node(0),
                channel,
                target,
                routing,
                vector,
            },
        ),
        Call::Close(c) => println!(rt;
            "close 0 {c}: {}",
            answer(router::close::<Narrow>(t, Node(0), c))
        ),
        Call::Trace(c) => trace(rt, t, c),
    }
}

fn run(rt: &impl Print, t: &mut [u8], calls: &[Call]) -> io::Result<()> {
    for call in calls {
        carry_out(rt, t, *call)?;
    }
    Ok(())
}

// 1: nothing blocked. 2: the patent's figure 7, with two links blocked.
const FIGURES: [Call; 10] = [
    Call::Make(3),
    Call::ArmAll(8),
    Call::Open(0, Node(7), 0, 7),
    Call::Trace(0),
    Call::Make(3),
    Call::ArmAll(8),
    Call::Block(Node(1), Port(2)),
    Call::Block(Node(3), Port(2)),
    Call::Open(0, Node(7), 0, 7),
    Call::Trace(0),
];

// 3 and 4: back to the source, and away from the target first. 5: through the source.
const DETOURS: [Call; 13] = [
    Call::Make(1),
    Call::ArmAll(2),
    Call::Open(0, Node(0), 0, 1),
    Call::Trace(0),
    Call::Make(2),
    Call::ArmAll(4),
    Call::Open(0, Node(1), 0, 2),
    Call::Trace(0),
    Call::Make(2),
    Call::ArmAll(4),
    Call::Block(Node(2), Port(0)),
    Call::Open(0, Node(1), 0, 2),
    Call::Trace(0),
];

// 6: the second pass.
const SECOND_PASS: [Call; 9] = [
    Call::Make(2),
    Call::ArmAll(4),
    Call::Block(Node(0), Port(0)),
    Call::Open(0, Node(1), 0, 1),
    Call::Make(2),
    Call::ArmAll(4),
    Call::Block(Node(0), Port(0)),
    Call::Open(0, Node(1), 4, 1),
    Call::Trace(0),
];

// 7: a link that is held and freed. The close disarms receive channel 0, and the last open takes channel 1.
const LINK_FREED: [Call; 6] = [
    Call::Make(1),
    Call::ArmAll(2),
    Call::Open(0, Node(1), 0, 1),
    Call::Open(1, Node(1), 0, 1),
    Call::Close(0),
    Call::Open(1, Node(1), 0, 1),
];

// 9: the edges of dimension, node, vector and length.
const EDGES: [Call; 9] = [
    Call::Make(8),
    Call::Make(9),
    Call::Make(3),
    Call::ArmAll(8),
    Call::Open(0, Node(7), 0, 7),
    Call::Make(3),
    Call::ArmAll(8),
    Call::Open(0, Node(8), 0, 7),
    Call::Open(0, Node(7), 0, 8),
];

const WRONG_LENGTH: [Call; 2] = [Call::Make(3), Call::Open(0, Node(7), 0, 7)];

// 25: a receive channel is taken only where it is armed, is not disarmed while it is held, and is disarmed by the close.
const ARMING: [Call; 12] = [
    Call::Make(3),
    Call::Open(0, Node(7), 0, 7),
    Call::Arm(Node(8), 0),
    Call::Arm(Node(7), 8),
    Call::Arm(Node(7), 0),
    Call::Open(0, Node(7), 0, 7),
    Call::Disarm(Node(8), 0),
    Call::Disarm(Node(7), 8),
    Call::Disarm(Node(7), 0),
    Call::Disarm(Node(7), 1),
    Call::Close(0),
    Call::Open(0, Node(7), 0, 7),
];

pub fn examples(rt: &impl Print) -> io::Result<()> {
    let mut t = [0u8; table::BYTES];
    // a byte too short, a byte too long, and as long as a table was before receive channels were armed
    let mut short = [0u8; table::BYTES - 1];
    let mut long = [0u8; table::BYTES + 1];
    let mut older = [0u8; 8449];
    run(rt, &mut t, &FIGURES)?;
    run(rt, &mut t, &DETOURS)?;
    run(rt, &mut t, &SECOND_PASS)?;
    run(rt, &mut t, &LINK_FREED)?;
    run(rt, &mut t, &EDGES)?;
    run(rt, &mut short, &WRONG_LENGTH)?;
    run(rt, &mut long, &WRONG_LENGTH)?;
    run(rt, &mut older, &WRONG_LENGTH)?;
    run(rt, &mut t, &ARMING)
}

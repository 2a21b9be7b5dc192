// A board with one receive channel, which is armed: a circuit is opened, the channel that the open names takes its packets up to an end of
// transmission, and the circuit is closed. Each line is a call or a packet with its number and, behind a colon, the channel: address, count, running, overflow mark,
// whether ends of message are ignored, overshoot.
#![tactic(auto)]

ghost use Rattle.board.specs.Meets.{Meets};
ghost use Rattle.ownership.specs.Calls.{opening};

use answers::Opening;
use command_word::{Command, CommandWord};
use common::refusal::{self, Refusal};
use cube::Node;
use receiver::{Channel, Followed};
use std::io;
use table::Narrow;

// Opens the circuit of a send channel of node 0 to node 7 and starts the receive channel that it takes there: two doublewords to an address
// from which the second wraps round to 0, ends of message ignored.
fn open(t: &mut [u8], channel: u16) -> Result<Followed, Refusal>
    ensures { Meets t.old t.new (opening 0 channel 7 0 7) 4294967280 2 1 result }
{
    let x = Opening {
        source: Node(0),
        channel,
        target: Node(7),
        routing: 0,
        vector: 7,
    };
    let opened = router::open::<Narrow>(t, x);
    receiver::follow(opened, 4294967280, 2, 1)
}

// What follows a colon: the channel.
fn state(rt: &impl Print, channel: Channel) -> io::Result<()> {
    let Channel {
        address,
        count,
        running,
        overflow,
        ignores,
    } = channel;
    println!(rt;
        ": {address} {count} {running} {overflow} {ignores} {}",
        channel.overshoot()
    )
}

// An open: its number, the receive channel of the target and its state. Where it is refused they are zero, and such a channel takes nothing.
fn show_open(rt: &impl Print, answer: Result<Followed, Refusal>) -> io::Result<Channel> {
    let (number, receive, channel) = match answer {
        Ok(followed) => (refusal::ACCEPTED, followed.receive, followed.channel),
        Err(refused) => (refused.number(), 0, Channel::default()),
    };
    print!(rt; "open {number} {receive}")?;
    state(rt, channel)?;
    Ok(channel)
}

// A packet to the channel.
#[derive(Clone, Copy)]
enum Packet {
    Data,
    Word(u16),
}

// A packet and its number; the channel after it, as it was where the packet was refused.
fn take(rt: &impl Print, channel: Channel, packet: Packet) -> io::Result<Channel> {
    let answer = match packet {
        Packet::Data => {
            print!(rt; "data")?;
            channel.take_data()
        }
        Packet::Word(word) => {
            print!(rt; "word {word}")?;
            channel.take_word(word)
        }
    };
    let (number, after) = match answer {
        Ok(after) => (refusal::ACCEPTED, after),
        Err(refused) => (refused.number(), channel),
    };
    print!(rt; " {number}")?;
    state(rt, after)?;
    Ok(after)
}

// The word of a command that carries 0.
fn command(command: Command) -> Packet {
    Packet::Word(CommandWord::write(command.number(), 0).map_or(0, |written| written.0))
}

// Two doublewords that were counted for and two that were not; words that change nothing, one that is not read, and an end of message, which
// is ignored; then the end of transmission, and packets that come too late.
fn run(rt: &impl Print, start: Channel) -> io::Result<()> {
    let mut channel = start;
    for packet in [
        Packet::Data,
        command(Command::RouteAcknowledge),
        Packet::Data,
        Packet::Data,
        Packet::Word(3136),
        command(Command::EndOfMessage),
        Packet::Data,
        command(Command::EndOfTransmission),
        Packet::Data,
        command(Command::EndOfMessage),
        Packet::Word(4096),
    ] {
        channel = take(rt, channel, packet)?;
    }
    Ok(())
}

fn main(rt: HostRuntime) -> io::Result<()> {
    let mut t = [0u8; table::BYTES];
    println!(&rt;
        "make {}",
        refusal::answer(router::make::<Narrow>(&mut t, 3))
    )?;
    println!(&rt;
        "arm {}",
        refusal::answer(router::arm::<Narrow>(&mut t, Node(7), 0))
    )?;
    let channel = show_open(&rt, open(&mut t, 0))?;
    // The send channel has its circuit: a second open is refused.
    let none = show_open(&rt, open(&mut t, 0))?;
    take(&rt, none, Packet::Data)?;
    run(&rt, channel)?;
    println!(&rt;
        "close {}",
        refusal::answer(router::close::<Narrow>(&mut t, Node(0), 0))
    )
}

// Forms 2, Forms 7: the calls that C links, over bare numbers, byte slices and the arbiter's record. Each hands its arguments on to the call that is proved, and promises the same.
#![tactic(auto)]

mod structs;
mod wide;

ghost use Rattle.std.specs.Prelude.{◌≡◌, [], ◌∷◌};
ghost use Rattle.arbiter.specs.Arbiter.{arbitrated};
ghost use Rattle.command_word.specs.Word.{read_word, write_word};
ghost use Rattle.cube.specs.Cube.{port_count};
ghost use Rattle.ownership.specs.Calls.{making, blocking, unblocking, opening, closing, tracing, arming, disarming, opening_all, booking, judging};
ghost use Rattle.book.specs.Lookup.{looked_up};
ghost use Rattle.joining.specs.Joined.{join_step};
ghost use Rattle.ownership.specs.OnTable.{table_step, done};
ghost use Rattle.receiver.specs.Receive.{data_packet, command_word, started, received, overshoot};

use answers::Opening;
use arbiter::Arbiter;
use book::Book;
use command_word::CommandWord;
use common::refusal;
use cube::{Circuit, Node, Port};
use layout::Narrow;
use receiver::Channel;
use structs::{Booked, Opened, OpenedAll, Received, Served, Traced, WordRead, WordWritten};

#[unsafe(no_mangle)]
pub extern "C" fn maze_make(table: &mut [u8], dimension: u16) -> u16
    ensures { done table.new result [] [] ≡ table_step port_count table.old (making dimension) }
{
    refusal::answer(router::make::<Narrow>(table, dimension))
}

#[unsafe(no_mangle)]
pub extern "C" fn maze_block(table: &mut [u8], node: u16, port: u16) -> u16
    ensures { done table.new result [] [] ≡ table_step port_count table.old (blocking node port) }
{
    refusal::answer(router::block::<Narrow>(table, Node(node), Port(port)))
}

#[unsafe(no_mangle)]
pub extern "C" fn maze_unblock(table: &mut [u8], node: u16, port: u16) -> u16
    ensures { done table.new result [] [] ≡ table_step port_count table.old (unblocking node port) }
{
    refusal::answer(router::unblock::<Narrow>(table, Node(node), Port(port)))
}

#[unsafe(no_mangle)]
pub extern "C" fn maze_arm(table: &mut [u8], node: u16, channel: u16) -> u16
    ensures { done table.new result [] [] ≡ table_step port_count table.old (arming node channel) }
{
    refusal::answer(router::arm::<Narrow>(table, Node(node), channel))
}

#[unsafe(no_mangle)]
pub extern "C" fn maze_disarm(table: &mut [u8], node: u16, channel: u16) -> u16
    ensures { done table.new result [] [] ≡ table_step port_count table.old (disarming node channel) }
{
    refusal::answer(router::disarm::<Narrow>(table, Node(node), channel))
}

#[unsafe(no_mangle)]
pub extern "C" fn maze_open(
    table: &mut [u8],
    node: u16,
    channel: u16,
    target: u16,
    routing: u16,
    vector: u16,
) -> Opened
    ensures { done table.new result.number (result.hops ∷ result.receive ∷ result.scouts ∷ []) [] ≡ table_step port_count table.old (opening node channel target routing vector) }
{
    let x = Opening {
        source: Node(node),
        channel,
        target: Node(target),
        routing,
        vector,
    };
    Opened::from(router::open::<Narrow>(table, x))
}

#[unsafe(no_mangle)]
pub extern "C" fn maze_open_all(table: &mut [u8], sends: &[u8]) -> OpenedAll
    ensures { done table.new result.number (result.sends ∷ []) (sends.now ∷ []) ≡ table_step port_count table.old (opening_all sends.now) }
{
    OpenedAll::from(job::open_all::<Narrow>(table, sends))
}

#[unsafe(no_mangle)]
pub extern "C" fn maze_close(table: &mut [u8], node: u16, channel: u16) -> u16
    ensures { done table.new result [] [] ≡ table_step port_count table.old (closing node channel) }
{
    refusal::answer(router::close::<Narrow>(table, Node(node), channel))
}

#[unsafe(no_mangle)]
pub extern "C" fn maze_trace(table: &[u8], node: u16, channel: u16, buffer: &mut [u8]) -> Traced
    ensures { done table.now result.number (result.hops ∷ []) (buffer.new ∷ []) ≡ table_step port_count table.now (tracing node channel buffer.old) }
{
    Traced::from(router::trace::<Narrow>(table, Node(node), channel, buffer))
}

#[unsafe(no_mangle)]
pub extern "C" fn maze_book(table: &[u8], ports: &mut [u8], index: &mut [u8]) -> Booked
    ensures { done table.now result.number (result.circuits ∷ result.hops ∷ []) (ports.new ∷ index.new ∷ []) ≡ table_step port_count table.now (booking ports.old index.old) }
{
    Booked::from(booking::book::<Narrow>(table, ports, index))
}

// A book that C lends.
fn lent_book<'a>(ports: &'a [u8], index: &'a [u8], circuits: u16, hops: u16) -> Book<'a>
    ensures buffers { (result.ports.now ≡ ports.now) × (result.index.now ≡ index.now) }
    ensures counts { (result.circuits ≡ circuits) × (result.hops ≡ hops) }
{
    Book {
        ports,
        index,
        circuits,
        hops,
    }
}

#[unsafe(no_mangle)]
pub extern "C" fn maze_book_lookup(
    ports: &[u8],
    index: &[u8],
    circuits: u16,
    hops: u16,
    circuit: u16,
    buffer: &mut [u8],
) -> Traced
    ensures { record { number = result.number; hops = result.hops; buffer = buffer.new } ≡ looked_up ports.now index.now circuits hops circuit buffer.old }
{
    Traced::from(lent_book(ports, index, circuits, hops).lookup(Circuit(circuit), buffer))
}

#[unsafe(no_mangle)]
pub extern "C" fn maze_judge(
    table: &[u8],
    ports: &[u8],
    index: &[u8],
    circuits: u16,
    hops: u16,
) -> u16
    ensures { done table.now result [] (ports.now ∷ index.now ∷ []) ≡ table_step port_count table.now (judging ports.now index.now circuits hops) }
{
    let book = lent_book(ports, index, circuits, hops);
    refusal::answer(booking::judge::<Narrow>(table, &book))
}

#[unsafe(no_mangle)]
pub extern "C" fn maze_join(first: &[u8], second: &[u8], joined: &mut [u8]) -> u16
    ensures { done joined.new result [] [] ≡ join_step first.now second.now joined.old }
{
    refusal::answer(joining::join(first, second, joined))
}

#[unsafe(no_mangle)]
pub extern "C" fn maze_word_read(word: u16) -> WordRead
    ensures { (record { number = result.number; command = result.command; carried = result.carried }) ≡ read_word word }
{
    WordRead::from(CommandWord::read(word))
}

#[unsafe(no_mangle)]
pub extern "C" fn maze_word_write(command: u16, carried: u16) -> WordWritten
    ensures { (record { number = result.number; word = result.word }) ≡ write_word command carried }
{
    WordWritten::from(CommandWord::write(command, carried))
}

#[unsafe(no_mangle)]
pub extern "C" fn maze_arbitrate(arbiter: &mut Arbiter, requests: u32) -> Served
    ensures { (record { number = result.number; requester = result.requester; last = arbiter.new.last }) ≡ arbitrated arbiter.old.last requests }
{
    Served::from(arbiter.serve(requests))
}

#[unsafe(no_mangle)]
pub extern "C" fn maze_receive_start(address: u32, count: u32, ignores: u16) -> Channel
    ensures { result ≡ started address count ignores }
{
    Channel::start(address, count, ignores)
}

#[unsafe(no_mangle)]
pub extern "C" fn maze_receive_data(channel: Channel) -> Received
    ensures { (record { channel = result.channel; number = result.number }) ≡ received channel data_packet }
{
    Received::of(channel, channel.take_data())
}

#[unsafe(no_mangle)]
pub extern "C" fn maze_receive_word(channel: Channel, word: u16) -> Received
    ensures { (record { channel = result.channel; number = result.number }) ≡ received channel (command_word word) }
{
    Received::of(channel, channel.take_word(word))
}

#[unsafe(no_mangle)]
pub extern "C" fn maze_receive_overshoot(channel: Channel) -> u32
    ensures { result ≡ overshoot channel }
{
    channel.overshoot()
}

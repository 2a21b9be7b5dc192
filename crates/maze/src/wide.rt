// The calls on wide tables that C links: the same as those on narrow ones, with the same arguments and answers (Wide 9); the setting of a fold mask; and the two conversions.
ghost use Rattle.std.specs.Prelude.{◌≡◌, [], ◌∷◌};
ghost use Rattle.layout.specs.Layout.{wide_ports};
ghost use Rattle.ownership.specs.Calls.{making, blocking, unblocking, opening, closing, tracing, arming, disarming, opening_all, booking, judging, folding};
ghost use Rattle.ownership.specs.OnTable.{table_step, done};
ghost use Rattle.converting.specs.Converted.{widen_step, narrow_step};

use crate::lent_book;
use crate::structs::{Booked, Opened, OpenedAll, Traced};
use answers::Opening;
use common::refusal;
use cube::{Node, Port};
use layout::Wide;

#[unsafe(no_mangle)]
pub extern "C" fn maze_wide_make(table: &mut [u8], dimension: u16) -> u16
    ensures { done table.new result [] [] ≡ table_step wide_ports table.old (making dimension) }
{
    refusal::answer(router::make::<Wide>(table, dimension))
}

#[unsafe(no_mangle)]
pub extern "C" fn maze_wide_block(table: &mut [u8], node: u16, port: u16) -> u16
    ensures { done table.new result [] [] ≡ table_step wide_ports table.old (blocking node port) }
{
    refusal::answer(router::block::<Wide>(table, Node(node), Port(port)))
}

#[unsafe(no_mangle)]
pub extern "C" fn maze_wide_unblock(table: &mut [u8], node: u16, port: u16) -> u16
    ensures { done table.new result [] [] ≡ table_step wide_ports table.old (unblocking node port) }
{
    refusal::answer(router::unblock::<Wide>(table, Node(node), Port(port)))
}

#[unsafe(no_mangle)]
pub extern "C" fn maze_wide_arm(table: &mut [u8], node: u16, channel: u16) -> u16
    ensures { done table.new result [] [] ≡ table_step wide_ports table.old (arming node channel) }
{
    refusal::answer(router::arm::<Wide>(table, Node(node), channel))
}

#[unsafe(no_mangle)]
pub extern "C" fn maze_wide_disarm(table: &mut [u8], node: u16, channel: u16) -> u16
    ensures { done table.new result [] [] ≡ table_step wide_ports table.old (disarming node channel) }
{
    refusal::answer(router::disarm::<Wide>(table, Node(node), channel))
}

#[unsafe(no_mangle)]
pub extern "C" fn maze_wide_open(
    table: &mut [u8],
    node: u16,
    channel: u16,
    target: u16,
    routing: u16,
    vector: u16,
) -> Opened
    ensures { done table.new result.number (result.hops ∷ result.receive ∷ result.scouts ∷ []) [] ≡ table_step wide_ports table.old (opening node channel target routing vector) }
{
    let x = Opening {
        source: Node(node),
        channel,
        target: Node(target),
        routing,
        vector,
    };
    Opened::from(router::open::<Wide>(table, x))
}

#[unsafe(no_mangle)]
pub extern "C" fn maze_wide_open_all(table: &mut [u8], sends: &[u8]) -> OpenedAll
    ensures { done table.new result.number (result.sends ∷ []) (sends.now ∷ []) ≡ table_step wide_ports table.old (opening_all sends.now) }
{
    OpenedAll::from(job::open_all::<Wide>(table, sends))
}

#[unsafe(no_mangle)]
pub extern "C" fn maze_wide_close(table: &mut [u8], node: u16, channel: u16) -> u16
    ensures { done table.new result [] [] ≡ table_step wide_ports table.old (closing node channel) }
{
    refusal::answer(router::close::<Wide>(table, Node(node), channel))
}

#[unsafe(no_mangle)]
pub extern "C" fn maze_wide_trace(
    table: &[u8],
    node: u16,
    channel: u16,
    buffer: &mut [u8],
) -> Traced
    ensures { done table.now result.number (result.hops ∷ []) (buffer.new ∷ []) ≡ table_step wide_ports table.now (tracing node channel buffer.old) }
{
    Traced::from(router::trace::<Wide>(table, Node(node), channel, buffer))
}

#[unsafe(no_mangle)]
pub extern "C" fn maze_wide_book(table: &[u8], ports: &mut [u8], index: &mut [u8]) -> Booked
    ensures { done table.now result.number (result.circuits ∷ result.hops ∷ []) (ports.new ∷ index.new ∷ []) ≡ table_step wide_ports table.now (booking ports.old index.old) }
{
    Booked::from(booking::book::<Wide>(table, ports, index))
}

#[unsafe(no_mangle)]
pub extern "C" fn maze_wide_judge(
    table: &[u8],
    ports: &[u8],
    index: &[u8],
    circuits: u16,
    hops: u16,
) -> u16
    ensures { done table.now result [] (ports.now ∷ index.now ∷ []) ≡ table_step wide_ports table.now (judging ports.now index.now circuits hops) }
{
    let book = lent_book(ports, index, circuits, hops);
    refusal::answer(booking::judge::<Wide>(table, &book))
}

#[unsafe(no_mangle)]
pub extern "C" fn maze_wide_fold(table: &mut [u8], mask: u16) -> u16
    ensures { done table.new result [] [] ≡ table_step wide_ports table.old (folding mask) }
{
    refusal::answer(router::fold(table, mask))
}

#[unsafe(no_mangle)]
pub extern "C" fn maze_widen(narrow: &[u8], wide: &mut [u8]) -> u16
    ensures { done wide.new result [] [] ≡ widen_step narrow.now wide.old }
{
    refusal::answer(converting::widen(narrow, wide))
}

#[unsafe(no_mangle)]
pub extern "C" fn maze_narrow(wide: &[u8], narrow: &mut [u8]) -> u16
    ensures { done narrow.new result [] [] ≡ narrow_step wide.now narrow.old }
{
    refusal::answer(converting::narrow(wide, narrow))
}

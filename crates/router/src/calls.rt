// The calls (Calls 1): the tests in rising order of their numbers, and then what the call does. A refused call changes no byte (Calls 5). Two numbers are parameters by the names of Calls 1; the
// five of an open are a struct.
#![tactic(auto, using(crate::proofs::TableStep::steps))]

ghost use Rattle.std.specs.Prelude.{◌≡◌, [], ◌∷◌};
ghost use Rattle.std.specs.Result.{result_unwrap_or};
ghost use Rattle.answers.specs.Opens.{opened_number, opened_values};
ghost use Rattle.common.specs.Refusals.{answer_of};
ghost use Rattle.layout.specs.Layout.{wide_ports};
ghost use Rattle.ownership.specs.Calls.{making, blocking, unblocking, opening, closing, tracing, arming, disarming, folding};
ghost use Rattle.ownership.specs.OnTable.{table_step, done};

use answers::{Acknowledged, Opening, Rejected};
use common::refusal::Refusal;
use cube::{Node, Port};
use layout::Layout;
use table::{Channels, Links};

// Calls 9: makes a table of a dimension: all its links enabled, nothing held, no receive channel armed. What the bytes were before does not matter.
pub fn make<L: Layout>(t: &mut [u8], dimension: u16) -> Result<(), Refusal>
    ensures { done t.new (answer_of result) [] [] ≡ table_step L.PORTS t.old (making dimension) }
{
    if t.len() != L::LENGTH {
        return Err(Refusal::TableLength);
    }
    if dimension == 0 || dimension > cube::LARGEST_DIMENSION {
        return Err(Refusal::Dimension);
    }
    // 8 at most here, so the cast cuts nothing off; u8::try_from would answer a failure that cannot come.
    table::make::<L>(t, dimension as u8);
    Ok(())
}

// Four calls from here on set one bit: each has its own row, tests and meaning in Calls, and stands by itself.

// Calls 10: blocks a link that nobody holds. Blocking a blocked link changes nothing.
pub fn block<L: Layout>(t: &mut [u8], node: Node, port: Port) -> Result<(), Refusal>
    ensures { done t.new (answer_of result) [] [] ≡ table_step L.PORTS t.old (blocking node.0 port.0) }
{
    call_tests::block::<L>(t, node, port)?;
    table::set_enabled::<Links<L>>(t, node, port, false);
    Ok(())
}

// Calls 11: enables a link. Unblocking an enabled link changes nothing.
pub fn unblock<L: Layout>(t: &mut [u8], node: Node, port: Port) -> Result<(), Refusal>
    ensures { done t.new (answer_of result) [] [] ≡ table_step L.PORTS t.old (unblocking node.0 port.0) }
{
    call_tests::unblock::<L>(t, node, port)?;
    table::set_enabled::<Links<L>>(t, node, port, true);
    Ok(())
}

// Calls 14: opens a circuit from a send channel of a node to a target.
#[tactic(auto, using(crate::proofs::TableStep::opens))]
pub fn open<L: Layout>(t: &mut [u8], x: Opening) -> Result<Acknowledged, Rejected>
    ensures { done t.new (opened_number result) (opened_values result) [] ≡ table_step L.PORTS t.old (opening x.source.0 x.channel x.target.0 x.routing x.vector) }
{
    call_tests::open::<L>(t, x)?;
    send::send::<L>(t, x.request(), x.routing)
}

// Calls 15: closes the circuit of a send channel: it frees its links, frees and disarms its receive channel, and changes nothing else.
pub fn close<L: Layout>(t: &mut [u8], source: Node, channel: u16) -> Result<(), Refusal>
    ensures { done t.new (answer_of result) [] [] ≡ table_step L.PORTS t.old (closing source.0 channel) }
{
    call_tests::close::<L>(t, source, channel)?;
    release::release::<L>(t, cube::circuit_of(source, channel));
    Ok(())
}

// Calls 12: arms a receive channel: an open to its node may take it. Arming an armed channel changes nothing.
pub fn arm<L: Layout>(t: &mut [u8], node: Node, channel: u16) -> Result<(), Refusal>
    ensures { done t.new (answer_of result) [] [] ≡ table_step L.PORTS t.old (arming node.0 channel) }
{
    call_tests::arm::<L>(t, node, channel)?;
    table::set_enabled::<Channels<L>>(t, node, channel, true);
    Ok(())
}

// Calls 13: disarms a receive channel that nobody holds. Disarming an unarmed channel changes nothing.
pub fn disarm<L: Layout>(t: &mut [u8], node: Node, channel: u16) -> Result<(), Refusal>
    ensures { done t.new (answer_of result) [] [] ≡ table_step L.PORTS t.old (disarming node.0 channel) }
{
    call_tests::disarm::<L>(t, node, channel)?;
    table::set_enabled::<Channels<L>>(t, node, channel, false);
    Ok(())
}

// Calls 16: writes the ports of a send channel's circuit to a buffer, one byte a hop in path order from its start, and answers the hops. Later bytes keep their content.
pub fn trace<L: Layout>(
    t: &[u8],
    source: Node,
    channel: u16,
    buffer: &mut [u8],
) -> Result<u16, Refusal>
    ensures { done t.now (answer_of result) (result_unwrap_or result 0 ∷ []) (buffer.new ∷ []) ≡ table_step L.PORTS t.now (tracing source.0 channel buffer.old) }
{
    call_tests::trace::<L>(t, source, channel, buffer)?;
    Ok(circuit_path::write_path::<L>(t, cube::circuit_of(source, channel), buffer).hops)
}

// Folding 3: sets the fold mask of a wide table. A dimension that is folded anew gets all its partner links enabled (Folding 5), and one that is folded no more loses them (Folding 6).
#[tactic(auto, using(crate::proofs::TableStep::folds))]
pub fn fold(t: &mut [u8], mask: u16) -> Result<(), Refusal>
    ensures { done t.new (answer_of result) [] [] ≡ table_step wide_ports t.old (folding mask) }
{
    call_tests::fold(t, mask)?;
    // A bit of it is below the dimension, so the cast cuts nothing off; u8::try_from would answer a failure that cannot come.
    table::set_fold(t, mask as u8);
    Ok(())
}

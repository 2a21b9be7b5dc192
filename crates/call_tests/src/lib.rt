// Calls 4: which test stops a call: the refusal of the first that applies. A function for each call has its tests in the order of its row in Calls 1. A test that
// only one or two of them make, by one comparison, stands there; the others are functions or methods of their own, which answer their refusal where they apply.
#![tactic(auto, using(crate::proofs::Stopping::calls), unfolding(common::specs::Tests::refusal, table::specs::View::view, table::specs::View::held_in, ownership::specs::TableFacts::taken_in, ownership::specs::Calls::call_tests, ownership::specs::OnTable::stopped_at, ownership::specs::OnTable::lent_tests, ownership::specs::OnTable::facts_of))]

mod arguments;
mod folding;

ghost use Rattle.std.specs.Prelude.{◌≡◌};
ghost use Rattle.common.specs.Refusals.{answer_of};
ghost use Rattle.common.specs.Tests.{refusal};
ghost use Rattle.layout.specs.Layout.{wide_ports};
ghost use Rattle.table.specs.View.{view};
ghost use Rattle.ownership.specs.Calls.{blocking, unblocking, opening, closing, tracing, arming, disarming, opening_all, folding, call_tests};
ghost use Rattle.ownership.specs.OnTable.{facts_of, stopped_at};

use answers::{LinkState, Opening};
pub use arguments::SoundTable;
use arguments::{channel_exists, type_exists};
use common::refusal::Refusal;
use cube::{Node, Port};
use layout::Layout;
use table::{Channels, Wide};

// Jobs 2: a list of sends has ten bytes for each, and 64 at most.
pub const SEND_BYTES: usize = 10;

const LONGEST_LIST: usize = 640;

// Of each call the tests of its list, in their order. Those of its arguments are methods of a table that passed its own, in `arguments`.
pub fn block<L: Layout>(t: &[u8], node: Node, port: Port) -> Result<(), Refusal>
    ensures { answer_of result ≡ stopped_at L.PORTS t.now (blocking node.0 port.0) }
{
    let table = SoundTable::<L>::of(t)?;
    table.node_exists(node)?;
    table.port_exists(port)?;
    match answers::link_state::<L>(table.bytes, node, port) {
        LinkState::Held => Err(Refusal::LinkHeld),
        LinkState::Free | LinkState::Blocked => Ok(()), // a blocked one may be blocked again
    }
}

pub fn unblock<L: Layout>(t: &[u8], node: Node, port: Port) -> Result<(), Refusal>
    ensures { answer_of result ≡ stopped_at L.PORTS t.now (unblocking node.0 port.0) }
{
    let table = SoundTable::<L>::of(t)?;
    table.node_exists(node)?;
    table.port_exists(port)
}

impl<L: Layout> SoundTable<'_, L> {
    // The tests of an open behind those of the table, which a job makes once for all its sends.
    pub fn open_arguments(&self, x: Opening) -> Result<(), Refusal>
        ensures { answer_of result ≡ refusal (call_tests (facts_of (view self.now.bytes.now)) (opening x.source.0 x.channel x.target.0 x.routing x.vector)) }
    {
        self.node_exists(x.source)?;
        self.node_exists(x.target)?;
        channel_exists(x.channel)?;
        type_exists(x.routing)?;
        self.vector_fits(x.vector)?;
        if self.has_circuit(x.source, x.channel) {
            return Err(Refusal::ChannelInUse);
        }
        Ok(())
    }
}

pub fn open<L: Layout>(t: &[u8], x: Opening) -> Result<(), Refusal>
    ensures { answer_of result ≡ stopped_at L.PORTS t.now (opening x.source.0 x.channel x.target.0 x.routing x.vector) }
{
    SoundTable::<L>::of(t)?.open_arguments(x)
}

pub fn close<L: Layout>(t: &[u8], source: Node, channel: u16) -> Result<(), Refusal>
    ensures { answer_of result ≡ stopped_at L.PORTS t.now (closing source.0 channel) }
{
    let table = SoundTable::<L>::of(t)?;
    table.node_exists(source)?;
    channel_exists(channel)?;
    if !table.has_circuit(source, channel) {
        return Err(Refusal::NoCircuit); // nothing to close
    }
    Ok(())
}

pub fn trace<L: Layout>(t: &[u8], source: Node, channel: u16, buffer: &[u8]) -> Result<(), Refusal>
    ensures { answer_of result ≡ stopped_at L.PORTS t.now (tracing source.0 channel buffer.now) }
{
    let table = SoundTable::<L>::of(t)?;
    table.node_exists(source)?;
    channel_exists(channel)?;
    if !table.has_circuit(source, channel) {
        return Err(Refusal::NoCircuit);
    }
    if buffer.len() < 9 {
        return Err(Refusal::BufferShort);
    }
    Ok(())
}

pub fn arm<L: Layout>(t: &[u8], node: Node, channel: u16) -> Result<(), Refusal>
    ensures { answer_of result ≡ stopped_at L.PORTS t.now (arming node.0 channel) }
{
    let table = SoundTable::<L>::of(t)?;
    table.node_exists(node)?;
    channel_exists(channel) // an armed one may be armed again
}

pub fn disarm<L: Layout>(t: &[u8], node: Node, channel: u16) -> Result<(), Refusal>
    ensures { answer_of result ≡ stopped_at L.PORTS t.now (disarming node.0 channel) }
{
    let table = SoundTable::<L>::of(t)?;
    table.node_exists(node)?;
    channel_exists(channel)?;
    if table::owner::<Channels<L>>(table.bytes, node, channel).0 != 0 {
        return Err(Refusal::ChannelHeld);
    }
    Ok(())
}

pub fn open_all<L: Layout>(t: &[u8], sends: &[u8]) -> Result<(), Refusal>
    ensures { answer_of result ≡ stopped_at L.PORTS t.now (opening_all sends.now) }
{
    soundness::check::<L>(t)?;
    if sends.len() % SEND_BYTES != 0 || sends.len() > LONGEST_LIST {
        return Err(Refusal::SendList);
    }
    Ok(())
}

pub fn fold(t: &[u8], mask: u16) -> Result<(), Refusal>
    ensures { answer_of result ≡ stopped_at wide_ports t.now (folding mask) }
{
    let table = SoundTable::<Wide>::of(t)?;
    table.fold_fits(mask)?;
    if table.partner_held(mask) {
        return Err(Refusal::LinkHeld);
    }
    Ok(())
}

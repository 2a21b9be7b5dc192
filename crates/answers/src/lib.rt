// What the searches of all routing types share: the state of a link, and the shape of an answer.
#![tactic(auto)]

ghost use Rattle.std.specs.Prelude.{◌≡◌, ◌<◌};
ghost use Rattle.cube.specs.Cube.{channels, circuit_of};
ghost use Rattle.entries.specs.EntryContracts.{InTable};
ghost use Rattle.table.specs.View.{view};
ghost use Rattle.answers.specs.SendOnTable.{state_in};
ghost use Rattle.answers.specs.PassOnBytes.{state_of};

use common::refusal::Refusal;
use cube::{Circuit, Node, Port};
use layout::Layout;
use table::Links;

// Cube 13: a link is free, held by a circuit, or blocked: the smallest question has these three answers.
#[derive(Clone, Copy)]
pub enum LinkState {
    Free,
    Held,
    Blocked,
}

// The state of a link.
#[tactic(auto, unfolding(table::specs::View::view))]
pub fn link_state<L: Layout>(t: &[u8], n: Node, p: Port) -> LinkState
    requires within { InTable L.LENGTH L.PORTS t.now n.0 p.0 }
    ensures { state_of result ≡ state_in (view t.now) n.0 p.0 }
{
    let enabled = table::enabled::<Links<L>>(t, n, p);
    link_state_given::<L>(t, n, p, enabled)
}

// The same, where it is known whether the link is enabled. Every hop of every pass asks this; the search has dropped blocked ports before, and to look twice is slower (docs/history/PERFORMANCE.md).
pub fn link_state_given<L: Layout>(t: &[u8], n: Node, p: Port, enabled: bool) -> LinkState
    requires within { InTable L.LENGTH L.PORTS t.now n.0 p.0 }
    requires enabled_value { enabled ≡ (view t.now).enabled n.0 p.0 }
    ensures { state_of result ≡ state_in (view t.now) n.0 p.0 }
{
    if enabled {
        if table::owner::<Links<L>>(t, n, p).0 == 0 {
            LinkState::Free
        } else {
            LinkState::Held
        }
    } else {
        LinkState::Blocked
    }
}

// What a send is asked for: a circuit from a source to a target, over the ports of a vector. That its nodes and ports are those of a table (`MaySendIn`) stands in the contracts:
// it is a fact of the table's bytes too, and a struct that lends these to be written needs one more clause in each, that its slice is the caller's. Nor is `vector ≢ 0` a
// fact of each request: the second pass of routing type 4 may have no port.
#[derive(Clone, Copy, Debug, PartialEq, Eq)]
pub struct SendRequest {
    pub source: Node,
    pub target: Node,
    pub circuit: Circuit,
    pub vector: u16,
}

// What an open asks for: a circuit from a send channel of a node to a target, with a routing type and a send vector.
#[derive(Clone, Copy, Debug, PartialEq, Eq)]
pub struct Opening {
    pub source: Node,
    pub channel: u16,
    pub target: Node,
    pub routing: u16,
    pub vector: u16,
}

impl Opening {
    // The send that it comes to, once its source and its channel are tested.
    pub fn request(self) -> SendRequest
        requires { (self.source.0 < 256) × (self.channel < channels) }
        ensures { result ≡ record { source = self.source; target = self.target; circuit = record { 0 = circuit_of self.source.0 self.channel }; vector = self.vector } }
    {
        SendRequest {
            source: self.source,
            target: self.target,
            circuit: cube::circuit_of(self.source, self.channel),
            vector: self.vector,
        }
    }
}

// An open that was acknowledged: the hops of its path, the receive channel taken, and the scouts sent.
#[derive(Clone, Copy, Debug, PartialEq, Eq)]
pub struct Acknowledged {
    pub hops: u16,
    pub receive: u16,
    pub scouts: u32,
}

// One that was not: the refusal, and the scouts sent until then.
#[derive(Clone, Copy, Debug, PartialEq, Eq)]
pub struct Rejected {
    pub refusal: Refusal,
    pub scouts: u32,
}

// A refusal before the search: no scout was sent.
impl From<Refusal> for Rejected {
    ghost from_gives = { λ refusal rejected. rejected ≡ record { refusal = refusal; scouts = 0 } };

    fn from(refusal: Refusal) -> Rejected {
        Rejected { refusal, scouts: 0 }
    }
}

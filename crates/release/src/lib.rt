// Freeing a circuit (Calls 15): the links of its path one after another, and then the receive channel at its end, which is disarmed too.
#![tactic(auto)]

ghost use Rattle.std.specs.Prelude.{◌≡◌, true};
ghost use Rattle.table.specs.View.{view, without_circuit};
ghost use Rattle.table.specs.Encode.{encode_over};
ghost use Rattle.soundness.specs.Sound.{Sound};
ghost use Rattle.circuit_path.specs.OpenCircuit.{is_open_in};
ghost use Rattle.circuit_path.specs.Follow.{HasSourceIn};
ghost use Rattle.answers.specs.PassOnBytes.{hold_path};
ghost use Rattle.release.specs.Release.{MayFree};

use cube::{Board, Circuit, Node, Port};
use layout::Layout;
use table::{Channels, Links};

// Frees the link out of the first port of a path at a node, then that out of the next port at the node behind it, and so on.
fn release_links<L: Layout>(t: &mut [u8], source: Node, path: &[u8])
    requires { MayFree L.LENGTH t.old source.0 path.now }
    ensures { t.new ≡ hold_path t.old 0 source.0 path.now }
{
    let board = L::board(t);
    let mut at = source;
    for port in path {
        let p = Port(u16::from(*port));
        table::set_owner::<Links<L>>(t, at, p, Circuit(0));
        at = board.neighbour(at, p);
    }
}

// Frees every link and the receive channel of an open circuit, and disarms the channel. In a sound table its path has all of them.
pub fn release<L: Layout>(t: &mut [u8], c: Circuit)
    requires has_source { HasSourceIn L.LENGTH t.old c.0 }
    requires c_value { is_open_in (view t.old) c.0 ≡ true }
    requires sound { Sound (view t.old) }
    ensures { t.new ≡ encode_over L.PORTS (without_circuit (view t.old) c.0) }
{
    let mut ports = [0u8; 9];
    let path = circuit_path::path::<L>(t, c, &mut ports);
    release_links::<L>(t, cube::source_of(c), path.ports);
    let target = path.end;
    if let Some(channel) = table::held_channel::<L>(t, c, target) {
        table::set_owner::<Channels<L>>(t, target, channel, Circuit(0));
        table::set_enabled::<Channels<L>>(t, target, channel, false);
    }
}

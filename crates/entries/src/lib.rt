// One value of a table at a time, read and written: its dimension, whether a link is enabled or a receive channel armed, and the circuit that holds either.
// `InTable` says of a table its length, and of a node and a place in its row their bounds: a type for a table could hold the length alone, and each function would ask the rest.
#![tactic(auto)]

ghost use Rattle.std.specs.Prelude.{◌≡◌, ◌*◌, ◌^◌, ◌<◌, length};
ghost use Rattle.layout.specs.Layout.{dimension_at, mask_size};
ghost use Rattle.entries.specs.EntryContracts.{InTable, enable_bits};

use cube::{Circuit, Node};
use layout::{Layout, Links, Resource};

#[tactic(auto, unfolding(layout::specs::Layout::dimension_at))]
pub fn dimension(t: &[u8]) -> u16
    requires { 0 < length t.now }
    ensures { result ≡ dimension_at t.now }
{
    u16::from(t[layout::DIMENSION])
}

// Whether a link is enabled, or a receive channel armed.
pub fn enabled<H: Resource>(t: &[u8], n: Node, place: H::Place) -> bool
    requires { InTable H.LENGTH H.WIDTH t.now n.0 (H.index place) }
    ensures { result ≡ H.enabled t.now n.0 (H.index place) }
{
    layout::mask_bit(H::mask(t, layout::mask_place::<H>(n)), H::index(place))
}

pub fn set_enabled<H: Resource>(t: &mut [u8], n: Node, place: H::Place, on: bool)
    requires { InTable H.LENGTH H.WIDTH t.old n.0 (H.index place) }
    ensures { t.new ≡ H.put_enabled t.old n.0 (H.index place) on }
{
    let at = layout::mask_place::<H>(n);
    let mask = layout::mask_with(H::mask(t, at), H::index(place), on);
    H::put_mask(t, at, mask);
}

// All enable bits of a node.
#[tactic(auto, unfolding(crate::specs::EntryContracts::enable_bits))]
pub fn enable_bits<L: Layout>(t: &[u8], n: Node) -> u32
    requires { InTable L.LENGTH L.PORTS t.now n.0 0 }
    ensures { (result ≡ enable_bits t.now n.0) × (result < 2 ^ (8 * mask_size L.PORTS)) }
{
    L::mask(t, layout::mask_place::<Links<L>>(n))
}

// The circuit that holds a link or a receive channel: 0 where nobody does, as the bytes have it. An Option would be made of it here and taken apart at each comparison.
#[tactic(auto, using(layout::proofs::Entries::within), unfolding(layout::specs::Layout::entry_at))]
pub fn owner<H: Resource>(t: &[u8], n: Node, place: H::Place) -> Circuit
    requires { InTable H.LENGTH H.WIDTH t.now n.0 (H.index place) }
    ensures { result.0 ≡ H.owner t.now n.0 (H.index place) }
{
    Circuit(layout::word(t, layout::entry_place::<H>(n, place)))
}

#[tactic(auto, unfolding(layout::specs::LayoutContracts::put_entry))]
pub fn set_owner<H: Resource>(t: &mut [u8], n: Node, place: H::Place, c: Circuit)
    requires { InTable H.LENGTH H.WIDTH t.old n.0 (H.index place) }
    ensures { t.new ≡ H.put_owner t.old n.0 (H.index place) c.0 }
{
    layout::put_word(t, layout::entry_place::<H>(n, place), c.0);
}

// The table that the caller lends: its values one at a time, from `entries`; what is asked of the rows of its nodes; and making one.
// Table and node, or a run of nodes, are two arguments: of one node or run the callers ask one thing or two, so that making a struct of them at each call would take more
// than the clause that each function has.
#![tactic(auto)]

mod cube_table;

ghost use Rattle.std.specs.Prelude.{◌≡◌, ◌≢◌, true, ℕ, ◌+◌, ◌*◌, ◌^◌, ◌<◌, ◌≤◌, eqb, length};
ghost use Rattle.common.specs.Decides.{Decides};
ghost use Rattle.common.specs.Lists.{keep, from, lowest};
ghost use Rattle.common.specs.SomeBelow.{some_below};
ghost use Rattle.cube.specs.Cube.{largest_dimension, channels};
ghost use Rattle.layout.specs.Layout.{wide_ports, wide_length, dimension_at, receiver_at};
ghost use Rattle.entries.specs.EntryContracts.{InTable};
ghost use Rattle.table.specs.View.{view, available, fresh};
ghost use Rattle.table.specs.Folding.{set_fold};
ghost use Rattle.table.specs.Encode.{encode_over};
ghost use Rattle.table.specs.TableContracts.{HeldIn, links_held_of, EnablesFit, ArmsFit, place_count, AvailableVector, lowest_channel};

use cube::{Board, Circuit, Node};
pub use cube_table::CubeTable;
pub use entries::{dimension, enable_bits, enabled, owner, set_enabled, set_owner};
use layout::Layout;
pub use layout::{BYTES, Channels, Links, Narrow, Resource, Wide};

// Whether every node has the enable bits of links of its cube alone, and the nodes that the cube lacks have none.
pub fn enables_fit<L: Layout>(t: &[u8], dimension: u16) -> bool
    requires { (length t.now ≡ L.LENGTH) × (dimension ≡ dimension_at t.now) × (dimension ≤ largest_dimension) }
    ensures { Decides (EnablesFit t.now) result }
{
    let nodes = cube::node_count(dimension);
    L::board(t).in_cube(L::masks_or(t, 0, nodes), nodes) && L::masks_or(t, nodes, 256) == 0
}

// Whether nobody holds any of the links, or of the receive channels, of so many nodes from one on. Where it says no, a caller looks at each by itself.
pub fn none_held<H: Resource>(t: &[u8], n: Node, nodes: u16) -> bool
    requires { (length t.now ≡ H.LENGTH) × (n.0 + nodes ≤ 256) × (0 < nodes) }
    ensures { result ≡ true → (m k : ℕ) → n.0 ≤ m → m < n.0 + nodes → k < H.WIDTH → H.owner t.now m k ≡ 0 }
{
    layout::or_bytes(layout::node_rows::<H>(t, n, nodes)) == 0
}

// Whether no receive channel is armed at the nodes that the cube lacks: of the cube's own nodes, all channels may be armed.
pub fn arms_fit<L: Layout>(t: &[u8], dimension: u16) -> bool
    requires { (length t.now ≡ L.LENGTH) × (dimension ≤ largest_dimension) }
    ensures { Decides (ArmsFit t.now dimension) result }
{
    let absent = L::ARMS + usize::from(cube::node_count(dimension));
    layout::or_bytes(&t[absent..L::ARMS + layout::NODES]) == 0
}

// The ports of a node whose links a circuit holds, as a vector; of circuit 0, those whose links nobody holds.
pub fn ports_held<L: Layout>(t: &[u8], c: Circuit, n: Node) -> u32
    requires { InTable L.LENGTH L.PORTS t.now n.0 0 }
    ensures { HeldIn L.PORTS t.now c.0 n.0 result }
{
    layout::row_vector::<Links<L>>(layout::node_row::<Links<L>>(t, n), c)
}

// How many links of a node a circuit holds.
pub fn links_held<L: Layout>(t: &[u8], c: Circuit, n: Node) -> u16
    requires { InTable L.LENGTH L.PORTS t.now n.0 0 }
    ensures { result ≡ links_held_of L.PORTS (view t.now) c.0 n.0 }
{
    layout::row_count::<Links<L>>(layout::node_row::<Links<L>>(t, n), c)
}

// Whether the links of a node that are held are enabled, or its receive channels that are held armed.
pub fn held_enabled<H: Resource>(t: &[u8], n: Node) -> bool
    requires { InTable H.LENGTH H.WIDTH t.now n.0 0 }
    ensures { Decides ((k : ℕ) → k < H.WIDTH → H.owner t.now n.0 k ≢ 0 → H.enabled t.now n.0 k ≡ true) result }
{
    layout::mask_covers::<H>(
        layout::node_row::<H>(t, n),
        H::mask(t, layout::mask_place::<H>(n)),
    )
}

// How many links, or receive channels, of so many nodes from one on nobody holds.
pub fn count_unheld<H: Resource>(t: &[u8], n: Node, nodes: u16) -> u32
    requires { (length t.now ≡ H.LENGTH) × (n.0 + nodes ≤ 256) × (0 < nodes) }
    ensures few { result ≤ H.WIDTH * nodes }
    ensures counted { place_count H.WIDTH (λ n k. eqb (H.owner t.now n k) 0) (H.WIDTH * n.0) + result ≡ place_count H.WIDTH (λ n k. eqb (H.owner t.now n k) 0) (H.WIDTH * (n.0 + nodes)) }
{
    let rows = layout::node_rows::<H>(t, n, nodes);
    // Counted in two bytes, as an entry has, so that several are counted at a time: the library's count, a usize, takes sixteen times the instructions.
    let mut unheld: u16 = 0;
    for i in 0..H::row_bytes(nodes) / layout::ENTRY {
        if layout::word(rows, layout::ENTRY * i) == 0 {
            unheld += 1;
        }
    }
    u32::from(unheld)
}

// The lowest receive channel of a node that a circuit holds, and the lowest that is armed and that nobody holds.
pub fn held_channel<L: Layout>(t: &[u8], c: Circuit, n: Node) -> Option<u16>
    requires { InTable L.LENGTH L.PORTS t.now n.0 0 }
    ensures { result ≡ some_below channels (lowest (λ k. eqb (receiver_at t.now n.0 k) c.0) channels 0) }
{
    cube::lowest_of(
        layout::row_vector::<Channels<L>>(layout::node_row::<Channels<L>>(t, n), c) as u16,
    )
}

pub fn available_channel<L: Layout>(t: &[u8], n: Node) -> Option<u16>
    requires { InTable L.LENGTH L.PORTS t.now n.0 0 }
    ensures { result ≡ some_below channels (lowest_channel (view t.now) n.0) }
{
    cube::lowest_of(available::<L>(t, n) as u16)
}

// How many receive channels of a node are armed and not held.
pub fn available_count<L: Layout>(t: &[u8], n: Node) -> u32
    requires { InTable L.LENGTH L.PORTS t.now n.0 0 }
    ensures { result ≡ length (keep (available (view t.now) n.0) (from 0 channels)) }
{
    available::<L>(t, n).count_ones()
}

// Which are, as a vector.
fn available<L: Layout>(t: &[u8], n: Node) -> u32
    requires { InTable L.LENGTH L.PORTS t.now n.0 0 }
    ensures { AvailableVector (view t.now) n.0 result }
{
    let unheld = layout::row_vector::<Channels<L>>(
        layout::node_row::<Channels<L>>(t, n),
        Circuit(0),
    );
    unheld & u32::from(t[layout::mask_place::<Channels<L>>(n)])
}

// Writes a table of a dimension: all its links enabled, nothing held, no channel armed, nothing folded.
pub fn make<L: Layout>(t: &mut [u8], dimension: u8)
    requires { (length t.old ≡ L.LENGTH) × (dimension ≤ largest_dimension) }
    ensures { t.new ≡ encode_over L.PORTS (fresh dimension) }
{
    let nodes = cube::node_count(u16::from(dimension));
    t[layout::DIMENSION] = dimension;
    t[1..].fill(0);
    for n in 0..nodes {
        L::put_mask(
            t,
            layout::mask_place::<Links<L>>(Node(n)),
            u32::from(nodes - 1),
        );
    }
}

// Sets the fold mask of a wide table: the partner links of each dimension that is folded anew are enabled at every node, and those of a dimension that is folded no
// more are cleared. All others stay as they were.
pub fn set_fold(t: &mut [u8], fold: u8)
    requires long { length t.old ≡ wide_length }
    requires fits { dimension_at t.old ≤ largest_dimension }
    requires bits { fold < 2 ^ dimension_at t.old }
    requires enables { EnablesFit t.old }
    ensures { t.new ≡ encode_over wide_ports (set_fold (view t.old) fold) }
{
    let stay = fold & t[layout::FOLD];
    let kept = cube::with_partners(u32::from(stay), 255);
    let added = cube::partners(u32::from(fold ^ stay));
    let nodes = cube::node_count(dimension(t));
    t[layout::FOLD] = fold;
    for node in 0..nodes {
        let at = layout::mask_place::<Links<Wide>>(Node(node));
        let mask = Wide::mask(t, at);
        Wide::put_mask(t, at, (mask & kept) | added);
    }
}

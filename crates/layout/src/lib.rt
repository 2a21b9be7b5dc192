// The bytes of a table: the place of each value, and the single bytes, words, bits and rows that are read and written there.
#![tactic(auto)]

ghost use Rattle.std.specs.Prelude.{Bool, List, ◌≡◌, ◌≢◌, true, ℕ, ◌+◌, ◌*◌, ◌^◌, ◌<◌, ◌≤◌, length, get_or, set};
ghost use Rattle.common.specs.Decides.{Decides};
ghost use Rattle.cube.specs.Bits.{has, with_bit};
ghost use Rattle.cube.specs.Axes.{positions, present};
ghost use Rattle.cube.specs.Cube.{largest_dimension, port_count};
ghost use Rattle.layout.specs.Layout.{table_length, wide_ports, wide_length, word_at, mask_size, mask_place, mask_number, enable_part, arm_part, entry_place, link_part, receive_part, fold_at, enabled_at, armed_at, owner_at, receiver_at};
ghost use Rattle.layout.specs.LayoutContracts.{put_word, put_number, put_enabled, put_armed, put_owner, put_receiver, node_rows, RunOr, MasksOr, RowVector, row_count};
ghost use Rattle.layout.specs.Resources.{LayoutLaws, narrow_laws, wide_laws, ResourceLaws, links_laws, channels_laws};

use cube::{Board, Circuit, NarrowBoard, Node, Port, WideBoard};
use std::marker::PhantomData;

// The first byte is the dimension. A wide table has the fold mask behind it. Then come the enable bits, a mask for each node; the circuits that hold links and those that
// hold receive channels, a row for each node; and which receive channels are armed, a byte for each node.
pub const BYTES: usize = 8705;

pub const DIMENSION: usize = 0;

pub const FOLD: usize = 1;

pub const NODES: usize = 256;

pub const ENTRY: usize = 2;

// Two bytes, low byte first. A place is a parameter beside the bytes: callers know it as a number from the layout, and one part of a list of sends or an index is read by it too.
pub fn word(t: &[u8], at: usize) -> u16
    requires { at + 1 < length t.now }
    ensures { result ≡ word_at t.now at }
{
    u16::from_le_bytes([t[at], t[at + 1]])
}

pub fn put_word(t: &mut [u8], at: usize, c: u16)
    requires { at + 1 < length t.old }
    ensures { t.new ≡ put_word t.old at c }
{
    let [low, high] = c.to_le_bytes();
    t[at] = low;
    t[at + 1] = high;
}

// Copies bytes one by one, since the library's copy would ask the caller's C for memmove.
pub fn copy(from: &[u8], to: &mut [u8])
    requires { length to.old ≡ length from.now }
    ensures { to.new ≡ from.now }
{
    for (i, byte) in from.iter().enumerate() {
        to[i] = *byte;
    }
}

// Whether a bit of a byte is set.
#[tactic(auto, unfolding(cube::specs::Bits::has, cube::specs::Bits::bit_at))]
pub fn bit(t: &[u8], at: usize, k: u16) -> bool
    requires { (at < length t.now) × (k < 8) }
    ensures { result ≡ has (get_or t.now at 0) k }
{
    (t[at] >> k) % 2 == 1
}

// Sets or clears it.
#[tactic(auto, using(crate::proofs::Entries::bit_kept, crate::proofs::Entries::bit_changed))]
pub fn put_bit(t: &mut [u8], at: usize, k: u16, on: bool)
    requires { (at < length t.old) × (k < 8) }
    ensures { t.new ≡ set t.old at (with_bit (get_or t.old at 0) k on) }
{
    if bit(t, at, k) != on {
        t[at] ^= 1 << k;
    }
}

// Whether a bit of a mask is set, and the mask with the bit set or cleared.
#[tactic(auto, unfolding(cube::specs::Bits::has, cube::specs::Bits::bit_at))]
pub fn mask_bit(mask: u32, k: u16) -> bool
    requires { k < 32 }
    ensures { result ≡ has mask k }
{
    (mask >> k) % 2 == 1
}

#[tactic(auto, using(crate::proofs::Entries::mask_kept, crate::proofs::Entries::mask_changed))]
pub fn mask_with(mask: u32, k: u16, on: bool) -> u32
    requires { k < 32 }
    ensures { result ≡ with_bit mask k on }
{
    if mask_bit(mask, k) != on {
        mask ^ (1 << k)
    } else {
        mask
    }
}

// The two layouts: how many ports a node has, and where the parts of a table begin. What is found in a part by a product has a function of its own, in which one factor is
// a number: each table's code has its own numbers, and a proof over both knows of the product what the contract says.
pub trait Layout {
    // What a search asks of the cube of a table of this layout.
    type Board: Board;

    const LENGTH: usize;

    const PORTS: usize;

    const ENABLE: usize;

    const LINKS: usize;

    const RECEIVES: usize;

    const ARMS: usize;

    ghost LENGTH: { ℕ };

    ghost PORTS: { ℕ };

    ghost ENABLE: { ℕ };

    ghost LINKS: { ℕ };

    ghost RECEIVES: { ℕ };

    ghost ARMS: { ℕ };

    // The bytes of so many nodes' links, and of their enable masks.
    fn link_rows(nodes: u16) -> usize
        requires { nodes ≤ 256 }
        ensures { result ≡ 2 * (PORTS * nodes) };

    fn enable_masks(nodes: u16) -> usize
        requires { nodes ≤ 256 }
        ensures { result ≡ mask_size PORTS * nodes };

    // An enable mask read and written.
    fn mask(t: &[u8], at: usize) -> u32
        requires { at + mask_size PORTS ≤ length t.now }
        ensures { (result ≡ mask_number PORTS t.now at) × (result < 2 ^ (8 * mask_size PORTS)) };

    fn put_mask(t: &mut [u8], at: usize, mask: u32)
        requires { (at + mask_size PORTS ≤ length t.old) × (mask < 2 ^ (8 * mask_size PORTS)) }
        ensures { t.new ≡ put_number PORTS t.old at mask };

    // The or of the enable masks of the nodes from one on before another. It has no early exit, so that many can be read in one go: of masks of one byte, their bytes.
    fn masks_or(t: &[u8], from: u16, to: u16) -> u32
        requires { (length t.now ≡ LENGTH) × (from ≤ to) × (to ≤ 256) }
        ensures { MasksOr PORTS ENABLE t.now from to result };

    // The board of a table, with its fold mask.
    fn board(t: &[u8]) -> Self::Board
        requires { length t.now ≡ LENGTH }
        ensures { (Self.Board.width ≤ PORTS) × (Self.Board.width ≤ positions) × (Self.Board.fold result ≡ fold_at t.now)
            × ((D p : ℕ) → D ≤ largest_dimension → present D (fold_at t.now) p ≡ true → p < Self.Board.width) };

    ghost laws: { LayoutLaws LENGTH PORTS ENABLE LINKS RECEIVES ARMS };
}

// Tables 1 to 6: the narrow table.
pub struct Narrow;

impl Layout for Narrow {
    type Board = NarrowBoard;

    const LENGTH: usize = BYTES;

    const PORTS: usize = 8;

    const ENABLE: usize = 1;

    const LINKS: usize = 257;

    const RECEIVES: usize = 4353;

    const ARMS: usize = 8449;

    ghost LENGTH = { table_length };

    ghost PORTS = { port_count };

    ghost ENABLE = { 1 };

    ghost LINKS = { 257 };

    ghost RECEIVES = { 4353 };

    ghost ARMS = { 8449 };

    ghost laws = { narrow_laws };

    fn link_rows(nodes: u16) -> usize {
        16 * usize::from(nodes)
    }

    fn enable_masks(nodes: u16) -> usize {
        usize::from(nodes)
    }

    #[tactic(auto, unfolding(crate::specs::Layout::mask_number))]
    fn mask(t: &[u8], at: usize) -> u32 {
        u32::from(t[at])
    }

    #[tactic(auto, unfolding(crate::specs::LayoutContracts::put_number))]
    fn put_mask(t: &mut [u8], at: usize, mask: u32) {
        t[at] = mask as u8;
    }

    fn masks_or(t: &[u8], from: u16, to: u16) -> u32 {
        u32::from(or_bytes(&t[Self::ENABLE + usize::from(from)..Self::ENABLE + usize::from(to)]))
    }

    #[tactic(auto, using(crate::proofs::Folds::fold_none, crate::proofs::Folds::none_above))]
    fn board(_t: &[u8]) -> NarrowBoard {
        NarrowBoard
    }
}

// Wide 1 to 7: the wide table.
pub struct Wide;

impl Layout for Wide {
    type Board = WideBoard;

    const LENGTH: usize = 14338;

    const PORTS: usize = 18;

    const ENABLE: usize = 2;

    const LINKS: usize = 770;

    const RECEIVES: usize = 9986;

    const ARMS: usize = 14082;

    ghost LENGTH = { wide_length };

    ghost PORTS = { wide_ports };

    ghost ENABLE = { 2 };

    ghost LINKS = { 770 };

    ghost RECEIVES = { 9986 };

    ghost ARMS = { 14082 };

    ghost laws = { wide_laws };

    fn link_rows(nodes: u16) -> usize {
        36 * usize::from(nodes)
    }

    fn enable_masks(nodes: u16) -> usize {
        3 * usize::from(nodes)
    }

    #[tactic(auto, unfolding(crate::specs::Layout::mask_number))]
    fn mask(t: &[u8], at: usize) -> u32 {
        u32::from(t[at]) + 256 * u32::from(t[at + 1]) + 65536 * u32::from(t[at + 2])
    }

    #[tactic(auto, unfolding(crate::specs::LayoutContracts::put_number))]
    fn put_mask(t: &mut [u8], at: usize, mask: u32) {
        t[at] = (mask % 256) as u8;
        t[at + 1] = (mask / 256 % 256) as u8;
        t[at + 2] = (mask / 65536) as u8;
    }

    fn masks_or(t: &[u8], from: u16, to: u16) -> u32 {
        let mut all = 0;
        for n in from..to {
            all |= Self::mask(t, Self::ENABLE + Self::enable_masks(n));
        }
        all
    }

    #[tactic(auto, using(crate::proofs::Folds::fold_wide, crate::proofs::Folds::port_placed))]
    fn board(t: &[u8]) -> WideBoard {
        WideBoard {
            fold: u32::from(t[1]),
        }
    }
}

// What circuits hold: links, and receive channels. Each has a mask for each node that says which of its places may be taken (links enabled, channels armed), and a row
// for each node that says which circuit holds each of them (0: nobody).
pub trait Resource {
    // One of a node's: a port, or the number of a receive channel.
    type Place: Copy;

    // How many a node has, where their masks begin, and their rows; and the bytes of the table that they are in.
    const WIDTH: usize;

    const MASKS: usize;

    const ROWS: usize;

    ghost LENGTH: { ℕ };

    ghost WIDTH: { ℕ };

    ghost MASKS: { ℕ };

    ghost ROWS: { ℕ };

    ghost index: { Self.Place → ℕ };

    // What the bytes show at a node and a place, and the bytes with another value there.
    ghost enabled: { List ℕ → ℕ → ℕ → Bool };

    ghost owner: { List ℕ → ℕ → ℕ → ℕ };

    ghost put_enabled: { List ℕ → ℕ → ℕ → Bool → List ℕ };

    ghost put_owner: { List ℕ → ℕ → ℕ → ℕ → List ℕ };

    fn index(place: Self::Place) -> u16
        ensures { result ≡ index place };

    // The bytes of so many nodes' rows, and of their masks.
    fn row_bytes(nodes: u16) -> usize
        requires { nodes ≤ 256 }
        ensures { result ≡ 2 * (WIDTH * nodes) };

    fn mask_bytes(nodes: u16) -> usize
        requires { nodes ≤ 256 }
        ensures { result ≡ mask_size WIDTH * nodes };

    // A mask read and written.
    fn mask(t: &[u8], at: usize) -> u32
        requires { at + mask_size WIDTH ≤ length t.now }
        ensures { (result ≡ mask_number WIDTH t.now at) × (result < 2 ^ (8 * mask_size WIDTH)) };

    fn put_mask(t: &mut [u8], at: usize, mask: u32)
        requires { (at + mask_size WIDTH ≤ length t.old) × (mask < 2 ^ (8 * mask_size WIDTH)) }
        ensures { t.new ≡ put_number WIDTH t.old at mask };

    ghost laws: { ResourceLaws LENGTH WIDTH MASKS ROWS enabled owner put_enabled put_owner };
}

pub struct Links<L = Narrow>(PhantomData<L>);

impl<L: Layout> Resource for Links<L> {
    type Place = Port;

    const WIDTH: usize = L::PORTS;

    const MASKS: usize = L::ENABLE;

    const ROWS: usize = L::LINKS;

    ghost LENGTH = { L.LENGTH };

    ghost WIDTH = { L.PORTS };

    ghost MASKS = { L.ENABLE };

    ghost ROWS = { L.LINKS };

    ghost index = { λ p. p.0 };

    ghost enabled = { enabled_at };

    ghost owner = { owner_at };

    ghost put_enabled = { put_enabled };

    ghost put_owner = { put_owner };

    ghost laws = { links_laws L.laws };

    fn index(p: Port) -> u16 {
        p.0
    }

    fn row_bytes(nodes: u16) -> usize {
        L::link_rows(nodes)
    }

    fn mask_bytes(nodes: u16) -> usize {
        L::enable_masks(nodes)
    }

    fn mask(t: &[u8], at: usize) -> u32 {
        L::mask(t, at)
    }

    fn put_mask(t: &mut [u8], at: usize, mask: u32) {
        L::put_mask(t, at, mask);
    }
}

pub struct Channels<L = Narrow>(PhantomData<L>);

impl<L: Layout> Resource for Channels<L> {
    type Place = u16;

    const WIDTH: usize = 8;

    const MASKS: usize = L::ARMS;

    const ROWS: usize = L::RECEIVES;

    ghost LENGTH = { L.LENGTH };

    ghost WIDTH = { 8 };

    ghost MASKS = { L.ARMS };

    ghost ROWS = { L.RECEIVES };

    ghost index = { λ k. k };

    ghost enabled = { armed_at };

    ghost owner = { receiver_at };

    ghost put_enabled = { put_armed };

    ghost put_owner = { put_receiver };

    ghost laws = { channels_laws L.laws };

    fn index(channel: u16) -> u16 {
        channel
    }

    fn row_bytes(nodes: u16) -> usize {
        16 * usize::from(nodes)
    }

    fn mask_bytes(nodes: u16) -> usize {
        usize::from(nodes)
    }

    fn mask(t: &[u8], at: usize) -> u32 {
        Narrow::mask(t, at)
    }

    fn put_mask(t: &mut [u8], at: usize, mask: u32) {
        Narrow::put_mask(t, at, mask);
    }
}

pub fn mask_place<H: Resource>(n: Node) -> usize
    requires { n.0 < 256 }
    ensures { (result ≡ mask_place H.WIDTH H.MASKS n.0) × (result + mask_size H.WIDTH ≤ H.LENGTH) }
{
    H::MASKS + H::mask_bytes(n.0)
}

pub fn entry_place<H: Resource>(n: Node, place: H::Place) -> usize
    requires { (n.0 < 256) × (H.index place < H.WIDTH) }
    ensures { (result ≡ entry_place H.WIDTH H.ROWS n.0 (H.index place)) × (result + 1 < H.LENGTH) }
{
    H::ROWS + H::row_bytes(n.0) + ENTRY * usize::from(H::index(place))
}

// The rows of so many nodes from one on.
pub fn node_rows<H: Resource>(t: &[u8], n: Node, nodes: u16) -> &[u8]
    requires { (length t.now ≡ H.LENGTH) × (n.0 + nodes ≤ 256) × (0 < nodes) }
    ensures { result.now ≡ node_rows H.WIDTH H.ROWS t.now n.0 nodes }
{
    let at = H::ROWS + H::row_bytes(n.0);
    &t[at..at + H::row_bytes(nodes)]
}

// The row of one node.
pub fn node_row<H: Resource>(t: &[u8], n: Node) -> &[u8]
    requires { (length t.now ≡ H.LENGTH) × (n.0 < 256) }
    ensures { (result.now ≡ node_rows H.WIDTH H.ROWS t.now n.0 1) × (length result.now ≡ 2 * H.WIDTH) }
{
    node_rows::<H>(t, n, 1)
}

// The or of some bytes: none of them is above it, and it is 0 where all of them are. It has no early exit, so that many can be read in one go.
pub fn or_bytes(bytes: &[u8]) -> u8
    ensures { RunOr bytes.now result }
{
    bytes.iter().fold(0, |all, byte| all | *byte)
}

// Which entries of a row are a circuit's, as a vector, and how many are. Neither has an early exit, so that the row can be read in one go. The second does not
// count the ones of the first: not every x86-64 has an instruction for that. Nor does it filter and count: the library's count
// is a usize, and takes two and a half times the instructions.
pub fn row_vector<H: Resource>(row: &[u8], c: Circuit) -> u32
    requires { length row.now ≡ 2 * H.WIDTH }
    ensures { RowVector H.WIDTH row.now c.0 result }
{
    let mut vector = 0;
    for k in 0..H::WIDTH {
        if word(row, ENTRY * k) == c.0 {
            vector ^= 1 << k;
        }
    }
    vector
}

pub fn row_count<H: Resource>(row: &[u8], c: Circuit) -> u16
    requires { length row.now ≡ 2 * H.WIDTH }
    ensures { result ≡ row_count H.WIDTH row.now c.0 }
{
    let mut count = 0;
    for k in 0..H::WIDTH {
        if word(row, ENTRY * k) == c.0 {
            count += 1;
        }
    }
    count
}

// Whether a mask has every entry of a row that is not zero: so a node's links that are held are enabled, and its receive channels that are held armed.
pub fn mask_covers<H: Resource>(row: &[u8], mask: u32) -> bool
    requires { (length row.now ≡ 2 * H.WIDTH) × (mask < 2 ^ (8 * mask_size H.WIDTH)) }
    ensures { Decides ((k : ℕ) → k < H.WIDTH → word_at row.now (2 * k) ≢ 0 → has mask k ≡ true) result }
{
    let all = (1 << H::WIDTH) - 1;
    (row_vector::<H>(row, Circuit(0)) | mask) & all == all
}

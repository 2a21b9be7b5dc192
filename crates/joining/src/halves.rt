// Writes the table of two halves: the first's bytes, and behind its nodes those of the second. The halves are sound, so there is nothing behind their nodes.
ghost use Rattle.std.specs.Prelude.{◌≡◌, ◌+◌, ◌*◌, ◌≤◌, ◌<◌, length};
ghost use Rattle.cube.specs.Cube.{port_count};
ghost use Rattle.layout.specs.Layout.{table_length, dimension_at};
ghost use Rattle.table.specs.View.{view};
ghost use Rattle.table.specs.Encode.{encode};
ghost use Rattle.joining.specs.Joined.{joined_view, renumbered};
ghost use Rattle.joining.specs.JoinContracts.{WordsFit, WordsGained, PortSet, PortEnabled, MasksBehind, RowsFit, RowsBehind, Joinable};

use cube::{Circuit, Node, Port};
use layout::Layout;
use table::{Channels, Links, Narrow, Resource};

// A circuit of the second half. 0 is no circuit, and stays so.
#[tactic(auto, unfolding(crate::specs::Joined::renumbered))]
fn renumbered(c: Circuit, gain: u16) -> Circuit
    requires { c.0 + gain < 65536 }
    ensures { result.0 ≡ renumbered gain c.0 }
{
    if c.0 == 0 { c } else { Circuit(c.0 + gain) }
}

// The circuits of some rows written to others, renumbered.
fn renumber_rows(rows: &[u8], to: &mut [u8], gain: u16)
    requires { (length to.old ≡ length rows.now) × WordsFit rows.now gain }
    ensures { WordsGained rows.now gain to.new }
{
    for i in 0..rows.len() / layout::ENTRY {
        let c = Circuit(layout::word(rows, layout::ENTRY * i));
        layout::put_word(to, layout::ENTRY * i, renumbered(c, gain).0);
    }
}

// The rows of the second half's nodes, of its links or of its receive channels, behind those of the first.
fn rows_behind<H: Resource>(second: &[u8], joined: &mut [u8], nodes: u16)
    requires narrow { (H.WIDTH ≡ port_count) × (H.LENGTH ≡ table_length) }
    requires room { (length second.now ≡ table_length) × (length joined.old ≡ table_length) × (0 < nodes) × (2 * nodes ≤ 256) }
    requires fit { RowsFit H.ROWS nodes second.now }
    ensures { RowsBehind H.ROWS nodes second.now joined.old joined.new }
{
    let rows = layout::node_rows::<H>(second, Node(0), nodes);
    let at = H::ROWS + rows.len();
    renumber_rows(
        rows,
        &mut joined[at..at + rows.len()],
        cube::CHANNELS * nodes,
    );
}

// The masks of the second half's nodes, of enabled links or of armed channels, behind those of the first.
fn masks_behind<H: Resource>(second: &[u8], joined: &mut [u8], nodes: u16)
    requires { (H.WIDTH ≡ port_count) × (H.LENGTH ≡ table_length) × (length second.now ≡ table_length) × (length joined.old ≡ table_length) × (2 * nodes ≤ 256) }
    ensures { MasksBehind H.MASKS nodes second.now joined.old joined.new }
{
    let nodes = usize::from(nodes);
    let at = H::MASKS + nodes;
    layout::copy(&second[H::MASKS..at], &mut joined[at..at + nodes]);
}

// Sets one bit of each of some masks.
fn set_port(masks: &mut [u8], port: Port)
    requires { port.0 < port_count }
    ensures { PortSet port.0 masks.old masks.new }
{
    let bit = 1 << port.0;
    for mask in masks.iter_mut() {
        *mask |= bit;
    }
}

// The links of a port enabled, at so many nodes from the first on.
fn enable_port(joined: &mut [u8], port: Port, nodes: u16)
    requires { (length joined.old ≡ table_length) × (port.0 < port_count) × (nodes ≤ 256) }
    ensures { PortEnabled port.0 nodes joined.old joined.new }
{
    set_port(
        &mut joined[Narrow::ENABLE..Narrow::ENABLE + usize::from(nodes)],
        port,
    );
}

// The joined table, written over whatever the bytes were.
pub fn write(first: &[u8], second: &[u8], joined: &mut [u8], dimension: u16)
    requires { Joinable first.now second.now dimension × (length joined.old ≡ table_length) }
    ensures { joined.new ≡ encode (joined_view (view first.now) (view second.now)) }
{
    let nodes = cube::node_count(dimension);
    layout::copy(first, joined);
    joined[layout::DIMENSION] += 1;
    masks_behind::<Links>(second, joined, nodes);
    masks_behind::<Channels>(second, joined, nodes);
    enable_port(joined, Port(dimension), 2 * nodes); // the new port has the number of the dimension
    rows_behind::<Links>(second, joined, nodes);
    rows_behind::<Channels>(second, joined, nodes);
}

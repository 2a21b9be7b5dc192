// Calls 8: whether a table may be used at all: its length, its dimension, and whether it is sound.
ghost use Rattle.std.specs.Prelude.{◌≡◌, List, ℕ, ◌+◌, ◌*◌, ◌<◌, ◌≤◌, replicate};
ghost use Rattle.common.specs.Refusals.{answer_of};
ghost use Rattle.cube.specs.Cube.{channels};
ghost use Rattle.table.specs.View.{view};
ghost use Rattle.soundness.specs.Counting.{Counts, CountsUnheld};
ghost use Rattle.soundness.specs.SoundTest.{sound_test};
ghost use Rattle.soundness.specs.TestContracts.{Usable, AbsentUnarmed, TableAnswer};

use circuit_hops::{ByteMarks, Marks, WideMarks};
use common::refusal::Refusal;
use cube::{Board, Node};
use layout::Layout;
use std::marker::PhantomData;
use table::{Channels, CubeTable, Links};

// Nodes are looked at in groups.
const GROUP: u16 = 16;

const GROUPS: u16 = 16;

// The hops of the circuits that hold a node's receive channels. None where one is not armed, or its circuit does not lead there.
// That no channel is armed at a node that the cube lacks is a clause here and of the two functions below: a struct for it would be made once, around the one that
// the table is already.
fn hops_of<L: Layout, M: Marks>(table: &CubeTable<L>, n: Node, seen: &mut M) -> Option<u32>
    requires node { n.0 < 256 }
    requires unarmed { AbsentUnarmed table.now.bytes.now }
    requires room { L.PORTS ≤ M.width }
    ensures { Counts L.PORTS (view table.now.bytes.now) (channels * n.0) (channels * n.0 + channels) (M.of_node seen.old) (M.of_node seen.new) result }
{
    // Most nodes of most tables hold nothing: they are passed over, in groups or else one by one.
    if table::none_held::<Channels<L>>(table.bytes, n, 1) {
        return Some(0);
    }
    if !table::held_enabled::<Channels<L>>(table.bytes, n) {
        return None;
    }
    // No channel is armed at a node that the cube lacks, so none is held there.
    if n.0 >= table.nodes {
        return Some(0);
    }
    let mut hops = 0;
    for k in 0..cube::CHANNELS {
        let c = table::owner::<Channels<L>>(table.bytes, n, k);
        if c.0 != 0 {
            hops += circuit_hops::hops_to(table, c, n, seen)?;
        }
    }
    Some(hops)
}

fn hops_group<L: Layout, M: Marks>(table: &CubeTable<L>, from: Node, seen: &mut M) -> Option<u32>
    requires group { from.0 + 16 ≤ 256 }
    requires unarmed { AbsentUnarmed table.now.bytes.now }
    requires room { L.PORTS ≤ M.width }
    ensures { Counts L.PORTS (view table.now.bytes.now) (channels * from.0) (channels * from.0 + channels * 16) (M.of_node seen.old) (M.of_node seen.new) result }
{
    if table::none_held::<Channels<L>>(table.bytes, from, GROUP) {
        return Some(0);
    }
    let mut hops = 0;
    for n in from.0..from.0 + GROUP {
        hops += hops_of(table, Node(n), seen)?;
    }
    Some(hops)
}

// The hops of all circuits that hold a receive channel.
fn all_hops<L: Layout, M: Marks>(table: &CubeTable<L>, seen: &mut M) -> Option<u32>
    requires unarmed { AbsentUnarmed table.now.bytes.now }
    requires room { L.PORTS ≤ M.width }
    ensures { Counts L.PORTS (view table.now.bytes.now) 0 (channels * 256) (M.of_node seen.old) (M.of_node seen.new) result }
{
    let mut hops = 0;
    for i in 0..GROUPS {
        hops += hops_group(table, Node(GROUP * i), seen)?;
    }
    Some(hops)
}

// The same from no marks on. A table of 8 ports needs a byte of marks for each node, and there are a quarter as many to clear.
fn received_hops<L: Layout>(table: &CubeTable<L>) -> Option<u32>
    requires { AbsentUnarmed table.now.bytes.now }
    ensures { (after : List ℕ) × Counts L.PORTS (view table.now.bytes.now) 0 (channels * 256) (replicate 256 0) after result }
{
    if L::PORTS <= 8 {
        all_hops(table, &mut ByteMarks::new())
    } else {
        all_hops(table, &mut WideMarks::new())
    }
}

// How many links of a group of nodes nobody holds. None where one is held that is not enabled. No twin of `hops_group`: one call counts the links of all its nodes.
fn unheld_group<L: Layout>(table: &CubeTable<L>, from: Node) -> Option<u32>
    requires { from.0 + 16 ≤ 256 }
    ensures { CountsUnheld L.PORTS (view table.now.bytes.now) from.0 (from.0 + 16) result }
{
    if table::none_held::<Links<L>>(table.bytes, from, GROUP) {
        return Some((usize::from(GROUP) * L::PORTS) as u32);
    }
    // Tried with `all` over the range: the check finds no proof of either return behind it.
    for n in from.0..from.0 + GROUP {
        if !table::held_enabled::<Links<L>>(table.bytes, Node(n)) {
            return None;
        }
    }
    Some(table::count_unheld::<Links<L>>(table.bytes, from, GROUP))
}

// How many links nobody holds. None where one is held that is not enabled. It goes over the groups as `all_hops` does: one loop for both took a sixth more time on a table full of circuits of one
// hop, with the same instructions. One function that is given the count of a group would be no plainer: it would carry what both contracts say, and that of `all_hops` speaks of the marks before and after.
fn all_unheld<L: Layout>(table: &CubeTable<L>) -> Option<u32>
    ensures { CountsUnheld L.PORTS (view table.now.bytes.now) 0 256 result }
{
    let mut unheld = 0;
    for i in 0..GROUPS {
        unheld += unheld_group(table, Node(GROUP * i))?;
    }
    Some(unheld)
}

// The test of a whole table: each circuit that holds a receive channel is followed once, and the links that it leads over, added up, are all that are held.
fn entries_sound<L: Layout>(t: &[u8], dimension: u16) -> bool
    requires { Usable L.LENGTH t.now dimension }
    ensures { result ≡ sound_test (view t.now) }
{
    if !table::arms_fit::<L>(t, dimension) {
        return false;
    }
    if !table::enables_fit::<L>(t, dimension) {
        return false;
    }
    if L::board(t).fold_mask() >> dimension != 0 {
        return false;
    }
    let table = CubeTable::<L> {
        bytes: t,
        nodes: cube::node_count(dimension),
        layout: PhantomData,
    };
    let Some(unheld) = all_unheld(&table) else {
        return false;
    };
    let Some(hops) = received_hops(&table) else {
        return false;
    };
    hops + unheld == (layout::NODES * L::PORTS) as u32
}

// Whether a table may be used, or the refusal of the first test that it fails.
#[tactic(auto, using(crate::proofs::Passing::checks))]
pub fn check<L: Layout>(t: &[u8]) -> Result<(), Refusal>
    ensures { TableAnswer L.PORTS t.now (answer_of result) }
{
    if t.len() != L::LENGTH {
        return Err(Refusal::TableLength);
    }
    let d = table::dimension(t);
    if d < 1 || d > cube::LARGEST_DIMENSION {
        return Err(Refusal::Dimension);
    }
    if !entries_sound::<L>(t, d) {
        return Err(Refusal::NotSound);
    }
    Ok(())
}

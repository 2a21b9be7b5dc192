// The open circuits of a table, in rising order of their numbers (Books 4).
ghost use Rattle.std.specs.Prelude.{◌≡◌, false};
ghost use Rattle.entries.specs.EntryContracts.{InTable};
ghost use Rattle.table.specs.View.{view};
ghost use Rattle.table_book.specs.Writing.{HoldsNone};
ghost use Rattle.table_book.specs.OpenLeft.{LeftIn};

use cube::{CHANNELS, Circuit, Node};
use layout::Layout;
use std::marker::PhantomData;
use std::ops::Range;
use table::{CubeTable, Links};

// Whether anybody holds a link out of a node.
fn any_link_held<L: Layout>(t: &[u8], n: Node) -> bool
    requires { InTable L.LENGTH L.PORTS t.now n.0 0 }
    ensures { result ≡ false → HoldsNone (view t.now) n.0 }
{
    !table::none_held::<Links<L>>(t, n, 1)
}

// Those whose number is still to be looked at: the numbers left of one node, and the nodes above it. A node out of which no link is held has no open circuit, and is passed over: to ask of each of
// 2,048 numbers took ten times as long where one circuit is open.
#[derive(Drop)]
pub(crate) struct OpenCircuits<'a, L: Layout> {
    bytes: &'a [u8],
    numbers: Range<u16>,
    nodes: Range<u16>,
    layout: PhantomData<L>,
    ghost left: { LeftIn L.LENGTH bytes.now numbers nodes },
}

impl<'a, L: Layout> OpenCircuits<'a, L> {
    ghost use Rattle.table_book.specs.OpenLeft.{StartsAt, NodeNext};

    // All open circuits of a table.
    pub(crate) fn of(table: &CubeTable<'a, L>) -> OpenCircuits<'a, L>
        ensures { StartsAt table.now.bytes.now result.bytes.now result.numbers }
    {
        OpenCircuits {
            bytes: table.bytes,
            numbers: 1..1,
            nodes: 0..table.nodes,
            layout: PhantomData,
        }
    }

    // Goes on to the next node out of which a link is held, where there is one.
    fn next_node(&mut self) -> Option<u16>
        requires { self.old.numbers.start ≡ self.old.numbers.end }
        ensures { NodeNext self.old.bytes.now self.old.numbers self.old.nodes result self.new.bytes.now self.new.numbers self.new.nodes }
    {
        let t = self.bytes;
        let node = (self.nodes.start..self.nodes.end).find(|n| any_link_held::<L>(t, Node(*n)))?;
        let first = CHANNELS * node + 1;
        self.nodes.start = node + 1;
        self.numbers = first..first + CHANNELS;
        Some(node)
    }
}

impl<'a, L: Layout> Iterator for OpenCircuits<'a, L> {
    type Item = Circuit;

    ghost use Rattle.std.specs.Iterator.{item_count};
    ghost use Rattle.table_book.specs.OpenLeft.{open_left, GivesOpen};

    ghost next_gives = { λ old r new. GivesOpen L.LENGTH old.bytes.now old.numbers r new.bytes.now new.numbers };

    ghost remaining = { item_count (λ s. open_left s.bytes.now s.numbers) };

    fn next(&mut self) -> Option<Circuit> {
        let t = self.bytes;
        // From node to node, until one has an open circuit. `flat_map` over the nodes gives the same, but a struct cannot name its type.
        loop {
            let found = self
                .numbers
                .find(|c| circuit_path::is_open::<L>(t, Circuit(*c)));
            if let Some(number) = found {
                return Some(Circuit(number));
            }
            self.next_node()?;
        }
    }
}

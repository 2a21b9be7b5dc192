// The tests of a call's arguments, each a function that answers its refusal where it applies. Those that read the table are methods of one that passed its own tests.
#![tactic(auto, using(crate::proofs::Stopping::of_table, std::proofs::lemmas::Bool::Decides::nat_tests), unfolding(common::specs::Tests::refusal, ownership::specs::OnTable::facts_of, table::specs::View::view))]

ghost use Rattle.std.specs.Prelude.{◌≡◌, false, ◌<◌, [], ◌∷◌, IfOk};
ghost use Rattle.common.specs.Refusals.{answer_of};
ghost use Rattle.common.specs.Tests.{refusal};
ghost use Rattle.cube.specs.Cube.{channels};
ghost use Rattle.table.specs.View.{view};
ghost use Rattle.soundness.specs.TableTests.{table_tests};
ghost use Rattle.ownership.specs.Calls.{absent, node, channel_number, port, routing_type, send_vector};
ghost use Rattle.ownership.specs.TableFacts.{open_in};
ghost use Rattle.ownership.specs.OnTable.{facts_of};

use common::refusal::Refusal;
use cube::{Board, Node, Port, RoutingType};
use layout::Layout;
use std::marker::PhantomData;

// Cube 9, Cube 10: a node has send channels 0 to 7, and as many receive channels.
const LAST_CHANNEL: u16 = cube::CHANNELS - 1;

pub(crate) fn channel_exists(c: u16) -> Result<(), Refusal>
    ensures { answer_of result ≡ refusal (channel_number c ∷ []) }
{
    if c > LAST_CHANNEL {
        return Err(Refusal::Channel);
    }
    Ok(())
}

pub(crate) fn type_exists(routing: u16) -> Result<(), Refusal>
    ensures { answer_of result ≡ refusal (routing_type routing ∷ []) }
{
    RoutingType::try_from(routing)?;
    Ok(())
}

// A table that passed its tests.
#[derive(Drop)]
pub struct SoundTable<'a, L: Layout> {
    pub bytes: &'a [u8],
    pub layout: PhantomData<L>,
    pub ghost passed: { refusal (table_tests L.PORTS bytes.now) ≡ 0 },
}

impl<'a, L: Layout> SoundTable<'a, L> {
    // The lent table, or the refusal of the first of its tests that it fails.
    pub(crate) fn of(t: &'a [u8]) -> Result<SoundTable<'a, L>, Refusal>
        ensures answers { answer_of result ≡ refusal (table_tests L.PORTS t.now) }
        ensures lent { IfOk result (λ table. table.bytes.now ≡ t.now) }
    {
        soundness::check::<L>(t)?;
        Ok(SoundTable {
            bytes: t,
            layout: PhantomData,
        })
    }

    pub(crate) fn node_exists(&self, n: Node) -> Result<(), Refusal>
        ensures { answer_of result ≡ refusal (node (facts_of (view self.now.bytes.now)) n.0 ∷ []) }
    {
        if n.0 >= cube::node_count(table::dimension(self.bytes)) {
            return Err(Refusal::Node);
        }
        Ok(())
    }

    pub(crate) fn port_exists(&self, p: Port) -> Result<(), Refusal>
        ensures { answer_of result ≡ refusal (port (facts_of (view self.now.bytes.now)) p.0 ∷ []) }
    {
        let fold = L::board(self.bytes).fold_mask();
        if !cube::present(table::dimension(self.bytes), fold, p) {
            return Err(Refusal::Port);
        }
        Ok(())
    }

    pub(crate) fn vector_fits(&self, vector: u16) -> Result<(), Refusal>
        ensures { answer_of result ≡ refusal (send_vector (facts_of (view self.now.bytes.now)) vector ∷ []) }
    {
        if vector == 0 || vector >= cube::node_count(table::dimension(self.bytes)) {
            return Err(Refusal::SendVector);
        }
        Ok(())
    }

    // Whether a send channel of a node has an open circuit.
    pub(crate) fn has_circuit(&self, s: Node, c: u16) -> bool
        requires node { absent (facts_of (view self.now.bytes.now)) s.0 ≡ false }
        requires channel { c < channels }
        ensures { result ≡ open_in (view self.now.bytes.now) s.0 c }
    {
        circuit_path::is_open::<L>(self.bytes, cube::circuit_of(s, c))
    }
}

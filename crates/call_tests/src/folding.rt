// The tests of a fold mask that a wide table is to have (Folding 4).
#![tactic(auto, using(crate::proofs::Stopping::of_table, std::proofs::lemmas::Bool::Decides::nat_tests), unfolding(common::specs::Tests::refusal, ownership::specs::OnTable::facts_of, table::specs::View::view))]

ghost use Rattle.std.specs.Prelude.{◌≡◌, ◌&&◌, [], ◌∷◌, ◌-◌, ◌<◌};
ghost use Rattle.common.specs.Lists.{any, from};
ghost use Rattle.common.specs.Refusals.{answer_of};
ghost use Rattle.common.specs.Tests.{refusal};
ghost use Rattle.cube.specs.Cube.{cube_nodes};
ghost use Rattle.layout.specs.Layout.{wide_ports, dimension_at};
ghost use Rattle.table.specs.View.{view, held_in};
ghost use Rattle.ownership.specs.Calls.{fold_bits, unfolds};
ghost use Rattle.ownership.specs.OnTable.{facts_of};

use crate::arguments::SoundTable;
use common::refusal::Refusal;
use cube::{Board, Node, Port};
use layout::Layout;
use table::{Links, Wide};

impl SoundTable<'_, Wide> {
    pub(crate) fn fold_fits(&self, mask: u16) -> Result<(), Refusal>
        ensures { answer_of result ≡ refusal (fold_bits (facts_of (view self.now.bytes.now)) mask ∷ []) }
    {
        if mask >= cube::node_count(table::dimension(self.bytes)) {
            return Err(Refusal::Port);
        }
        Ok(())
    }

    // Whether the link out of a port is held at a node.
    fn port_held(&self, p: Port) -> bool
        requires { p.0 < wide_ports }
        ensures { result ≡ any (λ n. held_in (view self.now.bytes.now) n p.0) (from 0 (cube_nodes (dimension_at self.now.bytes.now))) }
    {
        for n in 0..cube::node_count(table::dimension(self.bytes)) {
            if table::owner::<Links<Wide>>(self.bytes, Node(n), p).0 != 0 {
                return true;
            }
        }
        false
    }

    // Whether the mask would unfold a dimension of which a partner link is held.
    fn unfolds_held(&self, mask: u16, p: u16) -> bool
        requires { p < dimension_at self.now.bytes.now }
        ensures { result ≡ (unfolds (facts_of (view self.now.bytes.now)) mask p && any (λ n. held_in (view self.now.bytes.now) n (17 - p)) (from 0 (cube_nodes (dimension_at self.now.bytes.now)))) }
    {
        let fold = Wide::board(self.bytes).fold_mask();
        layout::mask_bit(fold, p)
            && !layout::mask_bit(u32::from(mask), p)
            && self.port_held(cube::partner(Port(p)))
    }

    // Whether it would unfold any such dimension.
    pub(crate) fn partner_held(&self, mask: u16) -> bool
        ensures { result ≡ any (λ p. unfolds (facts_of (view self.now.bytes.now)) mask p && any (λ n. held_in (view self.now.bytes.now) n (17 - p)) (from 0 (cube_nodes (dimension_at self.now.bytes.now)))) (from 0 (dimension_at self.now.bytes.now)) }
    {
        for p in 0..table::dimension(self.bytes) {
            if self.unfolds_held(mask, p) {
                return true;
            }
        }
        false
    }
}

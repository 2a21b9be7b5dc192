// Writes what a table shows in the other layout, part by part, over whatever the bytes were. The table that is read is sound and has no fold mask: it has nothing at ports
// that the other lacks.
ghost use Rattle.std.specs.Prelude.{◌≡◌, ◌*◌, ◌≤◌, length};
ghost use Rattle.table.specs.View.{view};
ghost use Rattle.table.specs.Encode.{encode_over};
ghost use Rattle.converting.specs.ConvertContracts.{FrontWritten, MasksFit, MasksCopied, RowCopied, LinksCopied, ChannelsCopied, FitsBoth};

use cube::Node;
use layout::{Layout, Links};

// The dimension, and a fold mask of zero where the layout has one.
fn write_front<L: Layout>(to: &mut [u8], dimension: u8)
    requires { length to.old ≡ L.LENGTH }
    ensures { FrontWritten L.ENABLE dimension to.new }
{
    to[layout::DIMENSION] = dimension;
    to[layout::DIMENSION + 1..L::ENABLE].fill(0);
}

// The masks of enabled links.
fn copy_masks<F: Layout, L: Layout>(from: &[u8], to: &mut [u8])
    requires long { (length from.now ≡ F.LENGTH) × (length to.old ≡ L.LENGTH) }
    requires fit { MasksFit F.PORTS F.ENABLE from.now }
    ensures { MasksCopied F.PORTS F.ENABLE L.PORTS L.ENABLE from.now 256 to.old to.new }
{
    for n in 0..256 {
        let mask = F::mask(from, layout::mask_place::<Links<F>>(Node(n)));
        L::put_mask(to, layout::mask_place::<Links<L>>(Node(n)), mask);
    }
}

// The bytes of the links that a node has in both layouts, and zeros at the others.
const ROW: usize = 16;

fn copy_row(from: &[u8], to: &mut [u8])
    requires { (16 ≤ length from.now) × (16 ≤ length to.old) }
    ensures { RowCopied from.now to.new }
{
    layout::copy(&from[..ROW], &mut to[..ROW]);
    to[ROW..].fill(0);
}

// The circuits that hold links.
fn copy_links<F: Layout, L: Layout>(from: &[u8], to: &mut [u8])
    requires { (length from.now ≡ F.LENGTH) × (length to.old ≡ L.LENGTH) }
    ensures { LinksCopied F.PORTS F.LINKS L.PORTS L.LINKS from.now 256 to.old to.new }
{
    for n in 0..256 {
        let at = L::LINKS + L::link_rows(n);
        copy_row(
            layout::node_row::<Links<F>>(from, Node(n)),
            &mut to[at..at + layout::ENTRY * L::PORTS],
        );
    }
}

// The circuits that hold receive channels, and which channels are armed: the last parts of both layouts.
fn copy_channels<F: Layout, L: Layout>(from: &[u8], to: &mut [u8])
    requires { (length from.now ≡ F.LENGTH) × (length to.old ≡ L.LENGTH) }
    ensures { ChannelsCopied F.RECEIVES L.RECEIVES from.now to.old to.new }
{
    layout::copy(&from[F::RECEIVES..], &mut to[L::RECEIVES..]);
}

// The table written.
pub fn write<F: Layout, L: Layout>(from: &[u8], to: &mut [u8])
    requires { FitsBoth from.now × (length from.now ≡ F.LENGTH) × (length to.old ≡ L.LENGTH) }
    ensures { to.new ≡ encode_over L.PORTS (view from.now) }
{
    write_front::<L>(to, from[layout::DIMENSION]);
    copy_masks::<F, L>(from, to);
    copy_links::<F, L>(from, to);
    copy_channels::<F, L>(from, to);
}

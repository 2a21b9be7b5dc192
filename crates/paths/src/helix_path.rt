// The links of a helix path (Searches 6), one by one.
ghost use Rattle.std.specs.Prelude.{◌≡◌, ◌<◌, ⊤};
ghost use Rattle.paths.specs.BoardPorts.{BoardPorts};
ghost use Rattle.paths.specs.HelixLinks.{LinkInside, largest, helix_links};
ghost use Rattle.paths.specs.LinksLeft.{links_offered};

use cube::{Board, Node, Port};
use std::alloc::AllocError;

// The links still to come, each as a node and a port of it: from the node reached, over the first of the ports that are offered there towards the target, in the
// helical order behind the arrival port. The target offers none. The first of them is looked up when the link is asked for: with each link worked out before it is
// asked for, seven paths that were tried and not free took a quarter more time.
pub struct HelixPath<B: Board> {
    pub node: Node,
    pub offered: u32,
    pub arrival: Port,
    pub target: Node,
    pub board: B,
    pub ghost node_inside: { node.0 < 256 },
    pub ghost offered_there: { BoardPorts B.width (largest (B.fold board)) offered },
    pub ghost arrival_inside: { arrival.0 < B.width },
    pub ghost target_inside: { target.0 < 256 },
}

// Not derived: the kit derives neither for a struct with a parameter and a ghost field.
impl<B: Board> Clone for HelixPath<B> {
    ghost is_clone = { λ x y. y ≡ x };

    ghost is_infallible = { λ _. ⊤ };

    fn clone(&self) -> Result<HelixPath<B>, AllocError> {
        Ok(*self)
    }
}

impl<B: Board> Copy for HelixPath<B> {}

impl<B: Board> HelixPath<B> {
    // The path begins over one port, whatever other ports the source has towards the target.
    pub fn new(source: Node, target: Node, port: Port, board: B) -> HelixPath<B>
        requires source_inside { LinkInside B.width (B.fold board) source.0 port.0 }
        requires target_inside { target.0 < 256 }
        ensures { links_offered (B.fold result.board) result.node.0 result.target.0 result.offered result.arrival.0 ≡ helix_links (B.fold board) source.0 target.0 port.0 }
    {
        HelixPath {
            node: source,
            offered: 1 << port.0,
            arrival: port,
            target,
            board,
        }
    }
}

impl<B: Board> Iterator for HelixPath<B> {
    ghost use Rattle.std.specs.Option.{IfSome};
    ghost use Rattle.std.specs.Iterator.{YieldsFirstBy, item_count};
    ghost use Rattle.paths.specs.LinksLeft.{links_offered, link_of};

    type Item = (Node, Port);

    ghost next_gives = { λ old r new. YieldsFirstBy link_of (λ p. links_offered (B.fold p.board) p.node.0 p.target.0 p.offered p.arrival.0) old r new
        × IfSome r (λ l. LinkInside B.width (B.fold old.board) l.0.0 l.1.0) };

    ghost remaining = { item_count (λ p. links_offered (B.fold p.board) p.node.0 p.target.0 p.offered p.arrival.0) };

    fn next(&mut self) -> Option<(Node, Port)> {
        if self.offered == 0 {
            return None;
        }
        let node = self.node;
        let port = self.board.first_port(self.offered, self.arrival);
        self.node = self.board.neighbour(node, port);
        let uphill = u32::from(cube::uphill_vector(self.node, self.target));
        self.offered = self.board.with_partners(uphill);
        self.arrival = port;
        Some((node, port))
    }
}

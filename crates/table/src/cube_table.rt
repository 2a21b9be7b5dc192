// A lent table of the right length, whose dimension is one that a table has room for.
ghost use Rattle.std.specs.Prelude.{◌≡◌, ◌≤◌, length};
ghost use Rattle.cube.specs.Cube.{largest_dimension, cube_nodes};
ghost use Rattle.layout.specs.Layout.{dimension_at};

use layout::Layout;
use std::marker::PhantomData;

// The bytes, and how many nodes the cube has. It is lent on: a struct with a parameter and facts about a slice cannot be Copy.
#[derive(Drop)]
pub struct CubeTable<'a, L: Layout> {
    pub bytes: &'a [u8],
    pub nodes: u16,
    pub layout: PhantomData<L>,
    pub ghost long: { length bytes.now ≡ L.LENGTH },
    pub ghost fits: { dimension_at bytes.now ≤ largest_dimension },
    pub ghost count: { nodes ≡ cube_nodes (dimension_at bytes.now) },
}

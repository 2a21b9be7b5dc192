// Marks of circuits that were followed: a number for each node, with the links that a marked circuit holds at its source.
ghost use Rattle.std.specs.Prelude.{◌≡◌, true, List, ℕ, ◌^◌, ◌<◌, eqb, get_or, length, replicate};
ghost use Rattle.std.specs.Int.Bits.{bit_and};
ghost use Rattle.circuit_hops.specs.Seen.{with_marks};

use cube::Node;

pub trait Marks {
    // How many links of a node there is room for, and the numbers.
    ghost width: { ℕ };

    ghost of_node: { Self → List ℕ };

    // Marks the links that a circuit holds at its source. No other circuit holds one of them: so where one was marked before, the circuit was.
    fn mark(&mut self, source: Node, held: u32) -> bool
        requires { (source.0 < 256) × (held < 2 ^ width) }
        ensures nodes { length (of_node self.old) ≡ 256 }
        ensures is_new { result ≡ eqb (bit_and (get_or (of_node self.old) source.0 0) held) 0 }
        ensures newly_marked { result ≡ true → of_node self.new ≡ with_marks (of_node self.old) source.0 held };
}

// A byte for each node.
#[derive(Clone, Copy)]
pub struct ByteMarks {
    pub of_node: [u8; 256],
}

impl ByteMarks {
    pub fn new() -> ByteMarks
        ensures { result.of_node ≡ replicate 256 0 }
    {
        ByteMarks { of_node: [0; 256] }
    }
}

impl Marks for ByteMarks {
    ghost width = { 8 };

    ghost of_node = { λ m. m.of_node };

    fn mark(&mut self, source: Node, held: u32) -> bool {
        let at = usize::from(source.0);
        let old = u32::from(self.of_node[at]);
        if old & held != 0 {
            return false;
        }
        // Both are below 256, so the cast cuts nothing off; u8::try_from would answer a failure that cannot come.
        self.of_node[at] = (old | held) as u8;
        true
    }
}

// Room for all ports that a wide table has.
#[derive(Clone, Copy)]
pub struct WideMarks {
    pub of_node: [u32; 256],
}

impl WideMarks {
    pub fn new() -> WideMarks
        ensures { result.of_node ≡ replicate 256 0 }
    {
        WideMarks { of_node: [0; 256] }
    }
}

impl Marks for WideMarks {
    ghost width = { 18 };

    ghost of_node = { λ m. m.of_node };

    fn mark(&mut self, source: Node, held: u32) -> bool {
        let at = usize::from(source.0);
        let old = self.of_node[at];
        if old & held != 0 {
            return false;
        }
        self.of_node[at] = old | held;
        true
    }
}

// The book of the circuits of a table: how large it is, and its bytes in two lent buffers.
#![tactic(auto)]

mod open_circuits;

ghost use Rattle.std.specs.Prelude.{◌≡◌, ◌+◌, ◌*◌, ◌≤◌, length};
ghost use Rattle.std.proofs.lemmas.List.Edits.{sets};
ghost use Rattle.cube.specs.Cube.{channels};
ghost use Rattle.table.specs.View.{view};
ghost use Rattle.circuit_path.specs.Traced.{traced_into};
ghost use Rattle.book.specs.Book.{port_bytes, index_bytes, hop_count};
ghost use Rattle.book.specs.BookOf.{book_of};
ghost use Rattle.table_book.specs.Writing.{held_count, line_bytes};

use book::BookLine;
use cube::{Circuit, Node};
use layout::{Channels, Layout, Links, Resource};
use open_circuits::OpenCircuits;
use table::CubeTable;

// How many circuits a book has, and how many hops in all. The hops are as many as links are held, up to 2,048 in a cube of dimension 8 and 4,096 where all of it is folded. What is known here, that a
// circuit has 9 at most, is enough for two bytes.
#[derive(Clone, Copy)]
pub struct BookSize {
    pub circuits: u16,
    pub hops: u16,
}

const EMPTY: BookSize = BookSize {
    circuits: 0,
    hops: 0,
};

impl BookSize {
    // With a circuit more, of so many hops.
    fn with(self, hops: u16) -> BookSize
        requires { (self.circuits ≤ channels * 256) × (self.hops ≤ 9 * self.circuits) × (hops ≤ 9) }
        ensures { (result.circuits ≡ self.circuits + 1) × (result.hops ≡ self.hops + hops) }
    {
        BookSize {
            circuits: self.circuits + 1,
            hops: self.hops + hops,
        }
    }
}

// How many links, or receive channels, of a table are held.
fn count_held<H: Resource>(t: &[u8]) -> u16
    requires { length t.now ≡ H.LENGTH }
    ensures { result ≡ held_count H.WIDTH (H.owner t.now) }
{
    let unheld = table::count_unheld::<H>(t, Node(0), 256);
    (layout::NODES * H::WIDTH) as u16 - unheld as u16
}

// Books 5: how large the book of a sound table is. It has as many circuits as receive channels are held, and as many hops as links are. Both are counted in one pass over the rows; to walk along each path
// took as long as writing the book.
pub fn book_size<L: Layout>(t: &[u8]) -> BookSize
    requires { length t.now ≡ L.LENGTH }
    ensures { (result.circuits ≡ held_count channels (view t.now).receiver) × (result.hops ≡ held_count L.PORTS (view t.now).owner) }
{
    BookSize {
        circuits: count_held::<Channels<L>>(t),
        hops: count_held::<Links<L>>(t),
    }
}

// A line of the index: the number of a circuit, where its ports begin, and how many they are.
fn put_line(index: &mut [u8], at: usize, x: BookLine)
    requires { at + 6 ≤ length index.old }
    ensures { index.new ≡ sets index.old at (line_bytes x.number x.offset x.hops) }
{
    layout::put_word(index, at, x.number);
    layout::put_word(index, at + 2, x.offset);
    layout::put_word(index, at + 4, x.hops);
}

// Adds a circuit with its path to a book that has such a size. The buffers stay two parameters: a struct of them would need clauses that each is still the lent one.
fn put_circuit(ports: &mut [u8], index: &mut [u8], size: BookSize, c: Circuit, path: &[u8])
    requires few { length path.now ≤ 9 }
    requires room { (size.hops + length path.now ≤ length ports.old) × (6 * size.circuits + 6 ≤ length index.old) }
    ensures ports_after { ports.new ≡ sets ports.old size.hops path.now }
    ensures index_after { index.new ≡ sets index.old (6 * size.circuits) (line_bytes c.0 size.hops (length path.now)) }
{
    let at = usize::from(size.hops);
    ports[at..at + path.len()].copy_from_slice(path);
    let x = BookLine {
        number: c.0,
        offset: size.hops,
        hops: path.len() as u16,
    };
    put_line(index, book::LINE * usize::from(size.circuits), x);
}

// Writes the book of a table: the ports of its circuits end to end (Books 2), and a line of the index for each (Books 3).
pub fn write_book<L: Layout>(table: &CubeTable<L>, ports: &mut [u8], index: &mut [u8])
    requires { (hop_count (book_of (view table.now.bytes.now)) ≤ length ports.old) × (6 * length (book_of (view table.now.bytes.now)) ≤ length index.old) }
    ensures ports_after { ports.new ≡ traced_into (port_bytes (book_of (view table.now.bytes.now))) ports.old }
    ensures index_after { index.new ≡ traced_into (index_bytes (book_of (view table.now.bytes.now))) index.old }
{
    let mut buffer = [0u8; 9];
    let mut size = EMPTY;
    for circuit in OpenCircuits::of(table) {
        // A path has 9 ports at most: `try_from` would answer a failure that cannot come.
        let path = circuit_path::path::<L>(table.bytes, circuit, &mut buffer).ports;
        put_circuit(ports, index, size, circuit, path);
        size = size.with(path.len() as u16);
    }
}

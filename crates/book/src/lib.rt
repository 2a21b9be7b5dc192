// A book of circuits in two buffers: the ports of all circuits end to end (Books 2), and an index with a line of six bytes for each circuit (Books 3). What is read
// of one here may come from anywhere.
#![tactic(auto)]

ghost use Rattle.std.specs.Prelude.{◌≡◌, ◌+◌, ◌*◌, ◌^◌, ◌≤◌, ◌<◌, length};
ghost use Rattle.std.proofs.lemmas.List.Edits.{sets};
ghost use Rattle.std.specs.Iterator.{YieldsFirstBy, item_count};
ghost use Rattle.book.specs.Lookup.{first_line, index_lines, line_fits, lines_fit, ports_of_line, well_formed, looked_up};
ghost use Rattle.book.specs.BookContracts.{line_is, lines_left, line_if, lookup_result};

use common::refusal::Refusal;
use cube::Circuit;

// The most hops that a circuit has; with a lookup, the bytes that its buffer has to have.
const LONGEST_PATH: u16 = 9;

const LARGEST_CIRCUIT: u16 = 2048;

// The bytes of a line of the index.
pub const LINE: usize = 6;

// A circuit's number, where its ports begin in the other buffer, and how many they are.
#[derive(Clone, Copy)]
pub struct BookLine {
    pub number: u16,
    pub offset: u16,
    pub hops: u16,
}

// What the first line stands behind: number 0, and no ports before it.
const BEFORE_FIRST: BookLine = BookLine {
    number: 0,
    offset: 0,
    hops: 0,
};

impl BookLine {
    // Read from the six bytes of a line.
    fn read(line: &[u8]) -> BookLine
        requires { 6 ≤ length line.now }
        ensures { line_is result ≡ first_line line.now }
    {
        BookLine {
            number: layout::word(line, 0),
            offset: layout::word(line, 2),
            hops: layout::word(line, 4),
        }
    }

    // Where its ports end.
    fn end(self) -> u16
        requires { self.offset + self.hops < 2 ^ 16 }
        ensures { result ≡ self.offset + self.hops }
    {
        self.offset + self.hops
    }

    // Its part of the ports of all circuits.
    pub fn path(self, ports: &[u8]) -> &[u8]
        requires { self.offset + self.hops ≤ length ports.now }
        ensures { result.now ≡ ports_of_line ports.now (line_is self) }
    {
        &ports[usize::from(self.offset)..][..usize::from(self.hops)]
    }

    // Whether a line may stand behind another.
    #[tactic(auto, unfolding(crate::specs::Lookup::line_fits))]
    fn fits(self, last: BookLine) -> bool
        requires { last.offset + last.hops < 2 ^ 16 }
        ensures { result ≡ line_fits last.number (last.offset + last.hops) (line_is self) }
    {
        self.number > last.number
            && self.number <= LARGEST_CIRCUIT
            && self.offset == last.end()
            && self.hops >= 1
            && self.hops <= LONGEST_PATH
    }
}

// The lines of an index that are left to read. `chunks_exact` with `map` gives the same lines, but the language cannot name that type as a result, so each function that goes over them would
// have to build it.
#[derive(Drop)]
pub struct IndexLines<'a> {
    index: &'a [u8],
}

impl Iterator for IndexLines<'_> {
    type Item = BookLine;

    ghost next_gives = { YieldsFirstBy line_is lines_left };

    ghost remaining = { item_count lines_left };

    #[tactic(auto, using(crate::proofs::Lines::lines_end, crate::proofs::Lines::lines_next))]
    fn next(&mut self) -> Option<BookLine> {
        let (line, rest) = self.index.split_at_checked(LINE)?;
        self.index = rest;
        Some(BookLine::read(line))
    }
}

// Whether the lines of an index may stand behind each other, from number 0 and port 0 on, up to the count of hops.
#[tactic(auto, unfolding(crate::specs::Lookup::lines_fit), using(crate::proofs::Lines::line_fits_lem))]
fn lines_fit(lines: IndexLines, hops: u16) -> bool
    ensures { result ≡ lines_fit 0 0 (lines_left lines.entry) hops }
{
    let mut last = BEFORE_FIRST;
    for line in lines {
        if !line.fits(last) {
            return false;
        }
        last = line;
    }
    last.end() == hops
}

// The line of a circuit, where an index has one. It is looked for from the front: the lines are bytes, and the library's binary search wants a slice of them read.
fn listed_line(mut lines: IndexLines, c: Circuit) -> Option<BookLine>
    ensures { line_if c.0 (lines_left lines.entry) result }
{
    lines.find(|x| x.number == c.0)
}

// Copies a path to the start of a buffer: port by port, since the library's copy would ask the caller's C for memmove.
fn put_path(buffer: &mut [u8], path: &[u8])
    requires { length path.now ≤ length buffer.old }
    ensures { buffer.new ≡ sets buffer.old 0 path.now }
{
    for (i, port) in path.iter().enumerate() {
        buffer[i] = *port;
    }
}

// A book as it is lent: its two buffers, how many circuits it has, and how many hops in all. The counts come from C beside the buffers, which may be longer.
#[derive(Clone, Copy)]
pub struct Book<'a> {
    pub ports: &'a [u8],
    pub index: &'a [u8],
    pub circuits: u16,
    pub hops: u16,
}

impl Book<'_> {
    // The lines of its index.
    #[tactic(auto, using(crate::proofs::Lines::lines_cut))]
    pub fn lines(&self) -> IndexLines<'_>
        requires { 6 * self.now.circuits ≤ length self.now.index.now }
        ensures { lines_left result ≡ index_lines self.now.circuits self.now.index.now }
    {
        IndexLines {
            index: &self.index[..LINE * usize::from(self.circuits)],
        }
    }

    // Books 9: whether a book is well formed.
    #[tactic(auto, unfolding(crate::specs::Lookup::well_formed))]
    pub fn well_formed(&self) -> bool
        ensures { result ≡ well_formed self.now.ports.now self.now.index.now self.now.circuits self.now.hops }
    {
        self.index.len() >= LINE * usize::from(self.circuits)
            && self.ports.len() >= usize::from(self.hops)
            && lines_fit(self.lines(), self.hops)
    }

    // Books 10, Books 12: writes the ports of a circuit of a book to the start of a buffer, and answers how many they are. A refused lookup writes nothing.
    pub fn lookup(&self, c: Circuit, buffer: &mut [u8]) -> Result<u16, Refusal>
        ensures { lookup_result result buffer.new ≡ looked_up self.now.ports.now self.now.index.now self.now.circuits self.now.hops c.0 buffer.old }
    {
        if !self.well_formed() {
            return Err(Refusal::Book);
        }
        let x = listed_line(self.lines(), c).ok_or(Refusal::NoCircuit)?;
        if buffer.len() < usize::from(LONGEST_PATH) {
            return Err(Refusal::BufferShort);
        }
        put_path(buffer, x.path(self.ports));
        Ok(x.hops)
    }
}

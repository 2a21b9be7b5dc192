// Reading a line: the call that it asks for.
#![tactic(auto)]

ghost use Rattle.std.specs.Prelude.{◌≡◌, ◌≤◌, List, [], ◌∷◌, ◌++◌, ℕ, length, take, MatchOption};
ghost use Rattle.text.specs.Lines.{fields};
ghost use Rattle.input_line.specs.Line.{by_letter, asks};
ghost use Rattle.input_line.specs.ReadLine.{call_of, ReadNumbers};

use answers::Opening;
use cube::{Node, Port};
use std::marker::Model;
use text::number;

const LONGEST: usize = 40;

// The most numbers that a call letter has.
const MOST: usize = 5;

// The numbers behind a call letter, as far as they were read: an array and a count, as there is no heap.
#[derive(Drop)]
struct Numbers {
    values: [u16; 5],
    count: usize,
}

impl Model for Numbers {
    ghost Value = { List ℕ };

    ghost view = { λ n. take n.count n.values };

    ghost invariant = { λ n. n.count ≤ 5 };
}

impl Numbers {
    fn new() -> Numbers
        ensures { result ≡ [] }
    {
        Numbers {
            values: [0; 5],
            count: 0,
        }
    }

    // Adds a number, where there is room for it.
    fn push(&mut self, n: u16) -> Option<()>
        ensures { MatchOption result (5 ≤ length self.old) (λ _. self.new ≡ self.old ++ n ∷ []) }
    {
        if self.count == MOST {
            return None;
        }
        self.values[self.count] = n;
        self.count += 1;
        Some(())
    }

    // The numbers of a text, one space between; None where they cannot be read or are more than five.
    fn read(text: &[u8]) -> Option<Numbers>
        ensures { ReadNumbers (fields text.now) result }
    {
        let mut numbers = Numbers::new();
        for field in text.split(|x| *x == b' ') {
            numbers.push(number::read(field)?)?;
        }
        Some(numbers)
    }

    fn as_slice(&self) -> &[u16]
        ensures { result.now ≡ self.now }
    {
        &self.values[..self.count]
    }
}

// What a line asks.
#[derive(Clone, Copy)]
pub enum Asked {
    Make(u16),
    Block(Node, Port),
    Unblock(Node, Port),
    Open(Opening),
    Close(Node, u16),
    Arm(Node, u16),
    Disarm(Node, u16),
    Fold(u16),
}

// What a letter and the numbers behind it ask, where they are as many as it has. The letters stand here as they are read, and in `line_answer` as they are printed.
#[tactic(auto, using(std::proofs::lemmas::Bool::Decides::nat_tests), unfolding(crate::specs::Line::by_letter, crate::specs::Line::numbers_of, crate::specs::Line::asked))]
fn by_letter(letter: u8, numbers: &[u16]) -> Option<Asked>
    ensures { call_of result ≡ by_letter letter numbers.now }
{
    match (letter, numbers) {
        (b'F', [dimension]) => Some(Asked::Make(*dimension)),
        (b'B', [node, port]) => Some(Asked::Block(Node(*node), Port(*port))),
        (b'E', [node, port]) => Some(Asked::Unblock(Node(*node), Port(*port))),
        (b'S', [source, channel, target, routing, vector]) => Some(Asked::Open(Opening {
            source: Node(*source),
            channel: *channel,
            target: Node(*target),
            routing: *routing,
            vector: *vector,
        })),
        (b'C', [source, channel]) => Some(Asked::Close(Node(*source), *channel)),
        (b'R', [node, channel]) => Some(Asked::Arm(Node(*node), *channel)),
        (b'D', [node, channel]) => Some(Asked::Disarm(Node(*node), *channel)),
        (b'M', [mask]) => Some(Asked::Fold(*mask)),
        _ => None,
    }
}

pub fn read(line: &[u8]) -> Option<Asked>
    ensures { call_of result ≡ asks line.now }
{
    if LONGEST < line.len() {
        return None;
    }
    match line {
        [letter, b' ', rest @ ..] => by_letter(*letter, Numbers::read(rest)?.as_slice()),
        _ => None,
    }
}

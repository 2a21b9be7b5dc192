// What a table is answered, as it is and with single bytes changed.
use common::refusal::{self, Refusal};
use std::{fmt, io};
use table::Narrow;

// How often each answer came.
#[derive(Clone, Copy, Default)]
struct Tally {
    sound: u64,
    dimension: u64,
    not_sound: u64,
}

impl Tally {
    fn count(&mut self, answer: Result<(), Refusal>) {
        match answer {
            Ok(()) => self.sound = self.sound.wrapping_add(1),
            Err(Refusal::Dimension) => self.dimension = self.dimension.wrapping_add(1),
            Err(Refusal::NotSound) => self.not_sound = self.not_sound.wrapping_add(1),
            Err(_) => {}
        }
    }
}

impl fmt::Display for Tally {
    fn fmt<W: fmt::Write>(&self, f: &mut fmt::Formatter<W>) -> fmt::Result {
        write!(
            f,
            "{} sound, {} refused by dimension, {} not sound",
            self.sound, self.dimension, self.not_sound
        )
    }
}

// The answers with one byte changed, at every offset in turn; the byte is put back.
fn every_offset<F: Fn(u8) -> u8>(t: &mut [u8], change: F, tally: &mut Tally)
    requires { F.IsAlwaysCallable change }
{
    for at in 0..t.len() {
        let old = t[at];
        t[at] = change(old);
        tally.count(soundness::check::<Narrow>(t));
        t[at] = old;
    }
}

fn every_bit(t: &mut [u8], tally: &mut Tally) {
    for bit in 0u8..8 {
        let mask = 1u8 << bit;
        every_offset(t, |byte| byte ^ mask, tally);
    }
}

// The number that a table is answered.
pub fn number(t: &[u8]) -> u16 {
    refusal::answer(soundness::check::<Narrow>(t))
}

// What is lent may have any length: one that is no table is refused by its length, which is counted as none of the three.
pub fn changes(rt: &impl Print, t: &mut [u8], dimension: u8, table: u8) -> io::Result<()> {
    let mut flipped = Tally::default();
    let mut cleared = Tally::default();
    print!(rt;
        "dimension {dimension} table {table}: as made {}; ",
        number(t)
    )?;
    every_bit(t, &mut flipped);
    println!(rt; "of {} changed, {flipped}", 8 * table::BYTES)?;
    every_offset(t, |_| 0, &mut cleared);
    println!(rt;
        "dimension {dimension} table {table}: of {} cleared, {cleared}",
        table::BYTES
    )
}

// The first bytes of a table alone.
pub fn lengths(rt: &impl Print, t: &[u8]) -> io::Result<()> {
    let refused = (0..t.len())
        .filter(|n| matches!(
            soundness::check::<Narrow>(&t[..*n]),
            Err(Refusal::TableLength)
        ))
        .count();
    println!(rt; "lengths: {refused} of {} refused by length", table::BYTES)
}

// Checks tables of every dimension that hold circuits: as they are, and with single bytes changed at every offset; tables that are wrong in
// one way each; and wrong tables that have as many hops as held links. It prints how they were answered; the gate compares that with what a check
// written apart from this library prints.
#![tactic(auto)]

use std::io;

mod sweep;
mod tables;

// The functions here and in `sweep` print to one place and test one table: both are lent to each, and no struct would hold them longer than a call.
fn every_dimension(rt: &impl Print, t: &mut [u8; table::BYTES]) -> io::Result<()> {
    for dimension in 1u8..9 {
        tables::two_ways(t, dimension);
        sweep::changes(rt, t, dimension, 1)?;
        tables::through_the_source(t, dimension);
        sweep::changes(rt, t, dimension, 2)?;
    }
    Ok(())
}

// So many tables of a kind, each laid by its number.
fn every<F: Fn(&mut [u8], u16)>(
    rt: &impl Print,
    t: &mut [u8; table::BYTES],
    kind: &str,
    count: u16,
    lay: F,
) -> io::Result<()>
    requires { F.IsAlwaysCallable lay }
{
    for which in 0..count {
        lay(t, which);
        println!(rt; "{kind} {which}: {}", sweep::number(t))?;
    }
    Ok(())
}

fn main(rt: HostRuntime) -> io::Result<()> {
    let mut t = [0u8; table::BYTES];
    every_dimension(&rt, &mut t)?;
    every(&rt, &mut t, "single", 11, tables::single)?;
    every(&rt, &mut t, "sums", 8, tables::sums)?;
    sweep::lengths(&rt, &t)
}

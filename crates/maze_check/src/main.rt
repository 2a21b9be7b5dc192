// Runs Examples 1 to 9 and 25, and a few calls of the arbiter, through the library and prints what it gets; the gate compares that with the stored answers.
#![tactic(auto)]

use std::io;

mod calls;
mod refusals;
mod served;
mod words;

fn main(rt: HostRuntime) -> io::Result<()> {
    refusals::names(&rt)?;
    words::names(&rt)?;
    words::types(&rt)?;
    words::carried(&rt)?;
    words::examples(&rt)?;
    words::written(&rt)?;
    calls::examples(&rt)?;
    served::run(&rt)
}

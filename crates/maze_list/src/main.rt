// Listing 1: the listing program reads standard input, and writes its printed list to standard output.
#![tactic(auto)]

ghost use Rattle.std.specs.Prelude.{◌≡◌, ◌+◌, ◌<◌, ◌≤◌, length, take, drop, IfOk, IfErr, IfSome, OnOk};
ghost use Rattle.std.specs.Io.KnownBytes.{Appends, Consumes, IsAtEnd, ReadConsumes};
ghost use Rattle.listing.specs.Listing.{printed};
ghost use Rattle.listing.specs.Printed.{lists};
ghost use Rattle.maze_list.specs.Failures.{IfReading};

use std::io;
use std::io::{Read, Write};

// One read to the rest of a buffer: what was read before stays. Answers how many bytes it brought, 0 at the end of the input.
fn read_on<R: Read>(from: &mut R, input: &mut [u8], at: usize) -> io::Result<usize>
    requires { at ≤ length input.old }
    ensures within { IfOk result (λ n. at + n ≤ length input.old) }
    ensures kept { take at input.new ≡ take at input.old }
    ensures bytes { ReadConsumes (R.remaining from.old) (R.remaining from.new) result (drop at input.new) }
{
    let rest = &mut input[at..];
    from.read(rest)
}

// Reads until the input ends or the buffer is full. Answers how many bytes it read. A loop, since `read_to_end` wants a Vec and `read_exact` no short input.
fn read_all<R: Read>(from: &mut R, input: &mut [u8]) -> io::Result<usize>
    ensures within { IfOk result (λ n. n ≤ length input.old) }
    ensures bytes { IfOk result (λ n. Consumes (R.remaining from.old) (R.remaining from.new) (take n input.new)) }
    ensures end { IfOk result (λ n. n < length input.old → IsAtEnd (R.remaining from.new)) }
{
    let mut at: usize = 0;
    while at < input.len() {
        let got = read_on(from, input, at)?;
        if got == 0 {
            return Ok(at);
        }
        at += got;
    }
    Ok(at)
}

// Room for the longest list.
fn room() -> [u8; 1440075]
    ensures { 1440075 ≡ length result }
{
    [0; 1440075]
}

// Writes the list of an input. The list is in the output also where writing failed.
fn print<W: Write>(to: &mut W, input: &[u8], output: &mut [u8]) -> io::Result<()>
    ensures listed { output.new ≡ (lists input.now output.old).output }
    ensures written { OnOk result (Appends (W.contents to.old) (W.contents to.new)
        (take (lists input.now output.old).written output.new)) }
{
    let written = listing::list(input, output).unwrap_or(0);
    to.write_all(&output[..written])
}

// Which part failed.
#[derive(Drop)]
enum Failed {
    Reading(io::Error),
    Writing(io::Error),
}

// Lists a whole input. The buffer holds one byte more than an input that is listed, so that a longer one is known for too long. Where the input
// cannot be read, nothing is listed.
fn list_all<R: Read, W: Write>(from: &mut R, to: &mut W) -> Result<(), Failed>
    ensures listed { OnOk result (IfSome (R.remaining from.old)
        (λ xs. Appends (W.contents to.old) (W.contents to.new) (printed xs))) }
    ensures unread { IfErr result (λ e. IfReading e (to.new ≡ to.old)) }
{
    let mut input = [0u8; 60001];
    let mut output = room();
    let bytes = read_all(from, &mut input).map_err(Failed::Reading)?;
    print(to, &input[..bytes], &mut output).map_err(Failed::Writing)
}

// The system's words for an error: std shows the error's number behind them.
fn words(text: &str) -> &str {
    match text.split_once(" (os error ") {
        Some((words, _)) => words,
        None => text,
    }
}

// Tells standard error what failed and why. Where there is no memory for the words alone, the number stays. Nothing is left to be done where this
// fails too.
fn fail(rt: &(impl Eprint + Alloc), what: &str, error: io::Error) {
    let _ = match format!(in rt.alloc(); "{error}") {
        Ok(text) => {
            let words = words(text.as_str());
            eprintln!(rt; "{what}: {words}")
        }
        Err(_) => eprintln!(rt; "{what}: {error}"),
    };
}

fn main(rt: HostRuntime) {
    match list_all(&mut rt.stdin(), &mut rt.stdout()) {
        Ok(()) => {}
        Err(Failed::Reading(error)) => fail(&rt, "standard input", error),
        Err(Failed::Writing(error)) => fail(&rt, "standard output", error),
    }
}

// Calls of the arbiter.
use arbiter::Arbiter;
use std::io;

// A call: its requests, and then its number, the requester, 26 for nobody, and the record after it.
fn serve(rt: &impl Print, arbiter: &mut Arbiter, requests: u32) -> io::Result<()> {
    let (number, requester) = match arbiter.serve(requests) {
        Ok(served) => (0, served.unwrap_or(arbiter::REQUESTERS)),
        Err(refused) => (refused.number(), 0),
    };
    println!(rt;
        "arbitrate {requests}: {number} {requester} {}",
        arbiter.last
    )
}

// From input port 17: requesters 17 and 18 by turns, then 0 and 25 round the end, nobody, and a request at 26; then a record of 26.
pub fn run(rt: &impl Print) -> io::Result<()> {
    let mut arbiter = Arbiter { last: 17 };
    for requests in [393216, 393216, 33554433, 33554433, 0, 67108864] {
        serve(rt, &mut arbiter, requests)?;
    }
    let mut outside = Arbiter {
        last: arbiter::REQUESTERS,
    };
    serve(rt, &mut outside, 1)?;
    serve(rt, &mut outside, 0)
}

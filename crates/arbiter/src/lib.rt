// The routing arbiter: a round-robin choice (Arbiter 4) among 26 requesters, 18 input ports and then 8 send channels (Arbiter 1). Each has one bit of a 32-bit
// number, from bit 0 on.
#![tactic(auto)]

ghost use Rattle.std.specs.Prelude.{◌≡◌, ◌<◌, ℕ, IfOk, IfSome};
ghost use Rattle.arbiter.specs.Arbiter.{arbitrated, choice, last_after};
ghost use Rattle.arbiter.specs.Calls.{ServedWithin, ServedLast};

use common::bits;
use common::refusal::Refusal;

// The requesters: 0 to 17 are the input ports, 18 to 25 the send channels.
pub const REQUESTERS: u16 = 26;

// The lowest number with a bit that no requester has.
pub const REQUESTS_END: u32 = 67108864;

// Arbiter 3: the record, kept by the caller, who may be C: the last requester served.
#[repr(C)]
#[derive(Clone, Copy)]
pub struct Arbiter {
    pub last: u16,
}

impl Arbiter {
    // Whom a call serves, nobody where nobody asks: the first requester after the last one served.
    pub fn choose(self, requests: u32) -> Result<Option<u16>, Refusal>
        ensures call { choice result (last_after result self.last) ≡ arbitrated self.last requests }
        ensures requester { IfOk result (λ chosen. IfSome chosen (λ r. r < 26)) }
    {
        if requests >= REQUESTS_END || self.last >= REQUESTERS {
            return Err(Refusal::Requester);
        }
        Ok(bits::first_after(requests, self.last))
    }

    // A call: the choice, and the record is then the requester that was served.
    pub fn serve(&mut self, requests: u32) -> Result<Option<u16>, Refusal>
        ensures call { choice result self.new.last ≡ arbitrated self.old.last requests }
        ensures requester { IfOk result (λ chosen. IfSome chosen (λ r. r < 26)) }
    {
        let chosen = self.choose(requests)?;
        if let Some(requester) = chosen {
            self.last = requester;
        }
        Ok(chosen)
    }
}

// Arbiter 8, Arbiter 9: a requester that keeps asking is served within 26 accepted calls; and each of the 26 may have to wait so long. It does nothing: its contract is the promise.
#[tactic(auto, using(crate::proofs::Waiting::served_within, crate::proofs::Waiting::limit_reached))]
pub fn waits_are_bounded()
    ensures within { ServedWithin 26 }
    ensures reached { (r : ℕ) → r < 26 → ServedLast 26 r }
{}

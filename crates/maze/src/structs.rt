// The structs that C gets of what the calls answer: 0 beside the values, or the refusal's number beside zeros, in the widths of Calls 22. C knows no generic struct, so each has fields of its own, and its
// `From` names them.
ghost use Rattle.std.specs.Prelude.{◌≡◌, [], ◌∷◌};
ghost use Rattle.std.specs.Result.{result_unwrap_or};
ghost use Rattle.answers.specs.Opens.{opened_number, opened_values};
ghost use Rattle.arbiter.specs.Arbiter.{requester_of};
ghost use Rattle.command_word.specs.Word.{read_answer, write_answer};
ghost use Rattle.common.specs.Refusals.{answer_of};
ghost use Rattle.job.specs.JobValues.{job_number, job_sends};
ghost use Rattle.booking.specs.BookedValues.{booked_values};
ghost use Rattle.receiver.specs.Receive.{received_as};

use command_word::{CommandWord, Reading};
use common::refusal::{self, Refusal};
use job::JobRefused;
use receiver::Channel;
use router::{Acknowledged, Rejected};
use table_book::BookSize;

// Of an open: the hops of the path and the receive channel taken, zeros beside a refusal; and the scouts sent.
#[repr(C)]
#[derive(Clone, Copy)]
pub struct Opened {
    pub number: u16,
    pub hops: u16,
    pub receive: u16,
    pub scouts: u32,
}

impl From<Result<Acknowledged, Rejected>> for Opened {
    ghost from_gives = { λ answer opened. (opened.number ≡ opened_number answer) × (opened.hops ∷ opened.receive ∷ opened.scouts ∷ [] ≡ opened_values answer) };

    fn from(answer: Result<Acknowledged, Rejected>) -> Opened {
        match answer {
            Ok(found) => Opened {
                number: refusal::ACCEPTED,
                hops: found.hops,
                receive: found.receive,
                scouts: found.scouts,
            },
            Err(rejected) => Opened {
                number: rejected.refusal.number(),
                hops: 0,
                receive: 0,
                scouts: rejected.scouts,
            },
        }
    }
}

// Of a trace: the hops of the path.
#[repr(C)]
#[derive(Clone, Copy)]
pub struct Traced {
    pub number: u16,
    pub hops: u16,
}

impl From<Result<u16, Refusal>> for Traced {
    ghost from_gives = { λ answer traced. traced ≡ record { number = answer_of answer; hops = result_unwrap_or answer 0 } };

    fn from(answer: Result<u16, Refusal>) -> Traced {
        match answer {
            Ok(hops) => Traced {
                number: refusal::ACCEPTED,
                hops,
            },
            Err(refused) => Traced {
                number: refused.number(),
                hops: 0,
            },
        }
    }
}

// Of a job: the number of its sends, or beside the refusal the place of its send, from 0.
#[repr(C)]
#[derive(Clone, Copy)]
pub struct OpenedAll {
    pub number: u16,
    pub sends: u16,
}

impl From<Result<u16, JobRefused>> for OpenedAll {
    ghost from_gives = { λ answer opened. opened ≡ record { number = job_number answer; sends = job_sends answer } };

    fn from(answer: Result<u16, JobRefused>) -> OpenedAll {
        match answer {
            Ok(sends) => OpenedAll {
                number: refusal::ACCEPTED,
                sends,
            },
            Err(refused) => OpenedAll {
                number: refused.refusal.number(),
                sends: refused.place,
            },
        }
    }
}

// Of a book: its circuits and its hops.
#[repr(C)]
#[derive(Clone, Copy)]
pub struct Booked {
    pub number: u16,
    pub circuits: u16,
    pub hops: u16,
}

impl From<Result<BookSize, Refusal>> for Booked {
    ghost from_gives = { λ answer booked. (booked.number ≡ answer_of answer) × (booked.circuits ∷ booked.hops ∷ [] ≡ booked_values answer) };

    fn from(answer: Result<BookSize, Refusal>) -> Booked {
        match answer {
            Ok(size) => Booked {
                number: refusal::ACCEPTED,
                circuits: size.circuits,
                hops: size.hops,
            },
            Err(refused) => Booked {
                number: refused.number(),
                circuits: 0,
                hops: 0,
            },
        }
    }
}

// What C is told of a requester where nobody was served: its struct has a number there, and no Option.
const NOBODY: u16 = arbiter::REQUESTERS;

// A reading of a command word: a refusal has zeros beside its number.
#[repr(C)]
#[derive(Clone, Copy)]
pub struct WordRead {
    pub number: u16,
    pub command: u16,
    pub carried: u16,
}

impl From<Result<Reading, Refusal>> for WordRead {
    ghost from_gives = { λ answer r. (record { number = r.number; command = r.command; carried = r.carried }) ≡ read_answer answer };

    fn from(answer: Result<Reading, Refusal>) -> WordRead {
        match answer {
            Ok(read) => WordRead {
                number: refusal::ACCEPTED,
                command: read.command.number(),
                carried: read.carried,
            },
            Err(refused) => WordRead {
                number: refused.number(),
                command: 0,
                carried: 0,
            },
        }
    }
}

// A writing of one: a refusal has a zero beside its number.
#[repr(C)]
#[derive(Clone, Copy)]
pub struct WordWritten {
    pub number: u16,
    pub word: u16,
}

impl From<Result<CommandWord, Refusal>> for WordWritten {
    ghost from_gives = { λ answer w. (record { number = w.number; word = w.word }) ≡ write_answer answer };

    fn from(answer: Result<CommandWord, Refusal>) -> WordWritten {
        match answer {
            Ok(written) => WordWritten {
                number: refusal::ACCEPTED,
                word: written.0,
            },
            Err(refused) => WordWritten {
                number: refused.number(),
                word: 0,
            },
        }
    }
}

// A call of the arbiter: a refusal has a zero beside its number.
#[repr(C)]
#[derive(Clone, Copy)]
pub struct Served {
    pub number: u16,
    pub requester: u16,
}

impl From<Result<Option<u16>, Refusal>> for Served {
    ghost from_gives = { λ answer s. (s.number ≡ answer_of answer) × (s.requester ≡ requester_of answer) };

    fn from(answer: Result<Option<u16>, Refusal>) -> Served {
        match answer {
            Ok(served) => Served {
                number: refusal::ACCEPTED,
                requester: served.unwrap_or(NOBODY),
            },
            Err(refused) => Served {
                number: refused.number(),
                requester: 0,
            },
        }
    }
}

// A packet to a receive channel: its number, and the channel after it.
#[repr(C)]
#[derive(Clone, Copy)]
pub struct Received {
    pub channel: Channel,
    pub number: u16,
}

impl Received {
    // What a channel answered a packet. A refusal leaves the channel as it was.
    pub fn of(channel: Channel, answer: Result<Channel, Refusal>) -> Received
        ensures { (record { channel = result.channel; number = result.number }) ≡ received_as channel answer }
    {
        match answer {
            Ok(channel) => Received {
                channel,
                number: refusal::ACCEPTED,
            },
            Err(refused) => Received {
                channel,
                number: refused.number(),
            },
        }
    }
}

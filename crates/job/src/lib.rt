// A job: sends that are opened together, all of them or none (Jobs 1). The bytes before one of two sends or more are kept, and copied back at the first refusal (Jobs 6).
#![tactic(auto)]

mod kept_table;

ghost use Rattle.std.specs.Prelude.{◌≡◌, [], ◌∷◌, ◌+◌, ◌*◌, ◌≤◌, length};
ghost use Rattle.common.specs.Refusals.{answer_of};
ghost use Rattle.common.specs.Tests.{refusal};
ghost use Rattle.soundness.specs.TableTests.{table_tests};
ghost use Rattle.ownership.specs.Sends.{send_at, sends_in};
ghost use Rattle.ownership.specs.Calls.{opening_all};
ghost use Rattle.ownership.specs.InTurn.{in_turn};
ghost use Rattle.ownership.specs.OnTable.{table_step, done};
ghost use Rattle.ownership.specs.JobSays.{opens_on};
ghost use Rattle.job.specs.JobValues.{job_number, job_sends};
ghost use Rattle.job.specs.JobContracts.{MayOpen, OpenedAt, job_of, read_as};

use answers::Opening;
use call_tests::{SEND_BYTES, SoundTable};
use common::refusal::Refusal;
use cube::Node;
pub use kept_table::KeptTable;
use layout::Layout;
use std::marker::PhantomData;

// Why a job is refused: the first refusal, and the place of its send, from 0.
#[derive(Clone, Copy, Debug, PartialEq, Eq)]
pub struct JobRefused {
    pub refusal: Refusal,
    pub place: u16,
}

// Jobs 6: a refusal of the table or of the whole list has place 0.
impl From<Refusal> for JobRefused {
    ghost from_gives = { λ refusal refused. refused ≡ record { refusal = refusal; place = 0 } };

    fn from(refusal: Refusal) -> JobRefused {
        JobRefused { refusal, place: 0 }
    }
}

// The send at a place of a list, from 0. Jobs 2: its five numbers take two bytes each, the low one first.
#[tactic(auto, using(crate::proofs::SendsInTurn::send_is))]
fn read_send(sends: &[u8], place: usize) -> Opening
    requires { 10 * place + 10 ≤ length sends.now }
    ensures { read_as result ≡ send_at sends.now place }
{
    let at = SEND_BYTES * place;
    Opening {
        source: Node(layout::word(sends, at)),
        channel: layout::word(sends, at + 2),
        target: Node(layout::word(sends, at + 4)),
        routing: layout::word(sends, at + 6),
        vector: layout::word(sends, at + 8),
    }
}

// Opens the send at a place of a list, from 0, on a table that passed its tests.
#[tactic(auto, using(crate::proofs::SendsInTurn::one_send))]
fn open_at<L: Layout>(t: &mut [u8], sends: &[u8], place: usize) -> Result<(), Refusal>
    requires may_open { MayOpen L.PORTS t.old sends.now place }
    ensures { OpenedAt L.PORTS t.old sends.now place (answer_of result) t.new }
{
    let x = read_send(sends, place);
    let table = SoundTable::<L> {
        bytes: t,
        layout: PhantomData,
    };
    table.open_arguments(x)?;
    // Tried with `map_err` and `?`, speed: a job of one send takes 16 % more time.
    match send::send::<L>(t, x.request(), x.routing) {
        Ok(_) => Ok(()),
        Err(rejected) => Err(rejected.refusal),
    }
}

// Opens the sends of a list one after another, up to the first that is refused.
#[tactic(auto, using(crate::proofs::SendsInTurn::sends_in_turn))]
fn open_in_turn<L: Layout>(t: &mut [u8], sends: &[u8]) -> Result<u16, JobRefused>
    requires t_value { refusal (table_tests L.PORTS t.old) ≡ 0 }
    requires sends_len_bound { length sends.now ≤ 640 }
    ensures { job_of t.new (job_number result) (job_sends result) ≡ in_turn (opens_on L.PORTS) t.old (sends_in sends.now) }
{
    // 64 at most, so no cast cuts a place or the count off; u16::try_from would answer a failure that cannot come.
    let count = sends.len() / SEND_BYTES;
    // By place, since a refusal names it. Tried over `chunks_exact` with `enumerate`: the check finds no proof of a turn, nor of either return.
    for place in 0..count {
        if let Err(refusal) = open_at::<L>(t, sends, place) {
            return Err(JobRefused {
                refusal,
                place: place as u16,
            });
        }
    }
    Ok(count as u16)
}

// Opens all sends of a list, or none: answers how many there are.
#[tactic(auto, using(crate::proofs::SendsInTurn::whole_job))]
pub fn open_all<L: KeptTable>(t: &mut [u8], sends: &[u8]) -> Result<u16, JobRefused>
    ensures { done t.new (job_number result) (job_sends result ∷ []) (sends.now ∷ []) ≡ table_step L.PORTS t.old (opening_all sends.now) }
{
    call_tests::open_all::<L>(t, sends)?;
    // A refused open leaves every byte as it was: without a send before it nothing has to be kept.
    let one_at_most = sends.len() <= SEND_BYTES;
    if one_at_most {
        return open_in_turn::<L>(t, sends);
    }
    let kept = L::keep(t);
    let answer = open_in_turn::<L>(t, sends);
    if answer.is_err() {
        L::put_back(&kept, t);
    }
    answer
}

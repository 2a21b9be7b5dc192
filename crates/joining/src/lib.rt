// Two half cabinets joined into one (Joining). The functions at the end do nothing: the contract of each is one promise to the users (Promises 16), so that it is proved with the
// crate and named where it is relied on.
#![tactic(auto)]

mod halves;

ghost use Rattle.std.specs.Prelude.{◌≡◌, []};
ghost use Rattle.common.specs.Refusals.{answer_of};
ghost use Rattle.ownership.specs.OnTable.{done};
ghost use Rattle.joining.specs.Joined.{join_step};
ghost use Rattle.joining.specs.Promises.{JoinsAnswer, JoinsSay, JoinsAgree};

use common::refusal::Refusal;
use table::Narrow;

// Merges the tables of two cubes of one dimension into that of the cube of twice as many nodes. The first two are only read, and a refused call writes nothing.
#[tactic(auto, using(crate::proofs::Answering::tested_long))]
pub fn join(first: &[u8], second: &[u8], joined: &mut [u8]) -> Result<(), Refusal>
    ensures { done joined.new (answer_of result) [] [] ≡ join_step first.now second.now joined.old }
{
    soundness::check::<Narrow>(first)?;
    soundness::check::<Narrow>(second)?;
    if joined.len() != table::BYTES {
        return Err(Refusal::TableLength);
    }
    let dimension = table::dimension(first);
    if dimension != table::dimension(second) || dimension == cube::LARGEST_DIMENSION {
        return Err(Refusal::Halves);
    }
    halves::write(first, second, joined, dimension);
    Ok(())
}

// Joining 2: each number of a join comes where it should, and a refused one leaves the third as it was;
pub fn joins_answer()
    ensures { JoinsAnswer }
{}

// Joining 9: an accepted one leaves what Joining says, sound, with the traces of both halves,
pub fn joins_say()
    ensures { JoinsSay }
{}

// Joining 10: and in agreement with the history of both.
pub fn joins_agree()
    ensures { JoinsAgree }
{}

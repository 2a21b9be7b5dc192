// A table written in the other layout, from narrow to wide and back (Wide 10 to 14). The last functions do nothing: the contract of each is one promise to the users, so
// that it is proved with the crate and named where it is relied on.
#![tactic(auto)]

mod parts;

ghost use Rattle.std.specs.Prelude.{◌≡◌, []};
ghost use Rattle.common.specs.Refusals.{answer_of};
ghost use Rattle.ownership.specs.OnTable.{done};
ghost use Rattle.converting.specs.Converted.{widen_step, narrow_step};
ghost use Rattle.converting.specs.ConvertContracts.{BothTested};
ghost use Rattle.converting.specs.Promises.{SameAnswers, BackTheSame, GoesBackUnfolded, ConvertsSay};

use common::refusal::Refusal;
use layout::Layout;

// Refusals 1 to 3 of the table read, and then 1 of the one written.
fn test<F: Layout, L: Layout>(from: &[u8], to: &[u8]) -> Result<(), Refusal>
    ensures { BothTested F.PORTS L.PORTS from.now to.now (answer_of result) }
{
    soundness::check::<F>(from)?;
    if to.len() == L::LENGTH {
        Ok(())
    } else {
        Err(Refusal::TableLength)
    }
}

// Writes what a narrow table shows into a wide one. The first is only read, and a refused call writes nothing.
pub fn widen(narrow: &[u8], wide: &mut [u8]) -> Result<(), Refusal>
    ensures { done wide.new (answer_of result) [] [] ≡ widen_step narrow.now wide.old }
{
    test::<layout::Narrow, layout::Wide>(narrow, wide)?;
    parts::write::<layout::Narrow, layout::Wide>(narrow, wide);
    Ok(())
}

// And what a wide table shows into a narrow one, if none of its dimensions is folded.
pub fn narrow(wide: &[u8], narrow: &mut [u8]) -> Result<(), Refusal>
    ensures { done narrow.new (answer_of result) [] [] ≡ narrow_step wide.now narrow.old }
{
    test::<layout::Wide, layout::Narrow>(wide, narrow)?;
    let fold = wide[layout::FOLD];
    if fold != 0 {
        return Err(Refusal::Folded);
    }
    parts::write::<layout::Wide, layout::Narrow>(wide, narrow);
    Ok(())
}

// Promises 17: whatever calls of both kinds are made on a table and on the one that it was converted to, each answers the same on both (Wide 13),
pub fn same_answers()
    ensures { SameAnswers }
{}

// and there and back gives the same bytes (Wide 14).
pub fn back_the_same()
    ensures { BackTheSame }
{}

// So it does where the wide table was folded and unfolded between (Wide 14).
pub fn goes_back_unfolded()
    ensures { GoesBackUnfolded }
{}

// Wide 10, Wide 11: the table written shows what the table read shows.
pub fn converts_say()
    ensures { ConvertsSay }
{}

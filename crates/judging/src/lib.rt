// Judging a book of circuits that comes from anywhere against a table (Judging 1).
#![tactic(auto)]

mod circuits;
mod cube_board;
mod links;
mod targets;

ghost use Rattle.std.specs.Prelude.{◌≡◌};
ghost use Rattle.common.specs.Tests.{refusal};
ghost use Rattle.common.specs.Refusals.{answer_of};
ghost use Rattle.table.specs.View.{view};
ghost use Rattle.judging.specs.Judged.{judge_facts, judge_tests};

use book::Book;
use common::refusal::Refusal;
use layout::Layout;
use table::CubeTable;

// Judging 3: whether the circuits of a book may be open in a table, all of them. Each test looks at the whole book before the next one does; the first that applies is the refusal.
pub fn judge<L: Layout>(table: &CubeTable<L>, book: &Book) -> Result<(), Refusal>
    ensures { answer_of result ≡ refusal (judge_tests (judge_facts (view table.now.bytes.now)) book.now.ports.now book.now.index.now book.now.circuits book.now.hops) }
{
    if !book.well_formed() {
        return Err(Refusal::Book);
    }
    if !circuits::circuits_fit(table, book.lines(), book.ports) {
        return Err(Refusal::BookCircuit);
    }
    if !links::links_fit(table, book.lines(), book.ports) {
        return Err(Refusal::BookLink);
    }
    if !targets::targets_fit(table, book.lines(), book.ports) {
        return Err(Refusal::ReceiveRejected);
    }
    Ok(())
}

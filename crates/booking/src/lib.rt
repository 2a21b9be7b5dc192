// The calls about a table and a book: writing the table's own (Books 5), and judging one that comes from anywhere (Judging 1). The functions at the end do nothing: the contract of
// each is one promise to the users.
#![tactic(auto)]

ghost use Rattle.std.specs.Prelude.{◌≡◌, [], ◌∷◌};
ghost use Rattle.common.specs.Refusals.{answer_of};
ghost use Rattle.ownership.specs.Calls.{booking, judging};
ghost use Rattle.ownership.specs.OnTable.{table_step, done};
ghost use Rattle.booking.specs.BookedValues.{booked_values};
ghost use Rattle.booking.specs.Promises.{LookupsTrace, OwnBooksAccepted};

use book::Book;
use common::refusal::Refusal;
use layout::Layout;
use std::marker::PhantomData;
use table::CubeTable;
use table_book::BookSize;

// Writes the ports of all open circuits to one buffer, end to end, and where each circuit's are to the other (Books 5). Later bytes keep their content (Books 6).
#[tactic(auto, using(crate::proofs::BookStep::book_table))]
pub fn book<L: Layout>(t: &[u8], ports: &mut [u8], index: &mut [u8]) -> Result<BookSize, Refusal>
    ensures { done t.now (answer_of result) (booked_values result) (ports.new ∷ index.new ∷ []) ≡ table_step L.PORTS t.now (booking ports.old index.old) }
{
    soundness::check::<L>(t)?;
    let table = CubeTable::<L> {
        bytes: t,
        nodes: cube::node_count(table::dimension(t)),
        layout: PhantomData,
    };
    let size = table_book::book_size::<L>(t);
    if ports.len() < usize::from(size.hops)
        || index.len() < book::LINE * usize::from(size.circuits)
    {
        return Err(Refusal::BookShort);
    }
    table_book::write_book(&table, ports, index);
    Ok(size)
}

// Judging 1, Judging 8: whether the circuits of a book may be open in a table, all of them. It only reads, and Ok is the yes.
#[tactic(auto, using(crate::proofs::BookStep::book_table))]
pub fn judge<L: Layout>(t: &[u8], book: &Book) -> Result<(), Refusal>
    ensures { done t.now (answer_of result) [] (book.now.ports.now ∷ book.now.index.now ∷ []) ≡ table_step L.PORTS t.now (judging book.now.ports.now book.now.index.now book.now.circuits book.now.hops) }
{
    soundness::check::<L>(t)?;
    let table = CubeTable::<L> {
        bytes: t,
        nodes: cube::node_count(table::dimension(t)),
        layout: PhantomData,
    };
    judging::judge(&table, book)
}

// Promises 14: a lookup in the book just written gives what a trace gives.
pub fn lookups_trace()
    ensures { LookupsTrace }
{}

// Promises 15: a table accepts its own book once the circuits of it are closed and their channels armed again (Judging 9).
pub fn own_books_accepted()
    ensures { OwnBooksAccepted }
{}

// The printed list: from the bytes of an input to the bytes of its list. The functions here do nothing: the contract of each is one promise to the users (Promises 18).
#![tactic(auto)]

mod whole;

ghost use Rattle.listing.specs.Promises.{ListsSay, ListsAsBefore};

pub use whole::{INPUT_LIMIT, OUTPUT_BYTES, TooShort, list};

// Promises 18: the list says what the history of its calls says,
pub fn lists_say()
    ensures { ListsSay }
{}

// Listing 18: and of an input without a fold, what the calls on a narrow table would print.
pub fn lists_as_before()
    ensures { ListsAsBefore }
{}

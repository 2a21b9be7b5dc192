// Calls on several tables of both kinds, conversions and joins of them, and what is known of each of them. The definitions are in specs/, the proofs in proofs/. The functions
// here do nothing: the contract of each is one promise to the users, so that it is proved with the crate and named where it is relied on.
#![tactic(auto)]

ghost use Rattle.store.specs.Promises.{TablesAgree, OneTableAgrees, KnownAsSaid, KnownExactly, FoldingIsWide};

// Promises 5, History 21: each table whose history is known agrees with it after any list of events, refused ones included.
pub fn tables_agree()
    ensures { TablesAgree }
{}

// History 11, History 15: so does one table, after an accepted making and any list of calls of either kind.
pub fn one_table_agrees()
    ensures { OneTableAgrees }
{}

// What is known after an event is what the rules say (History 16 to 20), which leave no choice.
#[tactic(auto, using(crate::proofs::Learns::learns, crate::proofs::Learns::learns_exactly))]
pub fn known_exactly()
    ensures said { KnownAsSaid }
    ensures exactly { KnownExactly }
{}

// History 15: setting a fold mask is a call on a wide table: on a narrow one it is refused.
#[tactic(auto, using(crate::proofs::Stores::folds_wide))]
pub fn folding_is_wide()
    ensures { FoldingIsWide }
{}

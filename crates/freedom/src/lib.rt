// More freedom never hurts: of any two tables, of folding, and of lists of calls. The definitions are in specs/, the proofs in proofs/. The functions here do nothing: the
// contract of each is one promise to the users, so that it is proved with the crate and named where it is relied on.
#![tactic(auto)]

ghost use Rattle.freedom.specs.Promises.{MoreFreedomNeverHurts, FoldingNeverHurts, FoldingCanHurt, ListsNeverHurt, ClosingNeverHurts};

// An open that one table acknowledges, another does that leaves it at least as much.
#[tactic(auto, using(crate::proofs::Pairs::more_freedom))]
pub fn more_freedom_never_hurts()
    ensures { MoreFreedomNeverHurts }
{}

// Folding a dimension never turns an acknowledged open of type 0 or 4 into a rejected one;
#[tactic(auto, using(crate::proofs::Calls::folding_frees))]
pub fn folding_never_hurts()
    ensures { FoldingNeverHurts }
{}

// of types 1 and 3 it can.
pub fn folding_can_hurt()
    ensures { FoldingCanHurt }
{}

// After calls that take nothing from it, an acknowledged open is acknowledged again,
#[tactic(auto, using(crate::proofs::Calls::lists_free))]
pub fn lists_never_hurt()
    ensures { ListsNeverHurt }
{}

// and so after closing any circuit.
#[tactic(auto, using(crate::proofs::Calls::closing_frees))]
pub fn closing_never_hurts()
    ensures { ClosingNeverHurts }
{}

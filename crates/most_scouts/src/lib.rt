// The most scouts that an open sends: the definitions are in specs/, the proofs in proofs/. The functions here do nothing: the contract of each is one promise to the
// users, so that it is proved with the crate and named where it is relied on.
#![tactic(auto)]

ghost use Rattle.most_scouts.specs.Promises.{RejectedCounted, RejectedMost, RejectedMostFolded, OpensCounted, OpensMost, OpensMostFolded, OpensBelowPapers, WalledCounted, MostReached, MostFoldedReached};

// An open that is route rejected has sent no more scouts than there are beginnings that have not arrived,
#[tactic(auto, using(crate::proofs::OnTable::rejected_counted))]
pub fn rejected_counted()
    ensures { RejectedCounted }
{}

// so by dimension no more than these where nothing is folded,
#[tactic(auto, using(crate::proofs::OnTable::rejected_most))]
pub fn rejected_most()
    ensures { RejectedMost }
{}

// and no more than these whatever is.
#[tactic(auto, using(crate::proofs::OnTable::rejected_most_folded))]
pub fn rejected_most_folded()
    ensures { RejectedMostFolded }
{}

// Every other open has sent at most one more.
#[tactic(auto, using(crate::proofs::OnTable::opens_counted))]
pub fn opens_counted()
    ensures { OpensCounted }
{}

#[tactic(auto, using(crate::proofs::OnTable::opens_most))]
pub fn opens_most()
    ensures { OpensMost }
{}

#[tactic(auto, using(crate::proofs::OnTable::opens_most_folded))]
pub fn opens_most_folded()
    ensures { OpensMostFolded }
{}

// So no open sends more than 123,300 where nothing is folded.
#[tactic(auto, using(crate::proofs::OnTable::opens_below_papers))]
pub fn opens_below_papers()
    ensures { OpensBelowPapers }
{}

// It has sent exactly so many where the links into its target, and no other, are not free, and it is of type 0 and over all ports.
#[tactic(auto, using(crate::proofs::Walled::walled_counted))]
pub fn walled_counted()
    ensures { WalledCounted }
{}

// In every dimension there are calls, on any table, of which the last sends so many and is rejected: with nothing folded,
#[tactic(auto, using(crate::proofs::Reaching::most_reached))]
pub fn most_reached()
    ensures { MostReached }
{}

// and with every dimension folded.
#[tactic(auto, using(crate::proofs::Reaching::most_folded_reached))]
pub fn most_folded_reached()
    ensures { MostFoldedReached }
{}

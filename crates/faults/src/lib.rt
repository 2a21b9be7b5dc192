// Links that a send cannot take: how few of them cannot stop it, and how many can. The definitions are in specs/, the proofs in proofs/. The functions here do nothing:
// the contract of each is one theorem, so that it is proved with the crate and named where it is relied on.
#![tactic(auto)]

ghost use Rattle.faults.specs.Theorems.{HelixPathsApart, FewNeverReject, EnoughReject, FoldedNeverReject, AllFoldedNeverReject};
ghost use Rattle.faults.specs.OnTables.{FewFindRoute, FewNever22, EveryNodeReached, EnoughStop, FoldedFindRoute, AllFoldedFindRoute, FoldedNever22};

// Where nothing is folded, the helix paths of two ports share no link.
#[tactic(auto, using(crate::proofs::HelixApart::helix_paths_apart))]
pub fn helix_paths_apart()
    ensures { HelixPathsApart }
{}

// So fewer than D links that are not free never route-reject a send over all ports, of type 0, 1 or 4.
#[tactic(auto, using(crate::proofs::FreeHelix::few_never_reject))]
pub fn few_never_reject()
    ensures { FewNeverReject }
{}

// On a table: such an open that no earlier test stops answers 0 or 11,
#[tactic(auto, using(crate::proofs::OnTables::few_find_route))]
pub fn few_find_route()
    ensures { FewFindRoute }
{}

// and fewer than D blocked links never make it 22.
#[tactic(auto, using(crate::proofs::OnTables::few_never_22))]
pub fn few_never_22()
    ensures { FewNever22 }
{}

// So every node reaches every other: with at most seven bad links in a cabinet of 256 nodes, if the send channel is free and a receive channel is armed and not held.
#[tactic(auto, using(crate::proofs::OnTables::every_node_reached))]
pub fn every_node_reached()
    ensures { EveryNodeReached }
{}

// D links can: those out of one node.
pub fn enough_reject()
    ensures { EnoughReject }
{}

// On a table such an open answers 22 where they are blocked.
#[tactic(auto, using(crate::proofs::OnTables::enough_stop))]
pub fn enough_stop()
    ensures { EnoughStop }
{}

// Whatever is folded, fewer than D do not stop one of type 0 or 4;
#[tactic(auto, using(crate::proofs::Folded::folded_never_reject))]
pub fn folded_never_reject()
    ensures { FoldedNeverReject }
{}

// and where every dimension is folded, fewer than 2 D do not.
#[tactic(auto, using(crate::proofs::Folded::all_folded_never_reject))]
pub fn all_folded_never_reject()
    ensures { AllFoldedNeverReject }
{}

// So on a table: 0 or 11,
#[tactic(auto, using(crate::proofs::OnTables::folded_find_route))]
pub fn folded_find_route()
    ensures { FoldedFindRoute }
{}

// also with fewer than 2 D where every dimension is folded,
#[tactic(auto, using(crate::proofs::OnTables::all_folded_find_route))]
pub fn all_folded_find_route()
    ensures { AllFoldedFindRoute }
{}

// and never 22 where so few are blocked.
#[tactic(auto, using(crate::proofs::OnTables::folded_never_22))]
pub fn folded_never_22()
    ensures { FoldedNever22 }
{}

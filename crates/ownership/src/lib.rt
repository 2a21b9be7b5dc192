// What the calls mean, on the bytes of a table and in the ownership history, and that both agree. The definitions are in specs/, the proofs in proofs/. The functions here
// do nothing: the contract of each is one promise to the users (Promises), so that it is proved with the crate and named where it is relied on.
#![tactic(auto)]

ghost use Rattle.ownership.specs.Promises.{CallsAgree, SoundTablesAgree, NoLinkShared, NoReceiveShared, RefusedLeaves, OpensSay, TypesRise, WaitingHelps, WaitingDoesNotHelp, FreedomNeverHurts, SameSeenSameGot, NeverFull, OpensNeverFull, NarrowNeverFull, JobsSay, JudgesExactly, LoadsExactly};

// Promises 5: table and ownership history agree after an accepted making and any list of calls, refused ones included.
pub fn calls_agree()
    ensures { CallsAgree }
{}

// History 14: so does every table that passes its tests, whoever wrote it.
pub fn sound_tables_agree()
    ensures { SoundTablesAgree }
{}

// Promises 6: no two open circuits share a link,
#[tactic(auto, using(crate::proofs::Corollaries::no_link_shared))]
pub fn no_link_shared()
    ensures { NoLinkShared }
{}

// nor a receive channel.
#[tactic(auto, using(crate::proofs::Corollaries::no_receive_shared))]
pub fn no_receive_shared()
    ensures { NoReceiveShared }
{}

// Promises 2: a refused call, so a rejected search too, leaves each byte as it was.
#[tactic(auto, using(crate::proofs::Refused::refused_leaves))]
pub fn refused_leaves()
    ensures { RefusedLeaves }
{}

// Promises 3, Promises 4: an open is acknowledged exactly when a path that its type may try is free and a receive channel is available.
#[tactic(auto, using(crate::proofs::OnSound::open_says))]
pub fn opens_say()
    ensures { OpensSay }
{}

// Promises 7: types 3, 1 and 0, each acknowledges what the one before does.
pub fn types_rise()
    ensures { TypesRise }
{}

// Promises 9: after 10, waiting helps;
pub fn waiting_helps()
    ensures { WaitingHelps }
{}

// Promises 10: after 22 it does not.
pub fn waiting_does_not_help()
    ensures { WaitingDoesNotHelp }
{}

// Promises 11: more freedom never hurts,
pub fn freedom_never_hurts()
    ensures { FreedomNeverHurts }
{}

// Promises 12: and what an open does not look at changes nothing of it.
pub fn same_seen_same_got()
    ensures { SameSeenSameGot }
{}

// Promises 8: with all receive channels armed, and at most eight links into a node, 11 never comes.
#[tactic(auto, using(crate::proofs::ReceiveChannels::armed_never_full))]
pub fn never_full()
    ensures { NeverFull }
{}

// Nor does it of an open whose target has all armed,
#[tactic(auto, using(crate::proofs::ReceiveChannels::never_full))]
pub fn opens_never_full()
    ensures { OpensNeverFull }
{}

// nor on a narrow table, where no more than eight links lead into a node.
#[tactic(auto, using(crate::proofs::ReceiveChannels::narrow_never_full))]
pub fn narrow_never_full()
    ensures { NarrowNeverFull }
{}

// Promises 13: a job is its single opens, or nothing.
pub fn jobs_say()
    ensures { JobsSay }
{}

// Promises 15: what a yes to a book means, by its rules (Judging 2),
#[tactic(auto, using(crate::proofs::Judging::judging_exactly))]
pub fn judges_exactly()
    ensures { JudgesExactly }
{}

// and that its circuits can be open (Judging 10).
#[tactic(auto, using(crate::proofs::LoadedExactly::loads_exactly))]
pub fn loads_exactly()
    ensures { LoadsExactly }
{}

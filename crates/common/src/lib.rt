// What every layer shares: the refusals, and the first bit of a number after a place. The crate's specs/ and proofs/ hold the rule by which a call's tests decide, and
// the general facts about lists and computed tests that belong to no layer.
#![tactic(auto)]

pub mod bits;
pub mod refusal;

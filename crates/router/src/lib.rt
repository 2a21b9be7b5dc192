// The calls on a lent table.
#![tactic(auto)]

mod calls;

pub use answers::{Acknowledged, Opening, Rejected};
pub use calls::{arm, block, close, disarm, fold, make, open, trace, unblock};

// Whether a lent table may be used.
#![tactic(auto)]

mod sound;

pub use sound::check;

// Texts: numbers in decimal (Listing 7), and printed lines of eight fields (Listing 10).
#![tactic(auto)]

pub mod number;
pub mod put;
pub mod row;

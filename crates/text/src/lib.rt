// The lines, words and figures of a case text.
#![tactic(auto)]

pub mod laws;
pub mod number;
pub mod pieces;
pub mod question;
pub mod row;
pub mod split;
pub mod word;

// Prediction of a macroblock from its sides: the four modes of Intra 16x16 and the choice among them (02, Req 01). What is not Intra 16x16's
// alone takes the size n.

#![tactic(auto)]

mod fills;
pub mod inner;
mod rules;
mod search;

// Prediction of 8 by 8 chroma samples from their sides: the four modes of clause 8.3.4, and the choice of one mode for Cb and Cr (02, Req 05).

#![tactic(auto)]

pub mod inner;
mod quarters;
mod search;

// A macroblock against one prediction of all its samples, 16 by 16 of luma or 8 by 8 of chroma: its levels by the DC path, and its samples again
// (02, Req 01 and Req 05).

#![tactic(auto)]

mod area;
mod coded;
pub mod inner;
mod rebuilt;

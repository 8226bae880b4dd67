// A macroblock's record of sixteen 4x4 blocks: its content tested, its samples rebuilt, and a macroblock coded into it
// (01, "Plane and record file").

#![tactic(auto)]

mod code;
mod content;
pub mod inner;
mod rebuild;

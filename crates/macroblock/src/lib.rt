// A macroblock of either kind: its record tested, its samples rebuilt, and a macroblock coded into the kind that costs less
// (01, "Plane and record file"; 02, Req 01).

#![tactic(auto)]

pub mod inner;

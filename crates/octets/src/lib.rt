// Numbers, levels, offsets, modes and sums in bytes (01, "Plane and record file").

#![tactic(auto)]

pub mod inner;

// Whole numbers: their meaning in specs/, their laws and the solver in proofs/, and small functions for the crates above.

#![tactic(auto)]

pub mod inner;

// SAD over any number of samples, and the search for the least cost: over any number of modes and any cost, the lower number on a tie.

#![tactic(auto)]

pub mod inner;

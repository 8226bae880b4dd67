// The numbers of a recorded request: low byte first, negative ones in two's complement (tests/README.md).

#![tactic(auto)]

pub mod inner;

// The records behind the head of a file: macroblock records, luma and chroma, the faults of their form, and the walk over them (01, "Plane and record file").

#![tactic(auto)]

use refusal::Fault;

pub mod inner;

// A kind of record: its mark, how many bytes stand before its levels, and how many levels it has.
#[derive(Clone, Copy)]
pub struct Kind {
    pub mark: u16,
    pub front: usize,
    pub levels: usize,
}

// What is expected where a record begins: whether a chroma record, and which number.
// Flags and numbers, as `expected_in` and the walk over it have them: an enum would be turned into them at each test.
#[derive(Clone, Copy)]
pub struct Expected {
    pub chroma: bool,
    pub number: usize,
}

// The first faulty record of a walk: its fault and its first byte's place.
#[derive(Clone, Copy)]
pub struct Faulty {
    pub fault: Fault,
    pub place: usize,
}

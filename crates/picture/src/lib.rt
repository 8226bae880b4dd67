// Where blocks stand in a plane, the order they are coded in, and which of a block's neighbours are present
// (01, "Plane and record file"; 02, request 02).

#![tactic(auto)]

pub mod inner;

// A picture's size in macroblocks. `rows` are the rows of a slice, of which the last may have fewer; a picture of one slice has its height there.
// A macroblock and its block are numbers beside it, not a struct with it: their callers count them in loops, so that it would be made at each call.
// Nor has it an invariant: the public `one_slice` makes one of any size, and the definitions of what is refused speak of every size.
#[derive(Clone, Copy)]
pub struct Layout {
    pub width: usize,
    pub height: usize,
    pub rows: usize,
}

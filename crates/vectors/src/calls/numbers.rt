// The functions that take a list of numbers and leave another.
use crate::rooms;
use crate::rooms::Frame;

#[derive(Clone, Copy)]
pub(crate) enum List {
    Forward,
    Levels,
    LumaDcLevels,
    LumaDcValues,
    ChromaDcLevels,
    ChromaDcValues,
}

pub(crate) fn answered(function: List, frame: &Frame) -> bool {
    let mut made = [rooms::NUMBER_BEFORE; rooms::NUMBERS];
    let word = called(function, frame, &mut made);
    (word == rooms::word(frame)) & recorded::inner::same_list(made, rooms::expected(frame))
}

// The call, with slices of the frame's lengths.
fn called(function: List, frame: &Frame, made: &mut [i32]) -> u64 {
    let qp = frame[0];
    let numbers = rooms::list(frame);
    let list = rooms::LIST.part_in(frame, &numbers);
    let made = rooms::MADE.part_out(frame, made);
    match function {
        List::Forward => fleecebutton::fb_forward(list, made),
        List::Levels => fleecebutton::fb_levels(qp, list, made),
        List::LumaDcLevels => fleecebutton::fb_luma_dc_levels(qp, list, made),
        List::LumaDcValues => fleecebutton::fb_luma_dc_values(qp, list, made),
        List::ChromaDcLevels => fleecebutton::fb_chroma_dc_levels(qp, list, made),
        List::ChromaDcValues => fleecebutton::fb_chroma_dc_values(qp, list, made),
    }
}

// The functions on 4x4 blocks that take samples.
use crate::rooms;
use crate::rooms::Frame;

#[derive(Clone, Copy)]
pub(crate) enum Block {
    Predict,
    Choose,
    Rebuild,
    RebuildWithDc,
    Code,
}

pub(crate) fn answered(block: Block, frame: &Frame) -> bool {
    let mut made = [rooms::NUMBER_BEFORE; rooms::NUMBERS];
    let mut out = [rooms::BEFORE; rooms::FILE];
    let word = called(block, frame, &mut made, &mut out);
    (word == rooms::word(frame))
        & recorded::inner::same_list(made, rooms::expected(frame))
        & rooms::OUT.is_left(frame, &out)
}

// The call, with slices of the frame's lengths; the slices of a function are the first of their kind.
fn called(block: Block, frame: &Frame, made: &mut [i32], out: &mut [u8]) -> u64 {
    let first = rooms::FIRST.bytes_in(frame);
    let second = rooms::SECOND.bytes_in(frame);
    let numbers = rooms::list(frame);
    let list = rooms::LIST.part_in(frame, &numbers);
    let made = rooms::MADE.part_out(frame, made);
    let out = rooms::OUT.part_out(frame, out);
    match block {
        Block::Predict => fleecebutton::fb_predict(first, frame[0], frame[8], out),
        Block::Choose => fleecebutton::fb_choose(first, frame[0], second, out),
        Block::Rebuild => fleecebutton::fb_rebuild(frame[0], first, list, out),
        Block::RebuildWithDc => fleecebutton::fb_rebuild_with_dc(
            frame[0],
            first,
            recorded::inner::four_signed(frame, 8),
            list,
            out,
        ),
        Block::Code => { fleecebutton::fb_code_block(frame[0], frame[8], first, second, made, out) }
    }
}

// The decoders of planes and of pictures.
use crate::rooms;
use crate::rooms::Frame;

pub(crate) fn plane_answered(frame: &Frame) -> bool {
    let file = rooms::FIRST.bytes_in(frame);
    let mut out = [rooms::BEFORE; rooms::FILE];
    let word = fleecebutton::fb_decode_plane(file, rooms::OUT.part_out(frame, &mut out));
    (word == rooms::word(frame)) & rooms::OUT.is_left(frame, &out)
}

// Not one with `coding::picture_answered`, which has an output more: every call has its own rooms, and a line for each.
pub(crate) fn picture_answered(frame: &Frame) -> bool {
    let file = rooms::FIRST.bytes_in(frame);
    let mut out = [rooms::BEFORE; rooms::FILE];
    let mut more = [rooms::BEFORE; rooms::PLANE];
    let mut extra = [rooms::BEFORE; rooms::CHROMA];
    let word = fleecebutton::fb_decode_picture(
        file,
        rooms::OUT.part_out(frame, &mut out),
        rooms::MORE.part_out(frame, &mut more),
        rooms::EXTRA.part_out(frame, &mut extra),
    );
    (word == rooms::word(frame))
        & rooms::OUT.is_left(frame, &out)
        & rooms::MORE.is_left(frame, &more)
        & rooms::EXTRA.is_left(frame, &extra)
}

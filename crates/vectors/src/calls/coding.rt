// The coders of planes and of pictures.
use crate::rooms;
use crate::rooms::Frame;

pub(crate) fn plane_answered(frame: &Frame) -> bool {
    let mut out = [rooms::BEFORE; rooms::FILE];
    let mut more = [rooms::BEFORE; rooms::PLANE];
    let word = plane_word(
        frame,
        rooms::OUT.part_out(frame, &mut out),
        rooms::MORE.part_out(frame, &mut more),
    );
    (word == rooms::word(frame))
        & rooms::OUT.is_left(frame, &out)
        & rooms::MORE.is_left(frame, &more)
}

fn plane_word(frame: &Frame, file: &mut [u8], rebuilt: &mut [u8]) -> u64 {
    let layout = rooms::layout_in(frame);
    fleecebutton::fb_code_plane(
        layout.width,
        layout.height,
        layout.rows,
        frame[24],
        rooms::FIRST.bytes_in(frame),
        file,
        rebuilt,
    )
}

pub(crate) fn picture_answered(frame: &Frame) -> bool {
    let mut out = [rooms::BEFORE; rooms::FILE];
    let mut more = [rooms::BEFORE; rooms::PLANE];
    let mut extra = [rooms::BEFORE; rooms::CHROMA];
    let mut last = [rooms::BEFORE; rooms::CHROMA];
    let word = picture_word(
        frame,
        rooms::OUT.part_out(frame, &mut out),
        rooms::MORE.part_out(frame, &mut more),
        rooms::EXTRA.part_out(frame, &mut extra),
        rooms::LAST.part_out(frame, &mut last),
    );
    (word == rooms::word(frame))
        & rooms::OUT.is_left(frame, &out)
        & rooms::MORE.is_left(frame, &more)
        & rooms::EXTRA.is_left(frame, &extra)
        & rooms::LAST.is_left(frame, &last)
}

fn picture_word(
    frame: &Frame,
    file: &mut [u8],
    luma: &mut [u8],
    cb: &mut [u8],
    cr: &mut [u8],
) -> u64 {
    let layout = rooms::layout_in(frame);
    let qp = frame[24];
    let cb_offset = recorded::inner::four_signed(frame, 32);
    let cr_offset = recorded::inner::four_signed(frame, 40);
    fleecebutton::fb_code_picture(
        layout.width,
        layout.height,
        layout.rows,
        qp,
        cb_offset,
        cr_offset,
        rooms::FIRST.bytes_in(frame),
        rooms::SECOND.bytes_in(frame),
        rooms::THIRD.bytes_in(frame),
        file,
        luma,
        cb,
        cr,
    )
}

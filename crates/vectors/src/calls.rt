// The calls that requests ask for, by the kinds of arguments that the functions take.
mod blocks;
mod coding;
mod decoding;
mod numbers;
mod telling;

use crate::rooms::Frame;
use blocks::Block;
use numbers::List;
use telling::Told;

#[derive(Clone, Copy)]
pub(crate) enum Function {
    Block(Block),
    List(List),
    Told(Told),
    CodePlane,
    DecodePlane,
    CodePicture,
    DecodePicture,
}

// The recordings, in the order in which they are asked.
pub(crate) const ASKED: [(&str, Function); 20] = [
    ("fb_predict", Function::Block(Block::Predict)),
    ("fb_choose", Function::Block(Block::Choose)),
    ("fb_forward", Function::List(List::Forward)),
    ("fb_levels", Function::List(List::Levels)),
    ("fb_rebuild", Function::Block(Block::Rebuild)),
    ("fb_rebuild_with_dc", Function::Block(Block::RebuildWithDc)),
    ("fb_code_block", Function::Block(Block::Code)),
    ("fb_luma_dc_levels", Function::List(List::LumaDcLevels)),
    ("fb_luma_dc_values", Function::List(List::LumaDcValues)),
    ("fb_chroma_dc_levels", Function::List(List::ChromaDcLevels)),
    ("fb_chroma_dc_values", Function::List(List::ChromaDcValues)),
    ("quantizer", Function::Told(Told::Quantizer)),
    ("fb_chroma_quantizer", Function::Told(Told::ChromaQuantizer)),
    (
        "fb_promised_distance",
        Function::Told(Told::PromisedDistance),
    ),
    ("fb_code_plane", Function::CodePlane),
    ("fb_read_head", Function::Told(Told::ReadHead)),
    ("fb_decode_plane", Function::DecodePlane),
    ("fb_code_picture", Function::CodePicture),
    ("fb_decode_picture", Function::DecodePicture),
    ("fb_inspect", Function::Told(Told::Inspect)),
];

// Whether the call sends back the word that the frame has, and leaves its outputs as they stand there, behind what was lent too.
pub(crate) fn answered(function: Function, frame: &Frame) -> bool {
    match function {
        Function::Block(block) => blocks::answered(block, frame),
        Function::List(list) => numbers::answered(list, frame),
        Function::Told(told) => telling::answered(told, frame),
        Function::CodePlane => coding::plane_answered(frame),
        Function::DecodePlane => decoding::plane_answered(frame),
        Function::CodePicture => coding::picture_answered(frame),
        Function::DecodePicture => decoding::picture_answered(frame),
    }
}

// A macroblock's chroma: the content of its chroma record tested, its samples of Cb and Cr rebuilt, and both coded (02, Req 05).

#![tactic(auto)]

mod code;
mod content;
pub mod inner;
mod rebuild;

use quantizer::Quantizer;

// The quantizers of Cb and Cr.
// No ghost field says that both are legal: `both_of` (specs/Content) makes one of any two, so that the definition would have to hold a proof.
// Not one type with `frame`'s `Offsets`: neither is public, and a generic pair would be, for two fields.
#[derive(Clone, Copy)]
pub(crate) struct Quantizers {
    pub(crate) cb: Quantizer,
    pub(crate) cr: Quantizer,
}

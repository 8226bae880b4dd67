// The functions that are lent no output: their answer is the word alone.
use crate::rooms;
use crate::rooms::Frame;
use quantizer::Quantizer;
use refusal::Refusal;

#[derive(Clone, Copy)]
pub(crate) enum Told {
    ChromaQuantizer,
    PromisedDistance,
    ReadHead,
    Inspect,
    Quantizer,
}

// A word that no function sends back: 255 is no refusal's number.
// A word and no `Option`: it is only compared with the recorded one.
const NEVER_SENT: u64 = 255;

pub(crate) fn answered(function: Told, frame: &Frame) -> bool {
    let file = rooms::FIRST.bytes_in(frame);
    let theirs = rooms::SECOND.bytes_in(frame);
    let word = match function {
        Told::ChromaQuantizer => {
            fleecebutton::fb_chroma_quantizer(frame[0], recorded::inner::four_signed(frame, 8))
        }
        Told::PromisedDistance => fleecebutton::fb_promised_distance(frame[0]),
        Told::ReadHead => fleecebutton::fb_read_head(file),
        Told::Inspect => fleecebutton::fb_inspect(file, theirs),
        Told::Quantizer => of_quantizer(Quantizer::new(frame[0])),
    };
    word == rooms::word(frame)
}

// `Quantizer::new` has no exported function: its answer as a word. A refusal at the place 0 is its number alone.
fn of_quantizer(built: Result<Quantizer, Refusal>) -> u64 {
    match built {
        Ok(quantizer) => 256 * u64::from(quantizer.number()),
        Err(refusal @ Refusal::Quantizer(0)) => u64::from(refusal::inner::number(refusal)),
        Err(_) => NEVER_SENT,
    }
}

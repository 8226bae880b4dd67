// Samples round a 4x4 block, the nine modes of prediction, SAD and the choice of a mode (01, "Samples round a block").

#![tactic(auto)]

ghost use Rattle.intra4.specs.Entry.{Predicts, Chooses};

use refusal::Refusal;

mod fills;
pub mod inner;
mod rules;
mod samples;
mod search;

// A mode that was chosen, by its number, and its SAD.
// Not choice's `Standing`, which also stands for no mode yet.
#[derive(Clone, Copy)]
pub struct Chosen {
    pub mode: u8,
    pub sad: u32,
}

// A mode's sixteen samples from the neighbours M, A to H, I to L.
pub fn predict(neighbours: &[u8], flags: u8, mode: u8, out: &mut [u8]) -> Result<(), Refusal>
    ensures { Predicts neighbours.now flags mode out.old result out.new }
{
    if neighbours.len() != 13 {
        return Err(Refusal::Length);
    }
    if out.len() != 16 {
        return Err(Refusal::Length);
    }
    if 15 < flags {
        return Err(Refusal::Flags(0));
    }
    if inner::permitted(flags, mode) {
        inner::fill(neighbours, flags, mode, out);
        Ok(())
    } else {
        Err(Refusal::Mode(0))
    }
}

// The permitted mode with the least SAD against the samples, the lower number on a tie; its prediction is written.
pub fn choose(
    neighbours: &[u8],
    flags: u8,
    samples: &[u8],
    prediction: &mut [u8],
) -> Result<Chosen, Refusal>
    ensures { Chooses neighbours.now flags samples.now prediction.old result prediction.new }
{
    if neighbours.len() != 13 {
        return Err(Refusal::Length);
    }
    if samples.len() != 16 {
        return Err(Refusal::Length);
    }
    if prediction.len() != 16 {
        return Err(Refusal::Length);
    }
    if 15 < flags {
        return Err(Refusal::Flags(0));
    }
    Ok(inner::pick(neighbours, flags, samples, prediction))
}

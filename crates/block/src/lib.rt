// One 4x4 block: a mode chosen, its residual coded as levels, and the samples that a decoder rebuilds from them.

#![tactic(auto)]

ghost use Rattle.block.specs.Entry.{Codes};

use inner::Block;
use intra4::Chosen;
use quantizer::Quantizer;
use refusal::Refusal;

pub mod inner;

// Codes sixteen samples beside the neighbours M, A to H, I to L: levels in zigzag order, rebuilt samples in raster order.
// The answer is the chosen mode with its SAD.
pub fn code_block(
    qp: u8,
    flags: u8,
    neighbours: &[u8],
    samples: &[u8],
    levels: &mut [i32],
    rebuilt: &mut [u8],
) -> Result<Chosen, Refusal>
    ensures { Codes qp flags neighbours.now samples.now levels.old rebuilt.old result levels.new rebuilt.new }
{
    if neighbours.len() != 13 {
        return Err(Refusal::Length);
    }
    if samples.len() != 16 {
        return Err(Refusal::Length);
    }
    if levels.len() != 16 {
        return Err(Refusal::Length);
    }
    if rebuilt.len() != 16 {
        return Err(Refusal::Length);
    }
    if 15 < flags {
        return Err(Refusal::Flags(0));
    }
    let quantizer = Quantizer::new(qp)?;
    let block = inner::coded(quantizer, neighbours, flags, samples);
    whole::inner::copy(&block.levels, levels);
    rebuilt.copy_from_slice(&block.rebuilt);
    let Block { mode, sad, .. } = block;
    Ok(Chosen { mode, sad })
}

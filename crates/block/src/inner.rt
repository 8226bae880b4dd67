// A block coded by value, for callers that have tested their numbers.
ghost use Rattle.std.specs.Prelude.{◌≡◌, ◌≤◌, pos, ◌-ℤ◌, length};
ghost use Rattle.whole.specs.Bounds.{Within, Each};
ghost use Rattle.quantizer.specs.Range.{highest};
ghost use Rattle.intra4.specs.Samples.{mask};
ghost use Rattle.block.specs.Block.{residual_of};
ghost use Rattle.block.specs.Entry.{Carries};

use intra4::inner::Choice;
use quantizer::Quantizer;
use std::array;

// What is coded of a block: the chosen mode and its SAD, the levels in zigzag order, and the rebuilt samples.
// Its mode and SAD go on by name: a `From` for each place would be a public function to .ci/stamp.
#[derive(Clone, Copy)]
pub struct Block {
    pub mode: u8,
    pub sad: u32,
    pub levels: [i32; 16],
    pub rebuilt: [u8; 16],
}

fn difference(sample: u8, predicted: u8) -> i32
    ensures { (result ≡ pos sample -ℤ pos predicted) × (Within 255 result) }
{
    i32::from(sample) - i32::from(predicted)
}

// What the prediction lacks.
pub fn lacking(samples: &[u8], prediction: [u8; 16]) -> [i32; 16]
    requires { length samples.now ≡ 16 }
    ensures { (result ≡ residual_of samples.now prediction) × (Each 255 result) }
{
    array::from_fn(|place| difference(samples[place], prediction[place]))
}

// The levels are rescaled as they stand, in raster order: the zigzag order is for the caller alone. A prediction that lacks nothing has levels 0
// and is what is rebuilt.
pub fn coded(quantizer: Quantizer, neighbours: &[u8], flags: u8, samples: &[u8]) -> Block
    requires { (quantizer.qp ≤ highest) × (length neighbours.now ≡ 13) × (length samples.now ≡ 16) }
    ensures { Carries quantizer.qp (mask neighbours.now flags) samples.now result }
{
    let Choice {
        mode,
        sad,
        prediction,
    } = intra4::inner::chosen(neighbours, flags, samples);
    let mut levels = [0i32; 16];
    let mut rebuilt = prediction;
    if 0 < sad {
        let raster = residual::inner::quantized(quantizer, lacking(samples, prediction));
        levels = residual::inner::in_zigzag(raster);
        rebuilt = residual::inner::rebuilt(quantizer, prediction, raster);
    }
    Block {
        mode,
        sad,
        levels,
        rebuilt,
    }
}

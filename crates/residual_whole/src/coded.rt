// The blocks of a macroblock, from samples to levels.
ghost use Rattle.std.specs.Prelude.{◌≡◌, ◌++◌, ◌*◌, ◌<◌, ◌≤◌, pos, length, get_or, take};
ghost use Rattle.lists.specs.Parts.{parts};
ghost use Rattle.whole.specs.Bounds.{Within, Each};
ghost use Rattle.quantizer.specs.Range.{highest};
ghost use Rattle.transform.specs.Forward.{forward};
ghost use Rattle.dc.specs.Path.{ac_of};
ghost use Rattle.residual_whole.specs.Area.{Sided, blocks_of};
ghost use Rattle.residual_whole.specs.Coded.{residual_in, whole_dc};

use crate::area;
use quantizer::Quantizer;

// The AC levels of block b; answers its DC coefficient.
fn block_to_levels(
    s: usize,
    quantizer: Quantizer,
    prediction: &[u8],
    samples: &[u8],
    b: usize,
    ac: &mut [i32],
) -> i32
    requires { (Sided s) × (quantizer.qp ≤ highest) × (length prediction.now ≡ s * s) × (length samples.now ≡ s * s) × (b < blocks_of s) × (length ac.old ≡ 15) }
    ensures value { (result ≡ get_or (forward (residual_in s samples.now prediction.now b)) 0 (pos 0)) × (Within 4080 result) }
    ensures ac_after { ac.new ≡ ac_of quantizer.qp (residual_in s samples.now prediction.now b) }
{
    let own = area::part(samples, s, b);
    let residual = block::inner::lacking(&own, area::part(prediction, s, b));
    let coefficients = transform::inner::forward_block(residual);
    let levels = residual::inner::in_zigzag(residual::inner::quantized(quantizer, residual));
    whole::inner::copy(&levels[1..], ac);
    coefficients[0]
}

// The AC levels of all blocks, behind the room for the DC levels, and the blocks' DC coefficients in raster order.
pub(crate) fn blocks_to_levels(
    s: usize,
    quantizer: Quantizer,
    prediction: &[u8],
    samples: &[u8],
    coefficients: &mut [i32],
    levels: &mut [i32],
)
    requires sided { (Sided s) × (quantizer.qp ≤ highest) × (length prediction.now ≡ s * s) × (length samples.now ≡ s * s) }
    requires coefficients_len { (length coefficients.old ≡ blocks_of s) × (length levels.old ≡ s * s) }
    ensures coefficients_after { (coefficients.new ≡ whole_dc s samples.now prediction.now) × (Each 4080 coefficients.new) }
    ensures levels_after { levels.new ≡ take (blocks_of s) levels.old ++ parts (blocks_of s) (λ b. ac_of quantizer.qp (residual_in s samples.now prediction.now b)) }
{
    let count = s * s / 16;
    // by number: behind `chunks_exact_mut` a proof knows how long the levels are, and not what was written
    for b in 0usize..count {
        let at = count + 15 * b;
        let end = at + 15;
        let place = area::place(s, b);
        coefficients[place] = block_to_levels(
            s,
            quantizer,
            prediction,
            samples,
            b,
            &mut levels[at..end],
        );
    }
}

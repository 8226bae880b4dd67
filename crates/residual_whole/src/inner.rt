// What the crates above ask of a macroblock predicted whole: its levels, whether a decoder accepts them, and its samples of them; 16 by 16 of luma,
// 8 by 8 of chroma.
ghost use Rattle.std.specs.Prelude.{true, ◌≡◌, ◌*◌, ◌≤◌, length};
ghost use Rattle.lists.specs.First.{found};
ghost use Rattle.whole.specs.Bounds.{Each};
ghost use Rattle.quantizer.specs.Range.{highest};
ghost use Rattle.residual_whole.specs.Area.{Sided, blocks_of};
ghost use Rattle.residual_whole.specs.Coded.{whole_levels};
ghost use Rattle.residual_whole.specs.Rebuilt.{whole_samples, dc_fits, first_ac};

use crate::{coded, rebuilt};
use quantizer::Quantizer;

// The levels of s by s samples beside their prediction: the DC levels, then the AC levels of the blocks.
// No heap: the room, here, in `dc_fits` and in `rebuilt`, is the front of the larger array. The side is a number and no const parameter: of a parameter S no
// array of S * S / 16 could be made, so the room would be cut from sixteen all the same.
// The side, the quantizer and the levels are no struct, here, in `coded` and in `rebuilt`: a caller would make one for a call or two, and what goes on to
// `dc::inner` has no side, since that looks at the length.
pub fn levels(s: usize, quantizer: Quantizer, prediction: &[u8], samples: &[u8], levels: &mut [i32])
    requires { (Sided s) × (quantizer.qp ≤ highest) × (length prediction.now ≡ s * s) × (length samples.now ≡ s * s) × (length levels.old ≡ s * s) }
    ensures { levels.new ≡ whole_levels s quantizer.qp samples.now prediction.now }
{
    let count = s * s / 16;
    let mut room = [0i32; 16];
    let coefficients = &mut room[..count];
    coded::blocks_to_levels(s, quantizer, prediction, samples, coefficients, levels);
    dc::inner::levels_over(quantizer, coefficients);
    whole::inner::copy(coefficients, &mut levels[..count]);
}

// Whether all DC values fit 16 bits.
pub fn dc_fits(s: usize, quantizer: Quantizer, levels: &[i32]) -> bool
    requires { (Sided s) × (quantizer.qp ≤ highest) × (length levels.now ≡ s * s) × (Each 32768 levels.now) }
    ensures { result ≡ dc_fits s quantizer.qp levels.now }
{
    let mut room = [0i32; 16];
    let values = &mut room[..s * s / 16];
    rebuilt::dc_values(s, quantizer, levels, values);
    rebuilt::all_fit(values)
}

// The block of the first rescaled AC level outside 16 bits, in block order and zigzag order, if there is one.
// By nested loops over blocks and levels, left by a label: this form is asked for (docs/DECISIONS.md, 100).
pub fn first_ac(s: usize, quantizer: Quantizer, levels: &[i32]) -> Option<usize>
    requires { (Sided s) × (quantizer.qp ≤ highest) × (length levels.now ≡ s * s) × (Each 32768 levels.now) }
    ensures { result ≡ found (blocks_of s) (first_ac s quantizer.qp levels.now) }
{
    let count = s * s / 16;
    let mut offence = None;
    'blocks: for b in 0usize..count {
        let numbers = rebuilt::ac_rescaled(s, quantizer, levels, b);
        for number in numbers.iter() {
            if !whole::inner::inside(*number, -32768, 32767) {
                offence = Some(b);
                break 'blocks;
            }
        }
    }
    offence
}

// The samples of a prediction and s by s levels in range.
pub fn rebuilt(s: usize, quantizer: Quantizer, prediction: &[u8], levels: &[i32], out: &mut [u8])
    requires sided { (Sided s) × (quantizer.qp ≤ highest) × (length prediction.now ≡ s * s) × (length levels.now ≡ s * s) × (length out.old ≡ s * s) }
    requires each { (Each 32768 levels.now) × (dc_fits s quantizer.qp levels.now ≡ true) × (first_ac s quantizer.qp levels.now ≡ blocks_of s) }
    ensures { out.new ≡ whole_samples s quantizer.qp prediction.now levels.now }
{
    let mut room = [0i32; 16];
    let values = &mut room[..s * s / 16];
    rebuilt::dc_values(s, quantizer, levels, values);
    rebuilt::all_samples(s, quantizer, prediction, levels, values, out);
}

// The blocks of a macroblock, from levels to samples.
ghost use Rattle.std.specs.Prelude.{true, eqb, ◌≡◌, ◌∷◌, ◌*◌, ◌<◌, ◌≤◌, pos, length};
ghost use Rattle.whole.specs.Bounds.{Within, Each};
ghost use Rattle.quantizer.specs.Range.{highest};
ghost use Rattle.residual.specs.Entry.{first_wide};
ghost use Rattle.residual.specs.Order.{in_zigzag, in_places};
ghost use Rattle.residual.specs.Rebuild.{rebuilt_samples, rescaled_with_dc};
ghost use Rattle.residual_whole.specs.Area.{Sided, blocks_of, part_in};
ghost use Rattle.residual_whole.specs.Rebuilt.{ac_in, values_in, whole_samples, dc_fits, ac_numbers, first_ac};

use crate::area;
use quantizer::Quantizer;
use std::array;

// The AC levels of block b in their raster places, with 0 in the place of the DC. Read where they stand: a copy that is read again at once is
// dear.
fn ac(s: usize, levels: &[i32], b: usize) -> [i32; 16]
    requires { (Sided s) × (length levels.now ≡ s * s) × (b < blocks_of s) }
    ensures { result ≡ in_places (pos 0 ∷ ac_in s levels.now b) }
{
    let before = s * s / 16 + 15 * b - 1;
    let steps = quantizer::inner::steps();
    array::from_fn(|place| {
        if place == 0 {
            0
        } else {
            levels[before + steps[place]]
        }
    })
}

// The DC values of the blocks, in raster order.
pub(crate) fn dc_values(s: usize, quantizer: Quantizer, levels: &[i32], values: &mut [i32])
    requires { (Sided s) × (quantizer.qp ≤ highest) × (length levels.now ≡ s * s) × (Each 32768 levels.now) × (length values.old ≡ blocks_of s) }
    ensures { values.new ≡ values_in s quantizer.qp levels.now }
{
    let count = values.len();
    whole::inner::copy(&levels[..count], values);
    dc::inner::values_over(quantizer, values);
}

// Whether numbers fit 16 bits.
pub(crate) fn all_fit(numbers: &[i32]) -> bool
    ensures { result ≡ eqb (first_wide numbers.now) (length numbers.now) }
{
    numbers
        .iter()
        .all(|z| whole::inner::inside(*z, -32768, 32767))
}

// The rescaled AC levels of block b, in the order of the levels.
pub(crate) fn ac_rescaled(s: usize, quantizer: Quantizer, levels: &[i32], b: usize) -> [i32; 16]
    requires { (Sided s) × (quantizer.qp ≤ highest) × (length levels.now ≡ s * s) × (Each 32768 levels.now) × (b < blocks_of s) }
    ensures { result ≡ in_zigzag (ac_numbers s quantizer.qp levels.now b) }
{
    let mut numbers = residual::inner::rescaled(quantizer, ac(s, levels, b));
    numbers[0] = 0;
    residual::inner::in_zigzag(numbers)
}

// The samples of block b beside its DC value: its predicted ones where that and all its levels are 0.
fn block_samples(
    s: usize,
    quantizer: Quantizer,
    prediction: &[u8],
    levels: &[i32],
    dc: i32,
    b: usize,
) -> [u8; 16]
    requires sided { (Sided s) × (quantizer.qp ≤ highest) × (length prediction.now ≡ s * s) × (length levels.now ≡ s * s) × (Each 32768 levels.now) × (b < blocks_of s) }
    requires within { (Within 32768 dc) × (Each 32768 (ac_numbers s quantizer.qp levels.now b)) }
    ensures { result ≡ rebuilt_samples (part_in s b prediction.now) (rescaled_with_dc quantizer.qp dc (ac_in s levels.now b)) }
{
    let own = area::part(prediction, s, b);
    let placed = ac(s, levels, b);
    if dc == 0 && residual::inner::all_zero(placed) {
        return own;
    }
    let mut numbers = residual::inner::rescaled(quantizer, placed);
    numbers[0] = dc;
    residual::inner::samples(own, numbers)
}

// The samples of all blocks beside their DC values.
pub(crate) fn all_samples(
    s: usize,
    quantizer: Quantizer,
    prediction: &[u8],
    levels: &[i32],
    values: &[i32],
    out: &mut [u8],
)
    requires sided { (Sided s) × (quantizer.qp ≤ highest) × (length prediction.now ≡ s * s) × (length levels.now ≡ s * s) × (length out.old ≡ s * s) }
    requires each { (Each 32768 levels.now) × (dc_fits s quantizer.qp levels.now ≡ true) × (first_ac s quantizer.qp levels.now ≡ blocks_of s) × (values.now ≡ values_in s quantizer.qp levels.now) }
    ensures { out.new ≡ whole_samples s quantizer.qp prediction.now levels.now }
{
    let count = s * s / 16;
    for b in 0usize..count {
        let dc = values[area::place(s, b)];
        let made = block_samples(s, quantizer, prediction, levels, dc, b);
        area::put(out, s, b, made);
    }
}

// What the entry points test first; levels and rescaled numbers of a block by value, for callers that have tested their numbers.
ghost use Rattle.std.specs.Prelude.{◌≡◌, ℕ, ◌-◌, ◌*◌, ◌/◌, ◌^◌, ◌<◌, ◌≤◌, eqb, ℤ, pos, ◌+ℤ◌, ◌*ℤ◌, length, get_or};
ghost use Rattle.std.specs.Int.Signed.{shr_z};
ghost use Rattle.lists.specs.Bytes.{Bytes};
ghost use Rattle.lists.specs.Tab.{tab};
ghost use Rattle.whole.specs.Clip.{clip};
ghost use Rattle.whole.specs.Range.{first_outside};
ghost use Rattle.whole.specs.Bounds.{Within, Each};
ghost use Rattle.residual.specs.Entry.{Accepts, lent_tests, residual_tests};
ghost use Rattle.residual.specs.Quantize.{level_by, f_of};
ghost use Rattle.residual.specs.Levels.{quantized};
ghost use Rattle.quantizer.specs.Range.{highest, period_of, remainder_of};
ghost use Rattle.quantizer.specs.Tables.{v_of};
ghost use Rattle.residual.specs.Rescale.{mf_at, v_at, Scalable, rescaled};
ghost use Rattle.residual.specs.Rebuild.{added, rebuilt_samples};
ghost use Rattle.residual.specs.Order.{ordered, in_zigzag, in_places};

use quantizer::{Class, Quantizer};
use refusal::Refusal;
use std::array;

// LENGTH of what is lent and of the room for what is written, then QUANTIZER.
// Lengths and no slices: what is written is lent to the caller alone (docs/DECISIONS.md, 95).
pub fn accepted(n: usize, qp: u8, given: usize, room: usize) -> Result<Quantizer, Refusal>
    ensures { Accepts (lent_tests n qp given room) qp result }
{
    if given != n || room != n {
        return Err(Refusal::Length);
    }
    Quantizer::new(qp)
}

// The same, then RESIDUAL of the n numbers lent.
pub fn residuals_accepted(
    n: usize,
    low: i32,
    high: i32,
    qp: u8,
    numbers: &[i32],
    room: usize,
) -> Result<Quantizer, Refusal>
    ensures { Accepts (residual_tests n low high qp numbers.now room) qp result }
{
    let quantizer = accepted(n, qp, numbers.len(), room)?;
    if let Some(place) = whole::inner::first_outside(numbers, low, high) {
        return Err(Refusal::Residual(place));
    }
    Ok(quantizer)
}

// The multipliers of the sixteen places.
pub(crate) fn multipliers(quantizer: Quantizer) -> [u32; 16]
    ensures { result ≡ tab 16 (mf_at quantizer.qp) }
{
    let a = u32::from(quantizer.mf(Class::A));
    let b = u32::from(quantizer.mf(Class::B));
    let c = u32::from(quantizer.mf(Class::C));
    quantizer::inner::by_class(a, b, c)
}

// The scale of a class, times a power of two: the period's for a block, a smaller one for luma DC.
pub fn scale(quantizer: Quantizer, class: Class, power: u8) -> u32
    requires { power ≤ 8 }
    ensures { result ≡ v_of (remainder_of quantizer.qp) class * 2 ^ power }
{
    u32::from(quantizer.v(class)) << power
}

// The scales of the sixteen places.
pub(crate) fn scales(quantizer: Quantizer) -> [u32; 16]
    requires { quantizer.qp ≤ highest }
    ensures { result ≡ tab 16 (λ place. v_at quantizer.qp place * 2 ^ period_of quantizer.qp) }
{
    let period = quantizer.period();
    let a = scale(quantizer, Class::A, period);
    let b = scale(quantizer, Class::B, period);
    let c = scale(quantizer, Class::C, period);
    quantizer::inner::by_class(a, b, c)
}

// The level of a coefficient: its size times mf, and f, divided by 2^q; then its sign.
fn level(y: i32, mf: u32, f: u32, q: u32) -> i32
    requires { (Within 65280 y) × (mf ≤ 13107) × (f ≤ 11184810) × (q ≤ 25) }
    ensures { result ≡ level_by mf f (2 ^ q) y }
{
    let size = (whole::inner::absolute(y) * mf + f) >> q;
    let n = size as i32;
    if y < 0 { 0 - n } else { n }
}

// Each number of a slice made its level, by the multiplier of its place.
// `enumerate` and no `zip(mf)`, so too in `scale_all` and in `add`: behind a `zip` of `iter_mut` a proof is told nothing of what was written
// (tried here: `returns` stayed open).
pub fn level_all(numbers: &mut [i32], mf: &[u32], f: u32, q: u32)
    requires { (Each 65280 numbers.old) × (length numbers.old ≤ length mf.now) × ((k : ℕ) → k < length numbers.old → get_or mf.now k 0 ≤ 13107) × (f ≤ 11184810) × (q ≤ 25) }
    ensures { numbers.new ≡ tab (length numbers.old) (λ k. level_by (get_or mf.now k 0) f (2 ^ q) (get_or numbers.old k (pos 0))) }
{
    for (k, number) in numbers.iter_mut().enumerate() {
        *number = level(*number, mf[k], f, q);
    }
}

// What is added before a size is divided: a third of the divisor.
pub fn third(period: u8) -> u32
    requires { period ≤ 8 }
    ensures { result ≡ f_of period }
{
    let divisor = 1u32 << (15 + period);
    divisor / 3
}

// What is added before a rescaled number is shifted down: half of the divisor.
// Beside `third`: each is a power of two and a division, with bounds of its own.
pub fn half(shift: u32) -> u32
    requires { shift ≤ 4 }
    ensures { (result ≡ 2 ^ shift / 2) × (result ≤ 8) }
{
    let divisor = 1u32 << shift;
    divisor / 2
}

// How far a is beyond b: of a period, the power of two that is left for its scale, and to a period, the shift that is left.
// A name for the library's method, which stays for `beyond_unique`.
pub fn beyond(a: u8, b: u8) -> u8
    ensures { result ≡ a - b }
{
    a.saturating_sub(b)
}

// The levels of sixteen residuals, in raster order.
pub fn quantized(quantizer: Quantizer, residual: [i32; 16]) -> [i32; 16]
    requires { (quantizer.qp ≤ highest) × (Each 255 residual) }
    ensures { result ≡ quantized quantizer.qp residual }
{
    let mut levels = transform::inner::forward_block(residual);
    let mf = multipliers(quantizer);
    let period = quantizer.period();
    level_all(&mut levels, &mf, third(period), 15 + u32::from(period));
    levels
}

// Sixteen numbers in the order of a table, which says from which place each is taken.
fn in_order(l: &[i32], table: [usize; 16]) -> [i32; 16]
    requires { (length l.now ≡ 16) × ((k : ℕ) → k < 16 → get_or table k 0 < 16) }
    ensures { result ≡ ordered 16 (λ k. get_or table k 0) l.now }
{
    array::from_fn(|k| l[table[k]])
}

// Sixteen numbers from raster order into zigzag order.
pub fn in_zigzag(l: [i32; 16]) -> [i32; 16]
    ensures { result ≡ in_zigzag l }
{
    in_order(&l, quantizer::inner::zigzag())
}

// And from zigzag order back into raster order, of lent numbers.
pub(crate) fn placed(l: &[i32]) -> [i32; 16]
    requires { length l.now ≡ 16 }
    ensures { result ≡ in_places l.now }
{
    in_order(l, quantizer::inner::steps())
}

// The same by value, which asks nothing of its callers, for whom `in_places_unique` is.
pub fn in_places(l: [i32; 16]) -> [i32; 16]
    ensures { result ≡ in_places l }
{
    placed(&l)
}

// A number rescaled: times its scale, and what is added, shifted down.
fn scaled(number: i32, scale: u32, round: u32, shift: u32) -> i32
    requires { (Scalable number scale) × (round ≤ 8) × (shift ≤ 4) }
    ensures { result ≡ shr_z (number *ℤ pos scale +ℤ pos round) (2 ^ shift) }
{
    (number * (scale as i32) + (round as i32)) >> shift
}

// Each number of a slice rescaled, by the scale of its place. It and `level_all` are a loop of two lines each, about what differs.
pub fn scale_all(numbers: &mut [i32], scale: &[u32], round: u32, shift: u32)
    requires { (length numbers.old ≤ length scale.now) × ((k : ℕ) → k < length numbers.old → Scalable (get_or numbers.old k (pos 0)) (get_or scale.now k 0)) × (round ≤ 8) × (shift ≤ 4) }
    ensures { numbers.new ≡ tab (length numbers.old) (λ k. shr_z (get_or numbers.old k (pos 0) *ℤ pos (get_or scale.now k 0) +ℤ pos round) (2 ^ shift)) }
{
    for (k, number) in numbers.iter_mut().enumerate() {
        *number = scaled(*number, scale[k], round, shift);
    }
}

// Sixteen levels in raster order, rescaled.
pub fn rescaled(quantizer: Quantizer, levels: [i32; 16]) -> [i32; 16]
    requires { (quantizer.qp ≤ highest) × (Each 32768 levels) }
    ensures { result ≡ rescaled quantizer.qp levels }
{
    let mut numbers = levels;
    let scale = scales(quantizer);
    scale_all(&mut numbers, &scale, 0, 0);
    numbers
}

fn sample(prediction: u8, residual: i32) -> u8
    requires { Within 1000000 residual }
    ensures { result ≡ clip 255 (pos prediction +ℤ residual) }
{
    whole::inner::clip(i32::from(prediction) + residual, 255)
}

// Sixteen residuals added to their predicted samples, clipped, in their places.
fn add(samples: &mut [u8], residual: [i32; 16])
    requires { (length samples.old ≡ 16) × (Each 1000000 residual) }
    ensures { samples.new ≡ added 16 samples.old residual }
{
    for (place, own) in samples.iter_mut().enumerate() {
        *own = sample(*own, residual[place]);
    }
}

// The samples of sixteen rescaled numbers, written over their prediction.
pub(crate) fn rebuild_over(samples: &mut [u8], numbers: [i32; 16])
    requires { (length samples.old ≡ 16) × (Each 32768 numbers) }
    ensures { samples.new ≡ rebuilt_samples samples.old numbers }
{
    add(samples, transform::inner::inverse_block(numbers));
}

// Whether sixteen numbers are all 0.
pub fn all_zero(numbers: [i32; 16]) -> bool
    ensures { result ≡ eqb (first_outside (pos 0) (pos 0) numbers) 16 }
{
    numbers == [0; 16]
}

// The samples of a prediction and of sixteen rescaled numbers.
pub fn samples(prediction: [u8; 16], numbers: [i32; 16]) -> [u8; 16]
    requires { Each 32768 numbers }
    ensures { result ≡ rebuilt_samples prediction numbers }
{
    let mut out = prediction;
    rebuild_over(&mut out, numbers);
    out
}

// Those of a prediction and of sixteen levels in raster order: of levels that are all 0 the prediction itself, without rescaling and inverse.
pub fn rebuilt(quantizer: Quantizer, prediction: [u8; 16], levels: [i32; 16]) -> [u8; 16]
    requires { (quantizer.qp ≤ highest) × (Bytes prediction) × (Each 32768 levels) × (Each 32768 (rescaled quantizer.qp levels)) }
    ensures { result ≡ rebuilt_samples prediction (rescaled quantizer.qp levels) }
{
    if all_zero(levels) {
        prediction
    } else {
        samples(prediction, rescaled(quantizer, levels))
    }
}

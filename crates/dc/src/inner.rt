// Levels and values of the DC paths, for callers that have tested their numbers.
ghost use Rattle.std.specs.Prelude.{◌≡◌, ◌≤◌, length};
ghost use Rattle.lists.specs.First.{found};
ghost use Rattle.whole.specs.Bounds.{Each};
ghost use Rattle.quantizer.specs.Range.{highest};
ghost use Rattle.residual.specs.Entry.{first_wide};
ghost use Rattle.dc.specs.Dc.{DcCount, quantized_dc, luma_levels, luma_scaled, luma_values, chroma_levels, chroma_values, dc_levels, dc_values, by_level};

use quantizer::{Class, Quantizer};

// Numbers that came through H made their levels; the divisor is 2^s times a coefficient's, s = 2 for luma and 1 for chroma.
fn quantized_dc(quantizer: Quantizer, t: &mut [i32], s: u32)
    requires { (quantizer.qp ≤ highest) × (Each 65280 t.old) × (length t.old ≤ 16) × (s ≤ 2) }
    ensures { t.new ≡ quantized_dc (length t.old) s quantizer.qp t.old }
{
    let period = quantizer.period();
    let mf = u32::from(quantizer.mf(Class::A));
    let f = residual::inner::third(period);
    let q = 15 + u32::from(period);
    let added = f << s;
    let same = [mf; 16];
    residual::inner::level_all(t, &same, added, q + s);
}

// Luma's path and chroma's are no twins, here and below: H has four rows or two, and only luma's levels stand in zigzag order (`luma_levels` and
// `chroma_levels` of specs/Dc).
// The levels of sixteen luma DC values, in zigzag order, written over them.
fn luma_levels(quantizer: Quantizer, dc: &mut [i32])
    requires { (quantizer.qp ≤ highest) × (length dc.old ≡ 16) × (Each 4080 dc.old) }
    ensures { dc.new ≡ luma_levels quantizer.qp dc.old }
{
    let w = <[i32; 16]>::try_from(&*dc).unwrap();
    let mut t = transform::inner::hadamard4(w);
    quantized_dc(quantizer, &mut t, 2);
    let ordered = residual::inner::in_zigzag(t);
    whole::inner::copy(&ordered, dc);
}

// The levels of four chroma DC values, in raster order, written over them.
fn chroma_levels(quantizer: Quantizer, dc: &mut [i32])
    requires { (quantizer.qp ≤ highest) × (length dc.old ≡ 4) × (Each 4080 dc.old) }
    ensures { dc.new ≡ chroma_levels quantizer.qp dc.old }
{
    let w = <[i32; 4]>::try_from(&*dc).unwrap();
    let mut t = transform::inner::hadamard2(w);
    quantized_dc(quantizer, &mut t, 1);
    whole::inner::copy(&t, dc);
}

// The levels of a macroblock's DC values, sixteen of luma or four of chroma, written over them.
pub fn levels_over(quantizer: Quantizer, dc: &mut [i32])
    requires { (quantizer.qp ≤ highest) × (DcCount (length dc.old)) × (Each 4080 dc.old) }
    ensures { dc.new ≡ dc_levels (length dc.old) quantizer.qp dc.old }
{
    if dc.len() == 16 {
        luma_levels(quantizer, dc);
    } else {
        chroma_levels(quantizer, dc);
    }
}

// Sixteen numbers that came through H, rescaled: below period 2 the shift is down, and rounds.
fn luma_scaled(quantizer: Quantizer, g: [i32; 16]) -> [i32; 16]
    requires { (quantizer.qp ≤ highest) × (Each 524288 g) }
    ensures { result ≡ luma_scaled quantizer.qp g }
{
    let mut values = g;
    let period = quantizer.period();
    let scale = residual::inner::scale(quantizer, Class::A, residual::inner::beyond(period, 2));
    let shift = u32::from(residual::inner::beyond(2, period));
    let same = [scale; 16];
    residual::inner::scale_all(&mut values, &same, residual::inner::half(shift), shift);
    values
}

// The luma DC values of sixteen levels in zigzag order, in raster order.
fn luma_values(quantizer: Quantizer, levels: [i32; 16]) -> [i32; 16]
    requires { (quantizer.qp ≤ highest) × (Each 32768 levels) }
    ensures { result ≡ luma_values quantizer.qp levels }
{
    let g = transform::inner::hadamard4(residual::inner::in_places(levels));
    luma_scaled(quantizer, g)
}

// The chroma DC values of four levels, both in raster order.
fn chroma_values(quantizer: Quantizer, levels: [i32; 4]) -> [i32; 4]
    requires { (quantizer.qp ≤ highest) × (Each 32768 levels) }
    ensures { result ≡ chroma_values quantizer.qp levels }
{
    let mut values = transform::inner::hadamard2(levels);
    let scale = residual::inner::scale(quantizer, Class::A, quantizer.period());
    let same = [scale; 4];
    residual::inner::scale_all(&mut values, &same, 0, 1);
    values
}

// The values of a macroblock's DC levels, sixteen of luma or four of chroma, written over them.
pub fn values_over(quantizer: Quantizer, dc: &mut [i32])
    requires { (quantizer.qp ≤ highest) × (DcCount (length dc.old)) × (Each 32768 dc.old) }
    ensures { dc.new ≡ dc_values (length dc.old) quantizer.qp dc.old }
{
    if dc.len() == 16 {
        let levels = <[i32; 16]>::try_from(&*dc).unwrap();
        whole::inner::copy(&luma_values(quantizer, levels), dc);
    } else {
        let levels = <[i32; 4]>::try_from(&*dc).unwrap();
        whole::inner::copy(&chroma_values(quantizer, levels), dc);
    }
}

// The place of the first of them outside 16 bits in the order of their levels, luma's zigzag or chroma's raster, if there is one.
pub(crate) fn first_far(values: &[i32]) -> Option<usize>
    requires { DcCount (length values.now) }
    ensures { result ≡ found (length values.now) (first_wide (by_level (length values.now) values.now)) }
{
    if values.len() == 16 {
        let raster = <[i32; 16]>::try_from(values).unwrap();
        let ordered = residual::inner::in_zigzag(raster);
        whole::inner::first_outside(&ordered, -32768, 32767)
    } else {
        whole::inner::first_outside(values, -32768, 32767)
    }
}

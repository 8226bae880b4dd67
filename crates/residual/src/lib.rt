// From residual to levels and back (01, "Transform, quantizer, rescaling"; ITU-T H.264, 8.5).

#![tactic(auto)]

ghost use Rattle.std.specs.Prelude.{◌≡◌, ◌≤◌, length};
ghost use Rattle.residual.specs.Entry.{Accepts, level_tests, Levels, Rebuilds, RebuildsWithDc, Finishes};

use quantizer::Quantizer;
use refusal::Refusal;

pub mod inner;

// The levels of sixteen residuals, in zigzag order.
pub fn levels(qp: u8, residual: &[i32], out: &mut [i32]) -> Result<(), Refusal>
    ensures { Levels qp residual.now out.old result out.new }
{
    let quantizer = inner::residuals_accepted(16, -255, 255, qp, residual, out.len())?;
    let x = <[i32; 16]>::try_from(residual).unwrap();
    let ordered = inner::in_zigzag(inner::quantized(quantizer, x));
    whole::inner::copy(&ordered, out);
    Ok(())
}

// RANGE of sixteen rescaled numbers; then the samples, written over a copy of the prediction in `out`.
fn finished(prediction: &[u8], numbers: [i32; 16], out: &mut [u8]) -> Result<(), Refusal>
    requires { (length prediction.now ≡ 16) × (length out.old ≡ 16) }
    ensures { Finishes prediction.now numbers out.old result out.new }
{
    let ordered = inner::in_zigzag(numbers);
    if let Some(place) = whole::inner::first_outside(&ordered, -32768, 32767) {
        return Err(Refusal::Range(place));
    }
    out.copy_from_slice(prediction);
    inner::rebuild_over(out, numbers);
    Ok(())
}

// LENGTH, QUANTIZER and LEVEL of n levels whose indexes count from `from`.
// `predicted` and `room` are lengths and no slices, as in `accepted`, which takes them: no sample is read here, and what is written is lent to the caller
// alone (docs/DECISIONS.md, 95).
fn levels_accepted(
    n: usize,
    from: usize,
    qp: u8,
    predicted: usize,
    levels: &[i32],
    room: usize,
) -> Result<Quantizer, Refusal>
    requires { from ≤ 1 }
    ensures { Accepts (level_tests n from qp predicted levels.now room) qp result }
{
    if levels.len() != n {
        return Err(Refusal::Length);
    }
    let quantizer = inner::accepted(16, qp, predicted, room)?;
    if let Some(place) = whole::inner::first_outside(levels, -32768, 32767) {
        return Err(Refusal::Level(from + place));
    }
    Ok(quantizer)
}

// The samples of a prediction and sixteen levels in zigzag order.
pub fn rebuild(qp: u8, prediction: &[u8], levels: &[i32], out: &mut [u8]) -> Result<(), Refusal>
    ensures { Rebuilds qp prediction.now levels.now out.old result out.new }
{
    let quantizer = levels_accepted(16, 0, qp, prediction.len(), levels, out.len())?;
    let numbers = inner::rescaled(quantizer, inner::placed(levels));
    finished(prediction, numbers, out)
}

// The same where the DC comes rescaled, with fifteen AC levels in zigzag order.
pub fn rebuild_with_dc(
    qp: u8,
    prediction: &[u8],
    dc: i32,
    ac: &[i32],
    out: &mut [u8],
) -> Result<(), Refusal>
    ensures { RebuildsWithDc qp prediction.now dc ac.now out.old result out.new }
{
    let quantizer = levels_accepted(15, 1, qp, prediction.len(), ac, out.len())?;
    let mut l = [0i32; 16];
    whole::inner::copy(ac, &mut l[1..]);
    let mut numbers = inner::rescaled(quantizer, inner::in_places(l));
    numbers[0] = dc;
    finished(prediction, numbers, out)
}

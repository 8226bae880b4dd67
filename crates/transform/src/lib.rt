// The transforms: forward 4x4 with its entry point, and, for the crates above, the inverse 4x4 and the Hadamard transforms
// (01, "Transform, quantizer, rescaling").

#![tactic(auto)]

ghost use Rattle.transform.specs.Entry.{Forwards};

use refusal::Refusal;

pub mod inner;

// The coefficients of sixteen residuals, each within -255..255.
pub fn forward(residual: &[i32], coefficients: &mut [i32]) -> Result<(), Refusal>
    ensures { Forwards residual.now coefficients.old result coefficients.new }
{
    if residual.len() != 16 {
        return Err(Refusal::Length);
    }
    if coefficients.len() != 16 {
        return Err(Refusal::Length);
    }
    if let Some(place) = whole::inner::first_outside(residual, -255, 255) {
        return Err(Refusal::Residual(place));
    }
    let x = <[i32; 16]>::try_from(residual).unwrap();
    let y = inner::forward_block(x);
    whole::inner::copy(&y, coefficients);
    Ok(())
}

// How far a rebuilt sample can be off (document 02, request 07).

#![tactic(auto)]

ghost use Rattle.std.specs.Prelude.{◌≡◌, ◌+◌, ◌*◌, ◌/◌, ◌^◌, ◌≤◌};
ghost use Rattle.quantizer.specs.Range.{remainder_of};
ghost use Rattle.distance.specs.Distance.{spread_of};
ghost use Rattle.distance.specs.Entry.{Promises};

use quantizer::{Class, Quantizer};
use refusal::Refusal;

// 16a+24c+9b of a quantizer.
fn spread(quantizer: Quantizer) -> u32
    ensures { (result ≡ spread_of (remainder_of quantizer.qp)) × (result ≤ 1101) }
{
    let a = u32::from(quantizer.v(Class::A));
    let b = u32::from(quantizer.v(Class::B));
    let c = u32::from(quantizer.v(Class::C));
    16 * a + 24 * c + 9 * b
}

// In whole samples, rounded down: the spread grown by its period, and 384.
fn whole_samples(spread: u32, period: u8) -> u16
    requires { (spread ≤ 1101) × (period ≤ 8) }
    ensures { result ≡ (spread * 2 ^ period + 384) / 384 }
{
    let grown = spread << period;
    ((grown + 384) / 384) as u16
}

// A distance such that no rebuilt sample of a 4x4 block without a DC path is farther off its original, or the refusal.
pub fn promised_distance(qp: u8) -> Result<u16, Refusal>
    ensures { Promises qp result }
{
    let quantizer = Quantizer::new(qp)?;
    Ok(whole_samples(spread(quantizer), quantizer.period()))
}

// Whether the levels of a chroma record are in range.
ghost use Rattle.std.specs.Prelude.{◌&&◌, ◌≡◌, ◌≤◌, length, take, drop};
ghost use Rattle.whole.specs.Bounds.{Each};
ghost use Rattle.quantizer.specs.Range.{highest};
ghost use Rattle.macroblock_chroma.specs.Fine.{in_range};

use crate::Quantizers;
use quantizer::Quantizer;

// The 64 levels of a plane: the DC values, then the AC.
#[tactic(auto, unfolding(crate::specs::Fine::in_range))]
fn one_in_range(quantizer: Quantizer, levels: &[i32]) -> bool
    requires { (quantizer.qp ≤ highest) × (length levels.now ≡ 64) × (Each 32768 levels.now) }
    ensures { result ≡ in_range quantizer.qp levels.now }
{
    residual_whole::inner::dc_fits(8, quantizer, levels)
        && residual_whole::inner::first_ac(8, quantizer, levels).is_none()
}

// Those of Cb, then of Cr.
pub(crate) fn both_in_range(both: Quantizers, levels: &[i32]) -> bool
    requires { (both.cb.qp ≤ highest) × (both.cr.qp ≤ highest) × (length levels.now ≡ 128) × (Each 32768 levels.now) }
    ensures { result ≡ (in_range both.cb.qp (take 64 levels.now) && in_range both.cr.qp (drop 64 levels.now)) }
{
    let (first, second) = levels.split_at(64);
    one_in_range(both.cb, first) && one_in_range(both.cr, second)
}

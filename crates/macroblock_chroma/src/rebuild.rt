// The samples of a macroblock's chroma, by its mode and its levels.
ghost use Rattle.std.specs.Prelude.{true, ◌≡◌, ◌≤◌, length, take, drop};
ghost use Rattle.whole.specs.Bounds.{Each};
ghost use Rattle.quantizer.specs.Range.{highest};
ghost use Rattle.chroma.specs.Rules.{permitted};
ghost use Rattle.residual_whole.specs.Rebuilt.{whole_samples};
ghost use Rattle.picture.specs.Order.{Among};
ghost use Rattle.picture.specs.Plane.{plane_length};
ghost use Rattle.picture.specs.Whole.{flags_round, with_whole, whole_turn};
ghost use Rattle.macroblock_chroma.specs.Fine.{in_range};
ghost use Rattle.macroblock_chroma.specs.Rebuild.{samples_chroma};

use crate::Quantizers;
use picture::Layout;
use quantizer::Quantizer;

// The samples of a prediction and 64 levels in range, stored as those of macroblock m.
#[tactic(auto, unfolding(crate::specs::Fine::in_range))]
pub(crate) fn store_one(
    layout: Layout,
    m: usize,
    quantizer: Quantizer,
    prediction: &[u8],
    levels: &[i32],
    plane: &mut [u8],
)
    requires among { (Among layout m 0) × (quantizer.qp ≤ highest) × (length prediction.now ≡ 64) × (length levels.now ≡ 64) × (length plane.old ≡ plane_length 8 layout) }
    requires each { (Each 32768 levels.now) × (in_range quantizer.qp levels.now ≡ true) }
    ensures { plane.new ≡ with_whole 8 layout m (whole_samples 8 quantizer.qp prediction.now levels.now) plane.old }
{
    let mut samples = [0u8; 64];
    residual_whole::inner::rebuilt(8, quantizer, prediction, levels, &mut samples);
    picture::inner::store_whole(plane, layout, 8, m, &samples);
}

// Macroblock m's turn in one plane.
fn rebuild_one(
    layout: Layout,
    m: usize,
    flags: u8,
    mode: u8,
    quantizer: Quantizer,
    levels: &[i32],
    plane: &mut [u8],
)
    requires among { (Among layout m 0) × (flags ≡ flags_round 8 layout m) × (permitted flags mode ≡ true) × (quantizer.qp ≤ highest) × (length levels.now ≡ 64) × (length plane.old ≡ plane_length 8 layout) }
    requires each { (Each 32768 levels.now) × (in_range quantizer.qp levels.now ≡ true) }
    ensures { plane.new ≡ whole_turn 8 (samples_chroma layout quantizer.qp mode levels.now) layout m plane.old }
{
    let mut neighbours = [0u8; 17];
    picture::inner::gather_round(plane, layout, 8, m, &mut neighbours);
    let mut prediction = [0u8; 64];
    chroma::inner::fill(&neighbours, flags, mode, &mut prediction);
    store_one(layout, m, quantizer, &prediction, levels, plane);
}

// Its turns in both: the first 64 levels are Cb's, the others Cr's.
pub(crate) fn rebuild_both(
    layout: Layout,
    m: usize,
    flags: u8,
    mode: u8,
    both: Quantizers,
    levels: &[i32],
    cb: &mut [u8],
    cr: &mut [u8],
)
    requires among { (Among layout m 0) × (flags ≡ flags_round 8 layout m) × (permitted flags mode ≡ true) × (both.cb.qp ≤ highest) × (both.cr.qp ≤ highest) }
    requires levels_len { (length levels.now ≡ 128) × (Each 32768 levels.now) × (in_range both.cb.qp (take 64 levels.now) ≡ true) × (in_range both.cr.qp (drop 64 levels.now) ≡ true) }
    requires cb_len { (length cb.old ≡ plane_length 8 layout) × (length cr.old ≡ plane_length 8 layout) }
    ensures cb_after { cb.new ≡ whole_turn 8 (samples_chroma layout both.cb.qp mode (take 64 levels.now)) layout m cb.old }
    ensures cr_after { cr.new ≡ whole_turn 8 (samples_chroma layout both.cr.qp mode (drop 64 levels.now)) layout m cr.old }
{
    let (cb_levels, cr_levels) = levels.split_at(64);
    rebuild_one(layout, m, flags, mode, both.cb, cb_levels, cb);
    rebuild_one(layout, m, flags, mode, both.cr, cr_levels, cr);
}

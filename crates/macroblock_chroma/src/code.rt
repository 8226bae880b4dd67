// A macroblock's chroma when coded: its mode and its predictions, its levels and samples.
ghost use Rattle.std.specs.Prelude.{◌++◌, ◌≡◌, ◌≤◌, length};
ghost use Rattle.quantizer.specs.Range.{highest};
ghost use Rattle.residual_whole.specs.Coded.{whole_levels};
ghost use Rattle.residual_whole.specs.Rebuilt.{whole_samples};
ghost use Rattle.picture.specs.Both.{pair};
ghost use Rattle.picture.specs.Order.{Among};
ghost use Rattle.picture.specs.Plane.{plane_length};
ghost use Rattle.picture.specs.Whole.{whole_of, with_whole};
ghost use Rattle.macroblock_chroma.specs.Code.{PredictsBoth};

use crate::{Quantizers, rebuild};
use picture::Layout;
use quantizer::Quantizer;

// One mode for both planes beside what has been rebuilt, and the two predictions in it. Cb's slices and Cr's stay apart: each is read by itself, and
// `chroma::inner::choose_for_both` takes them so; in `code_both` and in `rebuild::rebuild_both` likewise, each plane goes on by itself.
pub(crate) fn predict_both(
    layout: Layout,
    m: usize,
    cb: &[u8],
    cr: &[u8],
    cb_rebuilt: &[u8],
    cr_rebuilt: &[u8],
    cb_prediction: &mut [u8],
    cr_prediction: &mut [u8],
) -> u8
    requires among { (Among layout m 0) × (length cb.now ≡ plane_length 8 layout) × (length cr.now ≡ plane_length 8 layout) }
    requires cb_rebuilt_len { (length cb_rebuilt.now ≡ plane_length 8 layout) × (length cr_rebuilt.now ≡ plane_length 8 layout) }
    requires cb_prediction_len { (length cb_prediction.old ≡ 64) × (length cr_prediction.old ≡ 64) }
    ensures { PredictsBoth layout m (pair cb.now cr.now) (pair cb_rebuilt.now cr_rebuilt.now) result cb_prediction.new cr_prediction.new }
{
    let flags = picture::inner::flags_round(layout, m);
    let mut cb_neighbours = [0u8; 17];
    picture::inner::gather_round(cb_rebuilt, layout, 8, m, &mut cb_neighbours);
    let mut cr_neighbours = [0u8; 17];
    picture::inner::gather_round(cr_rebuilt, layout, 8, m, &mut cr_neighbours);
    let mut cb_samples = [0u8; 64];
    picture::inner::read_whole(cb, layout, 8, m, &mut cb_samples);
    let mut cr_samples = [0u8; 64];
    picture::inner::read_whole(cr, layout, 8, m, &mut cr_samples);
    chroma::inner::choose_for_both(
        flags,
        &cb_neighbours,
        &cr_neighbours,
        &cb_samples,
        &cr_samples,
        cb_prediction,
        cr_prediction,
    )
    .mode
}

// The levels of macroblock m's samples in a plane beside their prediction, and the samples that a decoder rebuilds.
fn code_one(
    layout: Layout,
    m: usize,
    quantizer: Quantizer,
    original: &[u8],
    prediction: &[u8],
    levels: &mut [i32],
    plane: &mut [u8],
)
    requires among { (Among layout m 0) × (quantizer.qp ≤ highest) × (length original.now ≡ plane_length 8 layout) × (length prediction.now ≡ 64) }
    requires levels_len { (length levels.old ≡ 64) × (length plane.old ≡ plane_length 8 layout) }
    ensures levels_after { levels.new ≡ whole_levels 8 quantizer.qp (whole_of 8 layout m original.now) prediction.now }
    ensures plane_after { plane.new ≡ with_whole 8 layout m (whole_samples 8 quantizer.qp prediction.now levels.new) plane.old }
{
    let mut samples = [0u8; 64];
    picture::inner::read_whole(original, layout, 8, m, &mut samples);
    residual_whole::inner::levels(8, quantizer, prediction, &samples, levels);
    rebuild::store_one(layout, m, quantizer, prediction, levels, plane);
}

// The same in both: 64 levels of Cb, then of Cr.
pub(crate) fn code_both(
    layout: Layout,
    m: usize,
    both: Quantizers,
    cb: &[u8],
    cr: &[u8],
    cb_prediction: &[u8],
    cr_prediction: &[u8],
    levels: &mut [i32],
    cb_out: &mut [u8],
    cr_out: &mut [u8],
)
    requires among { (Among layout m 0) × (both.cb.qp ≤ highest) × (both.cr.qp ≤ highest) × (length cb.now ≡ plane_length 8 layout) × (length cr.now ≡ plane_length 8 layout) }
    requires cb_prediction_len { (length cb_prediction.now ≡ 64) × (length cr_prediction.now ≡ 64) × (length levels.old ≡ 128) }
    requires cb_out_len { (length cb_out.old ≡ plane_length 8 layout) × (length cr_out.old ≡ plane_length 8 layout) }
    ensures levels_after { levels.new ≡ whole_levels 8 both.cb.qp (whole_of 8 layout m cb.now) cb_prediction.now ++ whole_levels 8 both.cr.qp (whole_of 8 layout m cr.now) cr_prediction.now }
    ensures cb_out_after { cb_out.new ≡ with_whole 8 layout m (whole_samples 8 both.cb.qp cb_prediction.now (whole_levels 8 both.cb.qp (whole_of 8 layout m cb.now) cb_prediction.now)) cb_out.old }
    ensures cr_out_after { cr_out.new ≡ with_whole 8 layout m (whole_samples 8 both.cr.qp cr_prediction.now (whole_levels 8 both.cr.qp (whole_of 8 layout m cr.now) cr_prediction.now)) cr_out.old }
{
    let (cb_levels, cr_levels) = levels.split_at_mut(64);
    code_one(layout, m, both.cb, cb, cb_prediction, cb_levels, cb_out);
    code_one(layout, m, both.cr, cr, cr_prediction, cr_levels, cr_out);
}

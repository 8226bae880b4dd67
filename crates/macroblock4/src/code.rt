// A macroblock coded block after block, beside the samples that have been rebuilt so far.
ghost use Rattle.std.specs.Prelude.{◌≡◌, ◌≤◌, length};
ghost use Rattle.quantizer.specs.Range.{highest};
ghost use Rattle.picture.specs.Order.{Among};
ghost use Rattle.picture.specs.Plane.{plane_length, gathered, turn};
ghost use Rattle.macroblock4.specs.Code.{mode_from, sad_from, levels_from, samples_from};

use block::inner::Block;
use choice::inner::Standing;
use picture::Layout;
use quantizer::Quantizer;

// Block b of macroblock m: its levels into their area, its rebuilt samples into the plane; answers its mode and its SAD.
pub(crate) fn code_turn(
    layout: Layout,
    m: usize,
    b: usize,
    quantizer: Quantizer,
    plane: &[u8],
    levels: &mut [i32],
    rebuilt: &mut [u8],
) -> Standing
    requires among { (Among layout m b) × (quantizer.qp ≤ highest) × (length plane.now ≡ plane_length 16 layout) }
    requires levels_len { (length levels.old ≡ 16) × (length rebuilt.old ≡ plane_length 16 layout) }
    ensures mode_value { result.mode ≡ mode_from layout plane.now m b (gathered 4 layout m b rebuilt.old) }
    ensures cost_value { result.cost ≡ sad_from layout plane.now m b (gathered 4 layout m b rebuilt.old) }
    ensures levels_after { levels.new ≡ levels_from layout quantizer.qp plane.now m b (gathered 4 layout m b rebuilt.old) }
    ensures rebuilt_after { rebuilt.new ≡ turn 4 (samples_from layout quantizer.qp plane.now) layout m b rebuilt.old }
{
    let flags = picture::inner::flags(layout, m, b);
    let neighbours = picture::inner::gather(rebuilt, layout, m, b);
    let samples = picture::inner::read_block(plane, layout, m, b);
    let Block {
        mode,
        sad: cost,
        levels: own_levels,
        rebuilt: own,
    } = block::inner::coded(quantizer, &neighbours, flags, &samples);
    whole::inner::copy(&own_levels, levels);
    picture::inner::store_block(rebuilt, layout, m, b, own);
    Standing { mode, cost }
}

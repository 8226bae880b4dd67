// A block's turn by its record.
ghost use Rattle.std.specs.Prelude.{◌≡◌, true, length};
ghost use Rattle.picture.specs.Order.{Among};
ghost use Rattle.picture.specs.Plane.{plane_length, turn};
ghost use Rattle.picture.specs.Whole.{with_whole};
ghost use Rattle.macroblock4.specs.Content.{mode_holds, range_holds};
ghost use Rattle.macroblock4.specs.Rebuild.{block_from};

use crate::content::Quantized;
use picture::Layout;

// The sixteen predicted samples of block b of macroblock m, and then its own, among those of the macroblock: the plane is only read. Where all
// levels are 0 the predicted samples are its own.
pub(crate) fn rebuild_turn(
    layout: Layout,
    m: usize,
    b: usize,
    quantized: Quantized,
    plane: &[u8],
    own: &mut [u8],
)
    requires among { (Among layout m b) × (length plane.now ≡ plane_length 16 layout) × (length own.old ≡ 256) }
    requires b_value { (mode_holds layout m quantized.part.now b ≡ true) × (range_holds quantized.part.now b ≡ true) }
    ensures { with_whole 16 layout m own.new plane.now ≡ turn 4 (block_from layout quantized.entry.part.now) layout m b (with_whole 16 layout m own.old plane.now) }
{
    let flags = picture::inner::flags(layout, m, b);
    let neighbours = picture::inner::gather_over(plane, own, layout, m, b);
    let mode = record::inner::mode(quantized.part, b);
    let mut prediction = [0u8; 16];
    intra4::inner::fill(&neighbours, flags, mode, &mut prediction);
    let samples = if record::inner::all_zero(quantized.part, b) {
        prediction
    } else {
        residual::inner::samples(prediction, quantized.rescaled(b))
    };
    let x = 4 * picture::inner::column_inside(b);
    let y = 4 * picture::inner::row_inside(b);
    picture::inner::store_at(own, 16, x, y, samples);
}

// A plane coded macroblock after macroblock, beside the samples that have been rebuilt so far.
ghost use Rattle.std.specs.Prelude.{◌≡◌, ◌≤◌, length};
ghost use Rattle.lists.specs.Parts.{over};
ghost use Rattle.quantizer.specs.Range.{highest};
ghost use Rattle.picture.specs.Order.{Sound};
ghost use Rattle.picture.specs.Plane.{plane_length};
ghost use Rattle.plane.specs.Code.{area_length, file_from, plane_from};

use picture::Layout;
use quantizer::Quantizer;

// How long the area is that the coder is lent for the file.
pub(crate) fn area_length(layout: Layout) -> usize
    requires { Sound layout }
    ensures { result ≡ area_length layout }
{
    let count = layout.width * layout.height;
    head::inner::length_for(layout.height, layout.rows) + record::inner::fours_length() * count
}

// The head and all macroblocks over the front of the file area; answers the place behind them.
// The walk stands in `frame::code` too, about another step: one function of both would be public over any step (as at `rebuild_plane`).
pub(crate) fn code_file(
    layout: Layout,
    quantizer: Quantizer,
    plane: &[u8],
    file: &mut [u8],
    rebuilt: &mut [u8],
) -> usize
    requires sound { (Sound layout) × (quantizer.qp ≤ highest) × (length plane.now ≡ plane_length 16 layout) }
    requires layout_in_bounds { (area_length layout ≤ length file.old) × (length rebuilt.old ≡ plane_length 16 layout) × (layout.rows ≤ layout.height) }
    ensures value { result ≡ length (file_from layout quantizer.qp plane.now rebuilt.old) }
    ensures file_after { file.new ≡ over (file_from layout quantizer.qp plane.now rebuilt.old) file.old }
    ensures rebuilt_after { rebuilt.new ≡ plane_from layout quantizer.qp plane.now rebuilt.old }
{
    let mut place = head::inner::write_head(
        layout.width as u16,
        layout.height as u16,
        layout.rows as u16,
        file,
    );
    let count = layout.width * layout.height;
    for m in 0usize..count {
        let used = macroblock::inner::code_macroblock(
            layout,
            m,
            quantizer,
            plane,
            &mut file[place..],
            rebuilt,
        );
        place += used;
    }
    place
}

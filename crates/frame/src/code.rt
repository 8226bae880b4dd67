// A picture coded macroblock after macroblock, beside the samples that have been rebuilt so far.
ghost use Rattle.std.specs.Prelude.{true, ◌≡◌, ◌+◌, ◌≤◌, pos, length};
ghost use Rattle.lists.specs.Parts.{over};
ghost use Rattle.whole.specs.Notation.{minus};
ghost use Rattle.whole.specs.Range.{inside};
ghost use Rattle.quantizer.specs.Range.{highest};
ghost use Rattle.record.specs.Kinds.{in_fours, in_chroma, length_of};
ghost use Rattle.picture.specs.Both.{pair};
ghost use Rattle.picture.specs.Order.{Among, Sound};
ghost use Rattle.picture.specs.Plane.{plane_length};
ghost use Rattle.macroblock.specs.Code.{coded_step};
ghost use Rattle.macroblock_chroma.specs.Code.{coded_step_chroma};
ghost use Rattle.plane.specs.Code.{plane_from};
ghost use Rattle.frame.specs.Code.{frame_area, records_from, frame_from, both_from};

use crate::Offsets;
use picture::Layout;
use quantizer::Quantizer;

// Macroblock m into its two records at the front of what is lent; answers how many bytes that were. Luma's planes go one way here and both of chroma
// another, each to a function that takes slices: a struct of three planes, here and in `code_frame`, would be taken apart again in these two calls.
fn code_records(
    layout: Layout,
    m: usize,
    quantizer: Quantizer,
    offsets: Offsets,
    luma: &[u8],
    cb: &[u8],
    cr: &[u8],
    file: &mut [u8],
    luma_out: &mut [u8],
    cb_out: &mut [u8],
    cr_out: &mut [u8],
) -> usize
    requires among { (Among layout m 0) × (quantizer.qp ≤ highest) × (inside (minus 12) (pos 12) offsets.cb ≡ true) × (inside (minus 12) (pos 12) offsets.cr ≡ true) }
    requires luma_len { (length luma.now ≡ plane_length 16 layout) × (length cb.now ≡ plane_length 8 layout) × (length cr.now ≡ plane_length 8 layout) }
    requires in_chroma_in_bounds { (length_of in_fours + length_of in_chroma ≤ length file.old) × (length luma_out.old ≡ plane_length 16 layout) × (length cb_out.old ≡ plane_length 8 layout) × (length cr_out.old ≡ plane_length 8 layout) }
    ensures value { result ≡ length (records_from layout quantizer.qp offsets.cb offsets.cr luma.now (pair cb.now cr.now) m luma_out.old (pair cb_out.old cr_out.old)) }
    ensures file_after { file.new ≡ over (records_from layout quantizer.qp offsets.cb offsets.cr luma.now (pair cb.now cr.now) m luma_out.old (pair cb_out.old cr_out.old)) file.old }
    ensures luma_out_after { luma_out.new ≡ coded_step layout quantizer.qp luma.now m luma_out.old }
    ensures cr_out_after { pair cb_out.new cr_out.new ≡ coded_step_chroma layout quantizer.qp offsets.cb offsets.cr (pair cb.now cr.now) m (pair cb_out.old cr_out.old) }
{
    let used = macroblock::inner::code_macroblock(layout, m, quantizer, luma, file, luma_out);
    let more = macroblock_chroma::inner::code_chroma(
        layout,
        m,
        quantizer.number(),
        offsets.cb,
        offsets.cr,
        cb,
        cr,
        &mut file[used..],
        cb_out,
        cr_out,
    );
    used + more
}

// The head and both records of all macroblocks over the front of the file area; answers the place behind them.
pub(crate) fn code_frame(
    layout: Layout,
    quantizer: Quantizer,
    offsets: Offsets,
    luma: &[u8],
    cb: &[u8],
    cr: &[u8],
    file: &mut [u8],
    luma_out: &mut [u8],
    cb_out: &mut [u8],
    cr_out: &mut [u8],
) -> usize
    requires sound { (Sound layout) × (layout.rows ≤ layout.height) × (quantizer.qp ≤ highest) × (inside (minus 12) (pos 12) offsets.cb ≡ true) × (inside (minus 12) (pos 12) offsets.cr ≡ true) }
    requires luma_len { (length luma.now ≡ plane_length 16 layout) × (length cb.now ≡ plane_length 8 layout) × (length cr.now ≡ plane_length 8 layout) }
    requires layout_in_bounds { (frame_area layout ≤ length file.old) × (length luma_out.old ≡ plane_length 16 layout) × (length cb_out.old ≡ plane_length 8 layout) × (length cr_out.old ≡ plane_length 8 layout) }
    ensures value { result ≡ length (frame_from layout quantizer.qp offsets.cb offsets.cr luma.now (pair cb.now cr.now) luma_out.old (pair cb_out.old cr_out.old)) }
    ensures file_after { file.new ≡ over (frame_from layout quantizer.qp offsets.cb offsets.cr luma.now (pair cb.now cr.now) luma_out.old (pair cb_out.old cr_out.old)) file.old }
    ensures luma_out_after { luma_out.new ≡ plane_from layout quantizer.qp luma.now luma_out.old }
    ensures cr_out_after { pair cb_out.new cr_out.new ≡ both_from layout quantizer.qp offsets.cb offsets.cr (pair cb.now cr.now) (pair cb_out.old cr_out.old) }
{
    let mut place = head::inner::write_head(
        layout.width as u16,
        layout.height as u16,
        layout.rows as u16,
        file,
    );
    let count = layout.width * layout.height;
    for m in 0usize..count {
        let used = code_records(
            layout,
            m,
            quantizer,
            offsets,
            luma,
            cb,
            cr,
            &mut file[place..],
            luma_out,
            cb_out,
            cr_out,
        );
        place += used;
    }
    place
}

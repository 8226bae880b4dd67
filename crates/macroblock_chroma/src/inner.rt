// What the crates above ask of a macroblock's chroma.
ghost use Rattle.std.specs.Prelude.{true, ◌≡◌, ◌≤◌, pos, length};
ghost use Rattle.lists.specs.Chain.{chain};
ghost use Rattle.lists.specs.Parts.{over};
ghost use Rattle.refusal.specs.Number.{said};
ghost use Rattle.whole.specs.Notation.{minus};
ghost use Rattle.whole.specs.Range.{inside};
ghost use Rattle.quantizer.specs.Range.{highest};
ghost use Rattle.record.specs.Kinds.{in_chroma, length_of};
ghost use Rattle.picture.specs.Both.{pair};
ghost use Rattle.picture.specs.Order.{Among};
ghost use Rattle.picture.specs.Plane.{plane_length};
ghost use Rattle.macroblock_chroma.specs.Code.{record_from_chroma, coded_step_chroma};
ghost use Rattle.macroblock_chroma.specs.Content.{quantizers_of, content_tests_chroma};
ghost use Rattle.macroblock_chroma.specs.Fine.{FineChroma};
ghost use Rattle.macroblock_chroma.specs.Rebuild.{cb_step, cr_step};

use crate::{Quantizers, code, content, rebuild};
use picture::Layout;
use refusal::Refusal;

// Both quantizers of a macroblock's QP: Cb and Cr have an offset each. None where one is out of its range.
// The offsets come one by one, as the record and `code_chroma_unique` have them.
fn both_quantizers(qp: u8, cb_offset: i32, cr_offset: i32) -> Option<Quantizers>
    requires { qp ≤ highest }
    ensures { result ≡ quantizers_of qp cb_offset cr_offset }
{
    let cb = quantizer::chroma_quantizer(qp, cb_offset).ok()?;
    let cr = quantizer::chroma_quantizer(qp, cr_offset).ok()?;
    Some(Quantizers { cb, cr })
}

// The content of macroblock m's chroma record, which begins at a place of the file: QUANTIZER of Cb's offset and of Cr's, MODE, then RANGE.
pub fn test_chroma(
    layout: Layout,
    m: usize,
    qp: u8,
    place: usize,
    part: &[u8],
) -> Result<(), Refusal>
    requires { (Among layout m 0) × (qp ≤ highest) × (length part.now ≡ length_of in_chroma) }
    ensures { said result ≡ chain (content_tests_chroma layout m qp place part.now) }
{
    let cb_offset = record::inner::cb_offset(part);
    let cr_offset = record::inner::cr_offset(part);
    let both = both_quantizers(qp, cb_offset, cr_offset).ok_or(Refusal::Quantizer(place))?;
    let flags = picture::inner::flags_round(layout, m);
    if !chroma::inner::permitted(flags, record::inner::chroma_mode(part)) {
        return Err(Refusal::Mode(place));
    }
    let mut levels = [0i32; 128];
    record::inner::both_levels(part, &mut levels);
    if !content::both_in_range(both, &levels) {
        return Err(Refusal::Range(place));
    }
    Ok(())
}

// Macroblock m's chroma by a record whose content is fine, of the macroblock's QP.
// The offsets are never refused here, since the content is fine.
pub fn rebuild_chroma(layout: Layout, m: usize, qp: u8, part: &[u8], cb: &mut [u8], cr: &mut [u8])
    requires among { (Among layout m 0) × (qp ≤ highest) × (length part.now ≡ length_of in_chroma) × (FineChroma layout m qp part.now) }
    requires cb_len { (length cb.old ≡ plane_length 8 layout) × (length cr.old ≡ plane_length 8 layout) }
    ensures cb_after { cb.new ≡ cb_step layout m qp part.now cb.old }
    ensures cr_after { cr.new ≡ cr_step layout m qp part.now cr.old }
{
    let cb_offset = record::inner::cb_offset(part);
    let cr_offset = record::inner::cr_offset(part);
    let both = both_quantizers(qp, cb_offset, cr_offset).unwrap();
    let flags = picture::inner::flags_round(layout, m);
    let mode = record::inner::chroma_mode(part);
    let mut levels = [0i32; 128];
    record::inner::both_levels(part, &mut levels);
    rebuild::rebuild_both(layout, m, flags, mode, both, &levels, cb, cr);
}

// Macroblock m's chroma into a record at the front of what is lent, and its rebuilt samples into both planes; answers how many bytes that were.
// The offsets are never refused here, since both are in their range.
pub fn code_chroma(
    layout: Layout,
    m: usize,
    qp: u8,
    cb_offset: i32,
    cr_offset: i32,
    cb: &[u8],
    cr: &[u8],
    file: &mut [u8],
    cb_out: &mut [u8],
    cr_out: &mut [u8],
) -> usize
    requires among { (Among layout m 0) × (qp ≤ highest) × (inside (minus 12) (pos 12) cb_offset ≡ true) × (inside (minus 12) (pos 12) cr_offset ≡ true) }
    requires cb_len { (length cb.now ≡ plane_length 8 layout) × (length cr.now ≡ plane_length 8 layout) × (length_of in_chroma ≤ length file.old) }
    requires cb_out_len { (length cb_out.old ≡ plane_length 8 layout) × (length cr_out.old ≡ plane_length 8 layout) }
    ensures value { result ≡ length_of in_chroma }
    ensures file_after { file.new ≡ over (record_from_chroma layout qp cb_offset cr_offset (pair cb.now cr.now) m (pair cb_out.old cr_out.old)) file.old }
    ensures cr_out_after { pair cb_out.new cr_out.new ≡ coded_step_chroma layout qp cb_offset cr_offset (pair cb.now cr.now) m (pair cb_out.old cr_out.old) }
{
    let both = both_quantizers(qp, cb_offset, cr_offset).unwrap();
    let mut cb_prediction = [0u8; 64];
    let mut cr_prediction = [0u8; 64];
    let mode = code::predict_both(
        layout,
        m,
        cb,
        cr,
        cb_out,
        cr_out,
        &mut cb_prediction,
        &mut cr_prediction,
    );
    let mut levels = [0i32; 128];
    code::code_both(
        layout,
        m,
        both,
        cb,
        cr,
        &cb_prediction,
        &cr_prediction,
        &mut levels,
        cb_out,
        cr_out,
    );
    record::inner::write_chroma(m as u16, cb_offset, cr_offset, mode, &levels, file)
}

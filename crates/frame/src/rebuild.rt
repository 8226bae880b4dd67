// The planes of chroma macroblock after macroblock, of a colour file whose tests have passed. Cb's plane and Cr's stay apart, as `rebuild_chroma` takes them
// (`rebuild_chroma_unique`).
ghost use Rattle.std.specs.Prelude.{◌≡◌, true, length};
ghost use Rattle.lists.specs.Chain.{chain, pass};
ghost use Rattle.record.specs.Records.{colour_at, qp_in};
ghost use Rattle.picture.specs.Order.{Among, Sound};
ghost use Rattle.picture.specs.Plane.{plane_length};
ghost use Rattle.macroblock_chroma.specs.Rebuild.{cb_step, cr_step};
ghost use Rattle.plane.specs.Decode.{luma_in, chroma_in, macroblock_tests, records_tests, cleared, decoded};
ghost use Rattle.plane.specs.Walk.{AtMacroblock};
ghost use Rattle.frame.specs.Decode.{cb_from, cr_from};

use picture::Layout;

// Macroblock m of both planes, by its chroma record and the QP of its luma record, which begins at a place.
fn rebuild_at(
    layout: Layout,
    start: usize,
    file: &[u8],
    place: usize,
    m: usize,
    cb: &mut [u8],
    cr: &mut [u8],
)
    requires among { (Among layout m 0) × (AtMacroblock layout start file.now true place m) × (chain (macroblock_tests layout start file.now m) ≡ pass) }
    requires cb_len { (length cb.old ≡ plane_length 8 layout) × (length cr.old ≡ plane_length 8 layout) }
    ensures cb_after { cb.new ≡ cb_step layout m (qp_in (luma_in file.now start m)) (chroma_in file.now start m) cb.old }
    ensures cr_after { cr.new ≡ cr_step layout m (qp_in (luma_in file.now start m)) (chroma_in file.now start m) cr.old }
{
    let behind = plane::inner::behind_luma(layout, start, file, place, m);
    let part = &file[behind.place..behind.end];
    macroblock_chroma::inner::rebuild_chroma(layout, m, behind.qp, part, cb, cr);
}

// All macroblocks of both planes.
fn rebuild_all(layout: Layout, start: usize, file: &[u8], cb: &mut [u8], cr: &mut [u8])
    requires sound { (Sound layout) × (chain (records_tests layout start file.now) ≡ pass) × (colour_at start file.now ≡ true) }
    requires cb_len { (length cb.old ≡ plane_length 8 layout) × (length cr.old ≡ plane_length 8 layout) }
    ensures cb_after { cb.new ≡ cb_from layout (luma_in file.now start) (chroma_in file.now start) cb.old }
    ensures cr_after { cr.new ≡ cr_from layout (luma_in file.now start) (chroma_in file.now start) cr.old }
{
    let count = layout.width * layout.height;
    let mut place = start;
    for m in 0usize..count {
        rebuild_at(layout, start, file, place, m, cb, cr);
        place = plane::inner::next_place(file, true, place);
    }
}

// Both planes of a colour file, whatever stood there.
pub(crate) fn both_planes(layout: Layout, start: usize, file: &[u8], cb: &mut [u8], cr: &mut [u8])
    requires sound { (Sound layout) × (chain (records_tests layout start file.now) ≡ pass) × (colour_at start file.now ≡ true) }
    requires cb_len { (length cb.old ≡ plane_length 8 layout) × (length cr.old ≡ plane_length 8 layout) }
    ensures cb_after { cb.new ≡ cb_from layout (luma_in file.now start) (chroma_in file.now start) (cleared (plane_length 8 layout)) }
    ensures cr_after { cr.new ≡ cr_from layout (luma_in file.now start) (chroma_in file.now start) (cleared (plane_length 8 layout)) }
{
    plane::inner::clear(cb);
    plane::inner::clear(cr);
    rebuild_all(layout, start, file, cb, cr);
}

// The luma plane of a file, whatever stood there.
pub(crate) fn luma_plane(layout: Layout, start: usize, file: &[u8], luma: &mut [u8])
    requires { (Sound layout) × (chain (records_tests layout start file.now) ≡ pass) × (length luma.old ≡ plane_length 16 layout) }
    ensures { luma.new ≡ decoded layout (luma_in file.now start) }
{
    plane::inner::clear(luma);
    plane::inner::rebuild_plane(layout, start, file, luma);
}

// A colour picture into its record file, and from it: a luma plane and two chroma planes (02, Req 05).

#![tactic(auto)]

ghost use Rattle.lists.specs.Chain.{chain};
ghost use Rattle.picture.specs.Order.{Sound};
ghost use Rattle.plane.specs.Decode.{decoded, luma_in};
ghost use Rattle.frame.specs.Code.{CodesPicture};
ghost use Rattle.frame.specs.Decode.{DecodesPicture, LeavesPlanes, picture_tests};

use picture::Layout;
use refusal::Refusal;

mod code;
mod rebuild;
mod tests;

// How far the QPs of Cb and of Cr stand off luma's.
#[derive(Clone, Copy)]
pub(crate) struct Offsets {
    pub(crate) cb: i32,
    pub(crate) cr: i32,
}

// How long three planes are.
#[derive(Clone, Copy)]
pub(crate) struct Lengths {
    pub(crate) luma: usize,
    pub(crate) cb: usize,
    pub(crate) cr: usize,
}

// What a decoded file is: mono or colour.
#[derive(Clone, Copy)]
pub enum Decoded {
    Mono,
    Colour,
}

// The planes of a file whose head tells of this picture and ends at a place: nothing is written before the last test.
fn decode_planes(
    layout: Layout,
    place: usize,
    file: &[u8],
    luma: &mut [u8],
    cb: &mut [u8],
    cr: &mut [u8],
) -> Result<Decoded, Refusal>
    requires { Sound layout }
    ensures { LeavesPlanes (chain (picture_tests layout place file.now luma.old cb.old cr.old)) layout place file.now (decoded layout (luma_in file.now place)) luma.old cb.old cr.old result luma.new cb.new cr.new }
{
    let planes = Lengths {
        luma: luma.len(),
        cb: cb.len(),
        cr: cr.len(),
    };
    tests::picture_tested(layout, place, file, planes)?;
    rebuild::luma_plane(layout, place, file, luma);
    if record::inner::colour_from(file, place) {
        rebuild::both_planes(layout, place, file, cb, cr);
        return Ok(Decoded::Colour);
    }
    Ok(Decoded::Mono)
}

// The planes of a record file: luma, and of a colour file Cb and Cr. `DecodesPicture`, the export for C and the theorems over its reading name these
// parameters.
pub fn decode_picture(
    file: &[u8],
    luma: &mut [u8],
    cb: &mut [u8],
    cr: &mut [u8],
) -> Result<Decoded, Refusal>
    ensures { DecodesPicture file.now luma.old cb.old cr.old result luma.new cb.new cr.new }
{
    let head = head::read_head(file)?;
    let layout = Layout {
        width: head.width,
        height: head.height,
        rows: head.rows,
    };
    decode_planes(layout, head.long, file, luma, cb, cr)
}

// The record file of a picture in slices of so many rows, and the planes that a decoder rebuilds from it; answers how many bytes of the file area
// were used. `CodesPicture`, the export for C and the theorems over its reading name these parameters; below it the offsets and the lengths go on as
// one value each.
pub fn code_picture(
    width: usize,
    height: usize,
    rows: usize,
    qp: u8,
    cb_offset: i32,
    cr_offset: i32,
    luma: &[u8],
    cb: &[u8],
    cr: &[u8],
    file: &mut [u8],
    luma_out: &mut [u8],
    cb_out: &mut [u8],
    cr_out: &mut [u8],
) -> Result<usize, Refusal>
    ensures { CodesPicture width height rows qp cb_offset cr_offset luma.now cb.now cr.now file.old luma_out.old cb_out.old cr_out.old result file.new luma_out.new cb_out.new cr_out.new }
{
    if !head::inner::size_holds(width, height) {
        return Err(Refusal::Size);
    }
    if !head::inner::rows_hold(height, rows) {
        return Err(Refusal::Size);
    }
    let layout = Layout {
        width,
        height,
        rows,
    };
    let offsets = Offsets {
        cb: cb_offset,
        cr: cr_offset,
    };
    let planes = Lengths {
        luma: luma.len(),
        cb: cb.len(),
        cr: cr.len(),
    };
    let rebuilt = Lengths {
        luma: luma_out.len(),
        cb: cb_out.len(),
        cr: cr_out.len(),
    };
    let quantizer = tests::frame_accepted(layout, qp, offsets, planes, file.len(), rebuilt)?;
    plane::inner::clear(luma_out);
    plane::inner::clear(cb_out);
    plane::inner::clear(cr_out);
    Ok(code::code_frame(
        layout, quantizer, offsets, luma, cb, cr, file, luma_out, cb_out, cr_out,
    ))
}

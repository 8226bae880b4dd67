// A luma plane into its record file, and from it (01, "Plane and record file").

#![tactic(auto)]

ghost use Rattle.picture.specs.Order.{Sound};
ghost use Rattle.plane.specs.Code.{CodesPlane};
ghost use Rattle.plane.specs.Decode.{DecodesBody, Decodes};

use picture::Layout;
use quantizer::Quantizer;
use refusal::Refusal;

mod code;
mod content;
pub mod inner;

// What a macroblock of a colour file has behind its luma record: its chroma record begins at a place and ends before another; and luma's QP.
// A place and an end, and no slice: `BehindLuma` counts both in the file, and `test_chroma` wants the place beside the slice.
#[derive(Clone, Copy)]
pub struct Behind {
    pub qp: u8,
    pub place: usize,
    pub end: usize,
}

// The plane of a file whose head tells of this picture and ends at a place: nothing is written before the last test.
fn decode(layout: Layout, place: usize, file: &[u8], plane: &mut [u8]) -> Result<(), Refusal>
    requires { Sound layout }
    ensures { DecodesBody layout place file.now plane.old result plane.new }
{
    let count = layout.width * layout.height;
    if plane.len() != 256 * count {
        return Err(Refusal::Length);
    }
    inner::test_file(layout, place, file)?;
    inner::clear(plane);
    inner::rebuild_plane(layout, place, file, plane);
    Ok(())
}

// The plane of a record file. The layout of a head is written out here, in `frame` and in `inspection`: `Layout` and `Head` are of two crates of which
// neither uses the other, and a `From` in one would be a public function to .ci/stamp, whose clause is these lines again.
pub fn decode_plane(file: &[u8], plane: &mut [u8]) -> Result<(), Refusal>
    ensures { Decodes file.now plane.old result plane.new }
{
    let head = head::read_head(file)?;
    let layout = Layout {
        width: head.width,
        height: head.height,
        rows: head.rows,
    };
    decode(layout, head.long, file, plane)
}

// The record file of a plane in slices of so many rows, and the plane that a decoder rebuilds from it; answers how many bytes of the file area were
// used. `CodesPlane`, the export for C and the theorems over its reading name these parameters.
pub fn code_plane(
    width: usize,
    height: usize,
    rows: usize,
    qp: u8,
    plane: &[u8],
    file: &mut [u8],
    rebuilt: &mut [u8],
) -> Result<usize, Refusal>
    ensures { CodesPlane width height rows qp plane.now file.old rebuilt.old result file.new rebuilt.new }
{
    if !head::inner::size_holds(width, height) {
        return Err(Refusal::Size);
    }
    if !head::inner::rows_hold(height, rows) {
        return Err(Refusal::Size);
    }
    let layout = Layout {
        width,
        height,
        rows,
    };
    let count = width * height;
    if plane.len() != 256 * count {
        return Err(Refusal::Length);
    }
    if file.len() != code::area_length(layout) {
        return Err(Refusal::Length);
    }
    if rebuilt.len() != 256 * count {
        return Err(Refusal::Length);
    }
    let quantizer = Quantizer::new(qp)?;
    inner::clear(rebuilt);
    Ok(code::code_file(layout, quantizer, plane, file, rebuilt))
}

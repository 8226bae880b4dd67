// What is tested before anything is written: lengths, quantizers, and of a file its records.
ghost use Rattle.std.specs.Prelude.{◌≡◌, ◌∷◌, ◌++◌};
ghost use Rattle.lists.specs.Chain.{chain};
ghost use Rattle.refusal.specs.Number.{said};
ghost use Rattle.refusal.specs.Tests.{length_test};
ghost use Rattle.residual.specs.Entry.{Accepts};
ghost use Rattle.picture.specs.Order.{Sound};
ghost use Rattle.plane.specs.Decode.{records_tests};
ghost use Rattle.frame.specs.Code.{frame_area, quantizers_tests, frame_tests};
ghost use Rattle.frame.specs.Decode.{planes_tests};

use crate::{Lengths, Offsets};
use picture::Layout;
use quantizer::Quantizer;
use refusal::Refusal;

// The lengths of three planes.
// Lengths and no slices: planes that are to be written are lent to the caller alone (docs/DECISIONS.md, 95).
pub(crate) fn planes_fit(layout: Layout, planes: Lengths) -> Result<(), Refusal>
    requires { Sound layout }
    ensures { said result ≡ chain (planes_tests layout planes.luma planes.cb planes.cr) }
{
    let count = layout.width * layout.height;
    if planes.luma != 256 * count {
        return Err(Refusal::Length);
    }
    if planes.cb != 64 * count {
        return Err(Refusal::Length);
    }
    if planes.cr != 64 * count {
        return Err(Refusal::Length);
    }
    Ok(())
}

// The lengths of three planes, and then the records of a file from a place on.
pub(crate) fn picture_tested(
    layout: Layout,
    place: usize,
    file: &[u8],
    planes: Lengths,
) -> Result<(), Refusal>
    requires { Sound layout }
    ensures { said result ≡ chain (planes_tests layout planes.luma planes.cb planes.cr ++ records_tests layout place file.now) }
{
    planes_fit(layout, planes)?;
    plane::inner::test_file(layout, place, file)
}

// The lengths of the file area and of the planes that are to be rebuilt.
fn areas_fit(layout: Layout, file: usize, rebuilt: Lengths) -> Result<(), Refusal>
    requires { Sound layout }
    ensures { said result ≡ chain (length_test (frame_area layout) file ∷ planes_tests layout rebuilt.luma rebuilt.cb rebuilt.cr) }
{
    let count = layout.width * layout.height;
    let head = head::inner::length_for(layout.height, layout.rows);
    let each = record::inner::fours_length() + record::inner::chroma_length();
    if file != head + each * count {
        return Err(Refusal::Length);
    }
    planes_fit(layout, rebuilt)
}

// The QP, and then both offsets.
fn quantizers_legal(qp: u8, offsets: Offsets) -> Result<Quantizer, Refusal>
    ensures { Accepts (quantizers_tests qp offsets.cb offsets.cr) qp result }
{
    let quantizer = Quantizer::new(qp)?;
    if !whole::inner::inside(offsets.cb, -12, 12) {
        return Err(Refusal::Quantizer(0));
    }
    if !whole::inner::inside(offsets.cr, -12, 12) {
        return Err(Refusal::Quantizer(0));
    }
    Ok(quantizer)
}

// All that is lent to the coder of a picture, and then the quantizers.
pub(crate) fn frame_accepted(
    layout: Layout,
    qp: u8,
    offsets: Offsets,
    planes: Lengths,
    file: usize,
    rebuilt: Lengths,
) -> Result<Quantizer, Refusal>
    requires { Sound layout }
    ensures { Accepts (frame_tests layout qp offsets.cb offsets.cr planes.luma planes.cb planes.cr file rebuilt.luma rebuilt.cb rebuilt.cr) qp result }
{
    planes_fit(layout, planes)?;
    areas_fit(layout, file, rebuilt)?;
    quantizers_legal(qp, offsets)
}

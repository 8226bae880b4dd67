// What the crate of colour frames calls: the records of a file tested, and its luma plane.
ghost use Rattle.std.specs.Prelude.{◌≡◌, true, ◌<◌, ◌≤◌, length};
ghost use Rattle.lists.specs.Chain.{chain, pass};
ghost use Rattle.refusal.specs.Number.{said};
ghost use Rattle.record.specs.Kinds.{per_macroblock};
ghost use Rattle.picture.specs.Order.{count_of, Sound};
ghost use Rattle.picture.specs.Plane.{plane_length};
ghost use Rattle.plane.specs.Decode.{luma_in, records_tests, rebuilt_from, cleared};
ghost use Rattle.plane.specs.Walk.{AtMacroblock, BehindLuma, next_place};

use crate::{Behind, content};
use picture::Layout;
use refusal::Refusal;

// How many records a macroblock has: luma's, and in a colour file chroma's.
fn per_macroblock(colour: bool) -> usize
    ensures { result ≡ per_macroblock colour }
{
    if colour { 2 } else { 1 }
}

// Where a macroblock's records end that begin at a place. Whether there are two is a `bool`, as `record::inner::colour_from` answers it, and a record is told
// by the file and its place: so the definitions `per_macroblock` and `next_place` take them.
pub fn next_place(file: &[u8], colour: bool, place: usize) -> usize
    requires { next_place file.now colour place ≤ length file.now }
    ensures { result ≡ next_place file.now colour place }
{
    let end = place + record::inner::length_from(file, place);
    if colour {
        end + record::inner::length_from(file, end)
    } else {
        end
    }
}

// What stands behind macroblock m's luma record, which begins at a place, in a colour file. Layout, start and file stay apart here, in
// `content` and in `frame::rebuild`, and from place and m, which are new in each turn: public functions take them so (`behind_luma_unique` and its like name
// them), and a struct would be taken apart again at each call.
pub fn behind_luma(layout: Layout, start: usize, file: &[u8], place: usize, m: usize) -> Behind
    requires { (m < count_of layout) × AtMacroblock layout start file.now true place m }
    ensures { BehindLuma file.now start m result }
{
    let at = place + record::inner::length_from(file, place);
    let end = at + record::inner::length_from(file, at);
    Behind {
        qp: record::inner::qp(&file[place..at]),
        place: at,
        end,
    }
}

// The form of all records of a file from a place on, and then their content.
pub fn test_file(layout: Layout, place: usize, file: &[u8]) -> Result<(), Refusal>
    requires { Sound layout }
    ensures { said result ≡ chain (records_tests layout place file.now) }
{
    let colour = record::inner::colour_from(file, place);
    let records = per_macroblock(colour) * (layout.width * layout.height);
    record::inner::walked(file, place, records, colour)?;
    content::contents(layout, place, file, colour)
}

// Zeros over a plane.
// A name for the library's method, which stays for `clear_unique`.
pub fn clear(plane: &mut [u8])
    ensures { plane.new ≡ cleared (length plane.old) }
{
    plane.fill(0);
}

// All macroblocks' luma, of a file whose records begin at a place and whose tests have passed. This walk from record to record stands here, in
// `content::contents`, `frame::rebuild` and `inspection::compare`, two or three statements a turn: a function that walks for all of them would be public
// over any visit, and its contract, with the invariant that each visit keeps, would be longer than those lines.
pub fn rebuild_plane(layout: Layout, start: usize, file: &[u8], plane: &mut [u8])
    requires { (Sound layout) × (chain (records_tests layout start file.now) ≡ pass) × (length plane.old ≡ plane_length 16 layout) }
    ensures { plane.new ≡ rebuilt_from layout (luma_in file.now start) plane.old }
{
    let colour = record::inner::colour_from(file, start);
    let count = layout.width * layout.height;
    let mut place = start;
    for m in 0usize..count {
        let end = place + record::inner::length_from(file, place);
        macroblock::inner::rebuild_macroblock(layout, m, &file[place..end], plane);
        place = next_place(file, colour, place);
    }
}

// Incoming inspection of a supplier's file beside the luma plane that their coder rebuilt (02, Req 11). Nothing is written.

#![tactic(auto)]

ghost use Rattle.std.specs.Prelude.{◌≡◌, [], ◌∷◌, length};
ghost use Rattle.lists.specs.Chain.{chain, pass};
ghost use Rattle.lists.specs.First.{first, found};
ghost use Rattle.refusal.specs.Number.{said};
ghost use Rattle.record.specs.Kinds.{length_of};
ghost use Rattle.picture.specs.Order.{Among, Sound};
ghost use Rattle.picture.specs.Plane.{plane_length};
ghost use Rattle.picture.specs.Whole.{whole_of};
ghost use Rattle.macroblock.specs.Content.{kind_by, content_tests};
ghost use Rattle.macroblock.specs.Rebuild.{rebuilt_step};
ghost use Rattle.plane.specs.Decode.{luma_in, records_tests, decoded};
ghost use Rattle.inspection.specs.Inspect.{unlike, differs_test, inspect_body_tests, Inspects};

use picture::Layout;
use refusal::Refusal;

// The first of 256 places at which samples differ, if there is one.
fn first_unlike(ours: &[u8], theirs: &[u8]) -> Option<usize>
    requires { (length ours.now ≡ 256) × (length theirs.now ≡ 256) }
    ensures { result ≡ found 256 (first 256 (unlike ours.now theirs.now)) }
{
    ours.iter().zip(theirs).position(|(a, b)| a != b)
}

// The same of macroblock m as its record rebuilds it beside their plane, and as it stands there.
fn first_in_macroblock(layout: Layout, m: usize, part: &[u8], theirs: &[u8]) -> Option<usize>
    requires among { (Among layout m 0) × (length part.now ≡ length_of (kind_by part.now)) × (length theirs.now ≡ plane_length 16 layout) }
    requires part_value { chain (content_tests layout m part.now) ≡ pass }
    ensures { result ≡ found 256 (first 256 (unlike (whole_of 16 layout m (rebuilt_step layout m part.now theirs.now)) (whole_of 16 layout m theirs.now))) }
{
    let mut ours = [0u8; 256];
    macroblock::inner::rebuild_beside(layout, m, part, theirs, &mut ours);
    let mut lent = [0u8; 256];
    picture::inner::read_whole(theirs, layout, 16, m, &mut lent);
    first_unlike(&ours, &lent)
}

// Their plane beside the file's, macroblock after macroblock. As long as nothing has differed their samples are the decoder's, so that they are
// the neighbours of the next macroblock, and no plane is rebuilt. The walk is that of `plane::inner::rebuild_plane`, where it says why each has its own.
fn compare(layout: Layout, start: usize, file: &[u8], theirs: &[u8]) -> Result<(), Refusal>
    requires { (Sound layout) × (chain (records_tests layout start file.now) ≡ pass) × (length theirs.now ≡ plane_length 16 layout) }
    ensures { said result ≡ chain (differs_test layout (decoded layout (luma_in file.now start)) theirs.now ∷ []) }
{
    let colour = record::inner::colour_from(file, start);
    let count = layout.width * layout.height;
    let mut place = start;
    for m in 0usize..count {
        let end = place + record::inner::length_from(file, place);
        if let Some(sample) = first_in_macroblock(layout, m, &file[place..end], theirs) {
            return Err(Refusal::Differs(256 * m + sample));
        }
        place = plane::inner::next_place(file, colour, place);
    }
    Ok(())
}

// What is tested behind a head that tells of this picture and ends at a place: all that the decoder tests, and then their samples. `plane::decode`
// begins with the same length and tests: one function of both would be a public one of `plane`, with a theorem of its own, over these few lines.
fn inspect_body(layout: Layout, place: usize, file: &[u8], theirs: &[u8]) -> Result<(), Refusal>
    requires { Sound layout }
    ensures { said result ≡ chain (inspect_body_tests layout place file.now theirs.now) }
{
    let count = layout.width * layout.height;
    if theirs.len() != 256 * count {
        return Err(Refusal::Length);
    }
    plane::inner::test_file(layout, place, file)?;
    compare(layout, place, file, theirs)
}

// Whether the decoder accepts the file and its luma plane is theirs.
pub fn inspect(file: &[u8], theirs: &[u8]) -> Result<(), Refusal>
    ensures { Inspects file.now theirs.now result }
{
    let head = head::read_head(file)?;
    let layout = Layout {
        width: head.width,
        height: head.height,
        rows: head.rows,
    };
    inspect_body(layout, head.long, file, theirs)
}

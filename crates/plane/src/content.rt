// The content of all records of a file, one behind the other.
ghost use Rattle.std.specs.Prelude.{◌≡◌, true};
ghost use Rattle.lists.specs.Chain.{chain, pass};
ghost use Rattle.refusal.specs.Number.{said};
ghost use Rattle.record.specs.Records.{colour_at};
ghost use Rattle.picture.specs.Order.{Among, Sound};
ghost use Rattle.macroblock.specs.Content.{content_tests};
ghost use Rattle.plane.specs.Decode.{luma_in, forms_tests, macroblock_tests, contents_tests};
ghost use Rattle.plane.specs.Walk.{AtMacroblock};

use crate::inner::{behind_luma, next_place};
use picture::Layout;
use refusal::Refusal;

// The content of macroblock m's chroma record, in a colour file where its luma record begins at a place and has passed.
// `frame::rebuild::rebuild_at` begins so too: what the two share is `behind_luma`.
fn test_chroma_record(
    layout: Layout,
    start: usize,
    file: &[u8],
    place: usize,
    m: usize,
) -> Result<(), Refusal>
    requires among { (Among layout m 0) × AtMacroblock layout start file.now true place m }
    requires m_value { chain (content_tests layout m (luma_in file.now start m)) ≡ pass }
    ensures { said result ≡ chain (macroblock_tests layout start file.now m) }
{
    let behind = behind_luma(layout, start, file, place, m);
    let part = &file[behind.place..behind.end];
    macroblock_chroma::inner::test_chroma(layout, m, behind.qp, behind.place, part)
}

// The content of macroblock m's records, of which the first begins at a place: luma's, and in a colour file then chroma's.
// `colour` as at `inner::next_place`, for which `contents` has it.
fn test_records(
    layout: Layout,
    start: usize,
    file: &[u8],
    colour: bool,
    place: usize,
    m: usize,
) -> Result<(), Refusal>
    requires { (Among layout m 0) × AtMacroblock layout start file.now colour place m }
    ensures { said result ≡ chain (macroblock_tests layout start file.now m) }
{
    let end = place + record::inner::length_from(file, place);
    macroblock::inner::test_macroblock(layout, m, &file[place..end])?;
    if colour {
        return test_chroma_record(layout, start, file, place, m);
    }
    Ok(())
}

// The content of all records from a place on, of a file whose form is fine.
pub(crate) fn contents(
    layout: Layout,
    start: usize,
    file: &[u8],
    colour: bool,
) -> Result<(), Refusal>
    requires { (Sound layout) × (colour ≡ colour_at start file.now) × (chain (forms_tests layout start file.now) ≡ pass) }
    ensures { said result ≡ chain (contents_tests layout start file.now) }
{
    let count = layout.width * layout.height;
    let mut place = start;
    for m in 0usize..count {
        test_records(layout, start, file, colour, place, m)?;
        place = next_place(file, colour, place);
    }
    Ok(())
}

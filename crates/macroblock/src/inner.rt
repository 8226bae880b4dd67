// What a picture asks of one macroblock: whether its record's content is fine, its samples and its step by that record, and its record and step when coded.
ghost use Rattle.std.specs.Prelude.{◌≡◌, ◌<◌, ◌≤◌, length};
ghost use Rattle.lists.specs.Chain.{chain, pass};
ghost use Rattle.lists.specs.Parts.{over};
ghost use Rattle.refusal.specs.Number.{said};
ghost use Rattle.quantizer.specs.Range.{highest};
ghost use Rattle.choice.specs.Choice.{nothing};
ghost use Rattle.choice.specs.Code.{standing};
ghost use Rattle.record.specs.Kinds.{in_fours, length_of};
ghost use Rattle.picture.specs.Order.{Among};
ghost use Rattle.picture.specs.Plane.{plane_length};
ghost use Rattle.picture.specs.Whole.{whole_of};
ghost use Rattle.macroblock16.specs.Code.{Candidate};
ghost use Rattle.macroblock.specs.Code.{record_from, coded_step};
ghost use Rattle.macroblock.specs.Content.{kind_by, content_tests};
ghost use Rattle.macroblock.specs.Rebuild.{rebuilt_step};
ghost use Rattle.macroblock.specs.Winner.{taken, winning};

use choice::inner::Standing;
use picture::Layout;
use quantizer::Quantizer;
use refusal::Refusal;

// The content of macroblock m's record.
// By the record's mark, here and below: the two kinds share no type that a trait could be of.
#[tactic(auto, unfolding(crate::specs::Content::content_tests))]
pub fn test_macroblock(layout: Layout, m: usize, part: &[u8]) -> Result<(), Refusal>
    requires { (Among layout m 0) × (length part.now ≡ length_of (kind_by part.now)) }
    ensures { said result ≡ chain (content_tests layout m part.now) }
{
    if record::inner::is_whole(part) {
        macroblock16::inner::test_macroblock16(layout, m, part)
    } else {
        macroblock4::inner::test_macroblock4(layout, m, part)
    }
}

// The 256 samples of macroblock m by a record whose content is fine, beside a plane that is only read.
#[tactic(auto, unfolding(crate::specs::Content::content_tests, crate::specs::Rebuild::rebuilt_step))]
pub fn rebuild_beside(layout: Layout, m: usize, part: &[u8], plane: &[u8], own: &mut [u8])
    requires among { (Among layout m 0) × (length part.now ≡ length_of (kind_by part.now)) × (length plane.now ≡ plane_length 16 layout) × (length own.old ≡ 256) }
    requires part_value { chain (content_tests layout m part.now) ≡ pass }
    ensures { own.new ≡ whole_of 16 layout m (rebuilt_step layout m part.now plane.now) }
{
    if record::inner::is_whole(part) {
        macroblock16::inner::rebuild_beside16(layout, m, part, plane, own);
    } else {
        macroblock4::inner::rebuild_beside4(layout, m, part, plane, own);
    }
}

// Macroblock m by a record whose content is fine: its samples, and then these in their places.
pub fn rebuild_macroblock(layout: Layout, m: usize, part: &[u8], plane: &mut [u8])
    requires among { (Among layout m 0) × (length part.now ≡ length_of (kind_by part.now)) × (length plane.old ≡ plane_length 16 layout) }
    requires part_value { chain (content_tests layout m part.now) ≡ pass }
    ensures { plane.new ≡ rebuilt_step layout m part.now plane.old }
{
    let mut own = [0u8; 256];
    rebuild_beside(layout, m, part, plane, &mut own);
    picture::inner::store_whole(plane, layout, 16, m, &own);
}

// The part of the winning area, uncopied: that of 16x16 exactly if its SAD is below the sum of the sixteen others.
#[tactic(auto, unfolding(crate::specs::Winner::winning))]
pub(crate) fn winner<'a>(
    four: &'a [i32],
    sixteen: &'a [i32],
    apart: u64,
    together: u64,
) -> &'a [i32]
    requires { (256 ≤ length four.now) × (256 ≤ length sixteen.now) }
    ensures result_value { result.now ≡ winning apart together four.now sixteen.now }
    ensures ref_ptr_value { result.ref_ptr ≡ taken apart together four.entry.ref_ptr sixteen.entry.ref_ptr }
{
    if together < apart {
        &sixteen[..256]
    } else {
        &four[..256]
    }
}

// The candidate of 16x16 for a macroblock whose sixteen others cost so much together. Where they cost nothing it cannot cost less, and its work is
// left out.
// For none a cost above any other and no `Option`: the comparisons of costs then need no second case.
fn code_below(
    layout: Layout,
    m: usize,
    quantizer: Quantizer,
    plane: &[u8],
    rebuilt: &[u8],
    apart: u64,
    levels: &mut [i32],
    prediction: &mut [u8],
) -> Standing
    requires among { (Among layout m 0) × (quantizer.qp ≤ highest) × (length plane.now ≡ plane_length 16 layout) × (length rebuilt.now ≡ plane_length 16 layout) }
    requires levels_len { (length levels.old ≡ 256) × (length prediction.old ≡ 256) }
    ensures candidate { 0 < apart → Candidate layout m quantizer.qp plane.now rebuilt.now result levels.new prediction.new }
    ensures value { apart ≡ 0 → (result ≡ standing nothing) × (levels.new ≡ levels.old) × (prediction.new ≡ prediction.old) }
{
    if apart == 0 {
        return choice::inner::unsettled();
    }
    macroblock16::inner::code_candidate16(layout, m, quantizer, plane, rebuilt, levels, prediction)
}

// Macroblock m into a record at the front of what is lent; answers how many bytes that were. Both candidates are coded into an area of
// levels each: 4x4 first, whose samples stay in the rebuilt plane unless 16x16 wins, and then 16x16, which looks at none of them.
pub fn code_macroblock(
    layout: Layout,
    m: usize,
    quantizer: Quantizer,
    plane: &[u8],
    file: &mut [u8],
    rebuilt: &mut [u8],
) -> usize
    requires among { (Among layout m 0) × (quantizer.qp ≤ highest) × (length plane.now ≡ plane_length 16 layout) }
    requires in_fours_in_bounds { (length_of in_fours ≤ length file.old) × (length rebuilt.old ≡ plane_length 16 layout) }
    ensures value { result ≡ length (record_from layout quantizer.qp plane.now m rebuilt.old) }
    ensures file_after { file.new ≡ over (record_from layout quantizer.qp plane.now m rebuilt.old) file.old }
    ensures rebuilt_after { rebuilt.new ≡ coded_step layout quantizer.qp plane.now m rebuilt.old }
{
    let mut four = [0i32; 256];
    let mut sixteen = [0i32; 256];
    let mut prediction = [0u8; 256];
    let fours = macroblock4::inner::code_candidate4(
        layout, m, quantizer, plane, &mut four, rebuilt,
    );
    let whole = code_below(
        layout,
        m,
        quantizer,
        plane,
        rebuilt,
        fours.sad,
        &mut sixteen,
        &mut prediction,
    );
    let together = u64::from(whole.cost);
    let levels = winner(&four, &sixteen, fours.sad, together);
    let qp = quantizer.number();
    if together < fours.sad {
        macroblock16::inner::store_macroblock16(layout, m, quantizer, &prediction, levels, rebuilt);
        record::inner::write_whole(m as u16, qp, whole.mode, levels, file)
    } else {
        let modes = fours.modes;
        record::inner::write_fours(m as u16, qp, modes, levels, file)
    }
}

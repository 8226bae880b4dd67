// What is asked of a macroblock of sixteen blocks: whether its record's content is fine, its samples by that record, and what it is when coded.
ghost use Rattle.std.specs.Prelude.{◌≡◌, ◌≤◌, length};
ghost use Rattle.lists.specs.Chain.{chain, pass};
ghost use Rattle.refusal.specs.Number.{said};
ghost use Rattle.quantizer.specs.Range.{highest};
ghost use Rattle.record.specs.Kinds.{in_fours, length_of};
ghost use Rattle.picture.specs.Order.{Among};
ghost use Rattle.picture.specs.Plane.{plane_length};
ghost use Rattle.picture.specs.Whole.{whole_of};
ghost use Rattle.macroblock4.specs.Code.{modes_from, sads_from, blocks_from, coded_step4};
ghost use Rattle.macroblock4.specs.Content.{content_tests4};
ghost use Rattle.macroblock4.specs.Rebuild.{rebuilt_step4};

use crate::content::Quantized;
use crate::{code, content, rebuild};
use picture::Layout;
use quantizer::Quantizer;
use refusal::Refusal;

// The content of macroblock m's record: QUANTIZER, all modes, then ranges.
#[tactic(auto, using(lists::proofs::First::found_some))]
pub fn test_macroblock4(layout: Layout, m: usize, part: &[u8]) -> Result<(), Refusal>
    requires { (Among layout m 0) × (length part.now ≡ length_of in_fours) }
    ensures { said result ≡ chain (content_tests4 layout m part.now) }
{
    let qp = record::inner::qp(part);
    let quantizer = Quantizer::new(qp).map_err(|_| Refusal::Quantizer(16 * m))?;
    if let Some(block) = content::first_mode(layout, m, part) {
        return Err(Refusal::Mode(16 * m + block));
    }
    let quantized = Quantized { quantizer, part };
    if let Some(block) = quantized.first_range() {
        return Err(Refusal::Range(16 * m + block));
    }
    Ok(())
}

// The 256 samples of macroblock m, of a record whose content is fine, block after block, beside a plane that is only read.
// The quantizer is never refused here, since the content is fine.
pub fn rebuild_beside4(layout: Layout, m: usize, part: &[u8], plane: &[u8], own: &mut [u8])
    requires among { (Among layout m 0) × (length part.now ≡ length_of in_fours) × (length plane.now ≡ plane_length 16 layout) × (length own.old ≡ 256) }
    requires part_value { chain (content_tests4 layout m part.now) ≡ pass }
    ensures { own.new ≡ whole_of 16 layout m (rebuilt_step4 layout m part.now plane.now) }
{
    let quantizer = Quantizer::new(record::inner::qp(part)).unwrap();
    let quantized = Quantized { quantizer, part };
    for b in 0usize..16 {
        rebuild::rebuild_turn(layout, m, b, quantized, plane, own);
    }
}

// What is coded of sixteen blocks besides their levels and samples: their modes, and the sum of their SADs.
#[derive(Clone, Copy)]
pub struct Fours {
    pub modes: [u8; 16],
    pub sad: u64,
}

// The sixteen blocks of macroblock m: their levels into one area, their rebuilt samples into the plane.
pub fn code_candidate4(
    layout: Layout,
    m: usize,
    quantizer: Quantizer,
    plane: &[u8],
    levels: &mut [i32],
    rebuilt: &mut [u8],
) -> Fours
    requires among { (Among layout m 0) × (quantizer.qp ≤ highest) × (length plane.now ≡ plane_length 16 layout) }
    requires levels_len { (length levels.old ≡ 256) × (length rebuilt.old ≡ plane_length 16 layout) }
    ensures modes_value { result.modes ≡ modes_from layout quantizer.qp plane.now m rebuilt.old }
    ensures sad_value { result.sad ≡ sads_from layout quantizer.qp plane.now m rebuilt.old }
    ensures levels_after { levels.new ≡ blocks_from layout quantizer.qp plane.now m rebuilt.old }
    ensures rebuilt_after { rebuilt.new ≡ coded_step4 layout quantizer.qp plane.now m rebuilt.old }
{
    let mut modes = [0u8; 16];
    let mut sad: u64 = 0;
    // A part by its places: of parts from `chunks_exact_mut` a proof knows no element once they are back.
    for (b, mode) in modes.iter_mut().enumerate() {
        let own = &mut levels[16 * b..16 * b + 16];
        let turn = code::code_turn(layout, m, b, quantizer, plane, own, rebuilt);
        *mode = turn.mode;
        sad += u64::from(turn.cost);
    }
    Fours { modes, sad }
}

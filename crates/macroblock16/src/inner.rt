// What the crates above ask of a macroblock predicted whole.
ghost use Rattle.std.specs.Prelude.{true, ◌≡◌, ◌≤◌, length};
ghost use Rattle.lists.specs.Chain.{chain, pass};
ghost use Rattle.refusal.specs.Number.{said};
ghost use Rattle.whole.specs.Bounds.{Each};
ghost use Rattle.quantizer.specs.Range.{highest};
ghost use Rattle.residual_whole.specs.Rebuilt.{whole_samples, dc_fits, first_ac};
ghost use Rattle.record.specs.Kinds.{in_whole, length_of};
ghost use Rattle.picture.specs.Order.{Among};
ghost use Rattle.picture.specs.Plane.{plane_length};
ghost use Rattle.picture.specs.Whole.{whole_of, with_whole};
ghost use Rattle.macroblock16.specs.Code.{Candidate};
ghost use Rattle.macroblock16.specs.Content.{content_tests16};
ghost use Rattle.macroblock16.specs.Rebuild.{rebuilt_step16};

use choice::inner::Standing;
use picture::Layout;
use quantizer::Quantizer;
use refusal::Refusal;

// The content of macroblock m's record: QUANTIZER, MODE, RANGE of the DC values, then of the AC.
#[tactic(auto, using(lists::proofs::First::found_some))]
pub fn test_macroblock16(layout: Layout, m: usize, part: &[u8]) -> Result<(), Refusal>
    requires { (Among layout m 0) × (length part.now ≡ length_of in_whole) }
    ensures { said result ≡ chain (content_tests16 layout m part.now) }
{
    let qp = record::inner::qp(part);
    let quantizer = Quantizer::new(qp).map_err(|_| Refusal::Quantizer(16 * m))?;
    let flags = picture::inner::flags_round(layout, m);
    if !sides::inner::permitted(flags, record::inner::whole_mode(part)) {
        return Err(Refusal::Mode(16 * m));
    }
    let mut levels = [0i32; 256];
    record::inner::whole_levels(part, &mut levels);
    if !residual_whole::inner::dc_fits(16, quantizer, &levels) {
        return Err(Refusal::Range(16 * m));
    }
    if let Some(block) = residual_whole::inner::first_ac(16, quantizer, &levels) {
        return Err(Refusal::Range(16 * m + block));
    }
    Ok(())
}

// The samples of a prediction and 256 levels in range, stored as those of macroblock m.
// The two calls of chroma's `store_one` (`macroblock_chroma`), which takes 64: one function over the size would be public in `residual_whole`, below
// both crates, with a theorem of its own, for two lines.
pub fn store_macroblock16(
    layout: Layout,
    m: usize,
    quantizer: Quantizer,
    prediction: &[u8],
    levels: &[i32],
    plane: &mut [u8],
)
    requires among { (Among layout m 0) × (quantizer.qp ≤ highest) × (length prediction.now ≡ 256) × (length levels.now ≡ 256) × (length plane.old ≡ plane_length 16 layout) }
    requires each { (Each 32768 levels.now) × (dc_fits 16 quantizer.qp levels.now ≡ true) × (first_ac 16 quantizer.qp levels.now ≡ 16) }
    ensures { plane.new ≡ with_whole 16 layout m (whole_samples 16 quantizer.qp prediction.now levels.now) plane.old }
{
    let mut samples = [0u8; 256];
    residual_whole::inner::rebuilt(16, quantizer, prediction, levels, &mut samples);
    picture::inner::store_whole(plane, layout, 16, m, &samples);
}

// The 256 samples of macroblock m by a record whose content is fine, beside a plane that is only read.
// The quantizer is never refused here, since the content is fine.
pub fn rebuild_beside16(layout: Layout, m: usize, part: &[u8], plane: &[u8], own: &mut [u8])
    requires among { (Among layout m 0) × (length part.now ≡ length_of in_whole) × (length plane.now ≡ plane_length 16 layout) × (length own.old ≡ 256) }
    requires part_value { chain (content_tests16 layout m part.now) ≡ pass }
    ensures { own.new ≡ whole_of 16 layout m (rebuilt_step16 layout m part.now plane.now) }
{
    let quantizer = Quantizer::new(record::inner::qp(part)).unwrap();
    let flags = picture::inner::flags_round(layout, m);
    let mut neighbours = [0u8; 33];
    picture::inner::gather_round(plane, layout, 16, m, &mut neighbours);
    let mode = record::inner::whole_mode(part);
    let mut prediction = [0u8; 256];
    sides::inner::fill(&neighbours, flags, mode, &mut prediction);
    let mut levels = [0i32; 256];
    record::inner::whole_levels(part, &mut levels);
    residual_whole::inner::rebuilt(16, quantizer, &prediction, &levels, own);
}

// The candidate of macroblock m beside what has been rebuilt: its levels and its prediction; answers its mode and its SAD.
pub fn code_candidate16(
    layout: Layout,
    m: usize,
    quantizer: Quantizer,
    plane: &[u8],
    rebuilt: &[u8],
    levels: &mut [i32],
    prediction: &mut [u8],
) -> Standing
    requires among { (Among layout m 0) × (quantizer.qp ≤ highest) × (length plane.now ≡ plane_length 16 layout) × (length rebuilt.now ≡ plane_length 16 layout) }
    requires levels_len { (length levels.old ≡ 256) × (length prediction.old ≡ 256) }
    ensures { Candidate layout m quantizer.qp plane.now rebuilt.now result levels.new prediction.new }
{
    let flags = picture::inner::flags_round(layout, m);
    let mut neighbours = [0u8; 33];
    picture::inner::gather_round(rebuilt, layout, 16, m, &mut neighbours);
    let mut samples = [0u8; 256];
    picture::inner::read_whole(plane, layout, 16, m, &mut samples);
    let best = sides::inner::choose(&neighbours, flags, &samples, prediction);
    residual_whole::inner::levels(16, quantizer, prediction, &samples, levels);
    best
}

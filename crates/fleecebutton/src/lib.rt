// The codec by words: each function calls the entry point of its name (`fb_quality_sheet` the one that lays the sheet in an area) and sends back one word
// (`word`, include/fleecebutton.h). C has these functions by the crate `fleecebutton_c`.

#![tactic(auto)]

ghost use Rattle.fleecebutton.specs.Sends.{
  PredictSends,
  ChooseSends,
  ForwardSends,
  LevelsSends,
  RebuildSends,
  RebuildWithDcSends,
  LumaDcLevelsSends,
  LumaDcValuesSends,
  ChromaDcLevelsSends,
  ChromaDcValuesSends,
  ChromaQuantizerSends,
  CodeBlockSends,
  PromisedDistanceSends,
  CodePlaneSends,
  CodePictureSends,
  ReadHeadSends,
  DecodePlaneSends,
  DecodePictureSends,
  InspectSends,
  QualitySheetSends,
};

use frame::Decoded;

mod word;

// A mode's sixteen samples from the neighbours M, A to H, I to L.
pub fn fb_predict(neighbours: &[u8], flags: u8, mode: u8, out: &mut [u8]) -> u64
    ensures { PredictSends neighbours.now flags mode out.old result out.new }
{
    word::of_answer(intra4::predict(neighbours, flags, mode, out))
}

// The best mode's prediction; its mode + 16 * SAD is the word's value.
pub fn fb_choose(neighbours: &[u8], flags: u8, samples: &[u8], prediction: &mut [u8]) -> u64
    ensures { ChooseSends neighbours.now flags samples.now prediction.old result prediction.new }
{
    word::of_value(intra4::choose(neighbours, flags, samples, prediction).map(word::choice))
}

// The coefficients of sixteen residuals.
pub fn fb_forward(residual: &[i32], coefficients: &mut [i32]) -> u64
    ensures { ForwardSends residual.now coefficients.old result coefficients.new }
{
    word::of_answer(transform::forward(residual, coefficients))
}

// The levels of sixteen residuals, in zigzag order.
pub fn fb_levels(qp: u8, residual: &[i32], levels: &mut [i32]) -> u64
    ensures { LevelsSends qp residual.now levels.old result levels.new }
{
    word::of_answer(residual::levels(qp, residual, levels))
}

// The samples of a prediction and sixteen levels in zigzag order.
pub fn fb_rebuild(qp: u8, prediction: &[u8], levels: &[i32], out: &mut [u8]) -> u64
    ensures { RebuildSends qp prediction.now levels.now out.old result out.new }
{
    word::of_answer(residual::rebuild(qp, prediction, levels, out))
}

// The same where the DC comes rescaled, with fifteen AC levels in zigzag order.
pub fn fb_rebuild_with_dc(qp: u8, prediction: &[u8], dc: i32, ac: &[i32], out: &mut [u8]) -> u64
    ensures { RebuildWithDcSends qp prediction.now dc ac.now out.old result out.new }
{
    word::of_answer(residual::rebuild_with_dc(qp, prediction, dc, ac, out))
}

// The levels, in zigzag order, of a macroblock's sixteen luma DC values.
pub fn fb_luma_dc_levels(qp: u8, dc: &[i32], levels: &mut [i32]) -> u64
    ensures { LumaDcLevelsSends qp dc.now levels.old result levels.new }
{
    word::of_answer(dc::luma_dc_levels(qp, dc, levels))
}

// The sixteen luma DC values, in raster order, of levels in zigzag order.
pub fn fb_luma_dc_values(qp: u8, levels: &[i32], dc: &mut [i32]) -> u64
    ensures { LumaDcValuesSends qp levels.now dc.old result dc.new }
{
    word::of_answer(dc::luma_dc_values(qp, levels, dc))
}

// The levels of four chroma DC values, both in raster order.
pub fn fb_chroma_dc_levels(qp: u8, dc: &[i32], levels: &mut [i32]) -> u64
    ensures { ChromaDcLevelsSends qp dc.now levels.old result levels.new }
{
    word::of_answer(dc::chroma_dc_levels(qp, dc, levels))
}

// The four chroma DC values of four levels, both in raster order.
pub fn fb_chroma_dc_values(qp: u8, levels: &[i32], dc: &mut [i32]) -> u64
    ensures { ChromaDcValuesSends qp levels.now dc.old result dc.new }
{
    word::of_answer(dc::chroma_dc_values(qp, levels, dc))
}

// The chroma quantizer's number is the word's value.
pub fn fb_chroma_quantizer(qp: u8, offset: i32) -> u64
    ensures { ChromaQuantizerSends qp offset result }
{
    let chroma = quantizer::chroma_quantizer(qp, offset);
    word::of_value(chroma.map(|quantizer| u64::from(quantizer.number())))
}

// A block's levels and rebuilt samples; its mode + 16 * SAD is the word's value.
pub fn fb_code_block(
    qp: u8,
    flags: u8,
    neighbours: &[u8],
    samples: &[u8],
    levels: &mut [i32],
    rebuilt: &mut [u8],
) -> u64
    ensures { CodeBlockSends qp flags neighbours.now samples.now levels.old rebuilt.old result levels.new rebuilt.new }
{
    let coded = block::code_block(qp, flags, neighbours, samples, levels, rebuilt);
    word::of_value(coded.map(word::choice))
}

// No rebuilt sample of `fb_code_block` is farther off its original than the word's value.
pub fn fb_promised_distance(qp: u8) -> u64
    ensures { PromisedDistanceSends qp result }
{
    word::of_value(distance::promised_distance(qp).map(u64::from))
}

// The record file of a plane in slices of so many rows, and the plane that a decoder rebuilds from it; the bytes used are the word's value.
pub fn fb_code_plane(
    width: usize,
    height: usize,
    rows: usize,
    qp: u8,
    plane: &[u8],
    file: &mut [u8],
    rebuilt: &mut [u8],
) -> u64
    ensures { CodePlaneSends width height rows qp plane.now file.old rebuilt.old result file.new rebuilt.new }
{
    let coded = plane::code_plane(width, height, rows, qp, plane, file, rebuilt);
    word::of_value(coded.map(|used| used as u64))
}

// The same of a colour picture, whose chroma planes have quantizers of their own by their offsets from the QP.
pub fn fb_code_picture(
    width: usize,
    height: usize,
    rows: usize,
    qp: u8,
    cb_offset: i32,
    cr_offset: i32,
    luma: &[u8],
    cb: &[u8],
    cr: &[u8],
    file: &mut [u8],
    luma_out: &mut [u8],
    cb_out: &mut [u8],
    cr_out: &mut [u8],
) -> u64
    ensures { CodePictureSends width height rows qp cb_offset cr_offset luma.now cb.now cr.now file.old luma_out.old cb_out.old cr_out.old result file.new luma_out.new cb_out.new cr_out.new }
{
    let coded = frame::code_picture(
        width, height, rows, qp, cb_offset, cr_offset, luma, cb, cr, file, luma_out, cb_out, cr_out,
    );
    word::of_value(coded.map(|used| used as u64))
}

// The size of the picture whose file this is and the rows of a slice: width + 256 * height + 65536 * rows is the word's value.
pub fn fb_read_head(file: &[u8]) -> u64
    ensures { ReadHeadSends file.now result }
{
    let head = head::read_head(file);
    word::of_value(head.map(|size| (size.width + 256 * size.height + 65536 * size.rows) as u64))
}

// The luma plane of a record file, mono or colour.
pub fn fb_decode_plane(file: &[u8], plane: &mut [u8]) -> u64
    ensures { DecodePlaneSends file.now plane.old result plane.new }
{
    word::of_answer(plane::decode_plane(file, plane))
}

// The planes of a record file: luma, and of a colour file Cb and Cr, whose planes a mono file leaves as they are. The word's value is 1 for colour,
// 0 for mono.
pub fn fb_decode_picture(file: &[u8], luma: &mut [u8], cb: &mut [u8], cr: &mut [u8]) -> u64
    ensures { DecodePictureSends file.now luma.old cb.old cr.old result luma.new cb.new cr.new }
{
    let decoded = frame::decode_picture(file, luma, cb, cr);
    // A match and no cast: these are the header's numbers, whatever the order of the enum.
    word::of_value(decoded.map(|planes| match planes {
        Decoded::Mono => 0,
        Decoded::Colour => 1,
    }))
}

// Whether the decoder accepts a file and its luma plane is theirs: success exactly then. Nothing is written.
pub fn fb_inspect(file: &[u8], theirs: &[u8]) -> u64
    ensures { InspectSends file.now theirs.now result }
{
    word::of_answer(inspection::inspect(file, theirs))
}

// The sheet of an original plane, a rebuilt plane and a map of macroblocks present: three means, in the area. The word's value is 1 where there
// is a sheet, and 0 where nothing is present.
pub fn fb_quality_sheet(
    width: usize,
    height: usize,
    original: &[u8],
    rebuilt: &[u8],
    map: &[u8],
    out: &mut [f64],
) -> u64
    ensures { QualitySheetSends width height original.now rebuilt.now map.now out.old result out.new }
{
    let sheet = sheet::inner::write_sheet(width, height, original, rebuilt, map, out);
    word::of_value(sheet.map(|given| u64::from(given.is_some())))
}

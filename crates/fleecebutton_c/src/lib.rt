// The codec for C: each function is exported under its name, and is that of `fleecebutton`, with its clause (include/fleecebutton.h). A crate is a library
// or a static library, so the exports stand here, and Rattle's own callers use `fleecebutton`.

#![tactic(auto)]

ghost use Rattle.fleecebutton.specs.Sends.{
  PredictSends,
  ChooseSends,
  ForwardSends,
  LevelsSends,
  RebuildSends,
  RebuildWithDcSends,
  LumaDcLevelsSends,
  LumaDcValuesSends,
  ChromaDcLevelsSends,
  ChromaDcValuesSends,
  ChromaQuantizerSends,
  CodeBlockSends,
  PromisedDistanceSends,
  CodePlaneSends,
  CodePictureSends,
  ReadHeadSends,
  DecodePlaneSends,
  DecodePictureSends,
  InspectSends,
  QualitySheetSends,
};

// A mode's sixteen samples from the neighbours M, A to H, I to L.
#[unsafe(no_mangle)]
pub extern "C" fn fb_predict(neighbours: &[u8], flags: u8, mode: u8, out: &mut [u8]) -> u64
    ensures { PredictSends neighbours.now flags mode out.old result out.new }
{
    fleecebutton::fb_predict(neighbours, flags, mode, out)
}

// The best mode's prediction; its mode + 16 * SAD is the word's value.
#[unsafe(no_mangle)]
pub extern "C" fn fb_choose(
    neighbours: &[u8],
    flags: u8,
    samples: &[u8],
    prediction: &mut [u8],
) -> u64
    ensures { ChooseSends neighbours.now flags samples.now prediction.old result prediction.new }
{
    fleecebutton::fb_choose(neighbours, flags, samples, prediction)
}

// The coefficients of sixteen residuals.
#[unsafe(no_mangle)]
pub extern "C" fn fb_forward(residual: &[i32], coefficients: &mut [i32]) -> u64
    ensures { ForwardSends residual.now coefficients.old result coefficients.new }
{
    fleecebutton::fb_forward(residual, coefficients)
}

// The levels of sixteen residuals, in zigzag order.
#[unsafe(no_mangle)]
pub extern "C" fn fb_levels(qp: u8, residual: &[i32], levels: &mut [i32]) -> u64
    ensures { LevelsSends qp residual.now levels.old result levels.new }
{
    fleecebutton::fb_levels(qp, residual, levels)
}

// The samples of a prediction and sixteen levels in zigzag order.
#[unsafe(no_mangle)]
pub extern "C" fn fb_rebuild(qp: u8, prediction: &[u8], levels: &[i32], out: &mut [u8]) -> u64
    ensures { RebuildSends qp prediction.now levels.now out.old result out.new }
{
    fleecebutton::fb_rebuild(qp, prediction, levels, out)
}

// The same where the DC comes rescaled, with fifteen AC levels in zigzag order.
#[unsafe(no_mangle)]
pub extern "C" fn fb_rebuild_with_dc(
    qp: u8,
    prediction: &[u8],
    dc: i32,
    ac: &[i32],
    out: &mut [u8],
) -> u64
    ensures { RebuildWithDcSends qp prediction.now dc ac.now out.old result out.new }
{
    fleecebutton::fb_rebuild_with_dc(qp, prediction, dc, ac, out)
}

// The levels, in zigzag order, of a macroblock's sixteen luma DC values.
#[unsafe(no_mangle)]
pub extern "C" fn fb_luma_dc_levels(qp: u8, dc: &[i32], levels: &mut [i32]) -> u64
    ensures { LumaDcLevelsSends qp dc.now levels.old result levels.new }
{
    fleecebutton::fb_luma_dc_levels(qp, dc, levels)
}

// The sixteen luma DC values, in raster order, of levels in zigzag order.
#[unsafe(no_mangle)]
pub extern "C" fn fb_luma_dc_values(qp: u8, levels: &[i32], dc: &mut [i32]) -> u64
    ensures { LumaDcValuesSends qp levels.now dc.old result dc.new }
{
    fleecebutton::fb_luma_dc_values(qp, levels, dc)
}

// The levels of four chroma DC values, both in raster order.
#[unsafe(no_mangle)]
pub extern "C" fn fb_chroma_dc_levels(qp: u8, dc: &[i32], levels: &mut [i32]) -> u64
    ensures { ChromaDcLevelsSends qp dc.now levels.old result levels.new }
{
    fleecebutton::fb_chroma_dc_levels(qp, dc, levels)
}

// The four chroma DC values of four levels, both in raster order.
#[unsafe(no_mangle)]
pub extern "C" fn fb_chroma_dc_values(qp: u8, levels: &[i32], dc: &mut [i32]) -> u64
    ensures { ChromaDcValuesSends qp levels.now dc.old result dc.new }
{
    fleecebutton::fb_chroma_dc_values(qp, levels, dc)
}

// The chroma quantizer's number is the word's value.
#[unsafe(no_mangle)]
pub extern "C" fn fb_chroma_quantizer(qp: u8, offset: i32) -> u64
    ensures { ChromaQuantizerSends qp offset result }
{
    fleecebutton::fb_chroma_quantizer(qp, offset)
}

// A block's levels and rebuilt samples; its mode + 16 * SAD is the word's value.
#[unsafe(no_mangle)]
pub extern "C" fn fb_code_block(
    qp: u8,
    flags: u8,
    neighbours: &[u8],
    samples: &[u8],
    levels: &mut [i32],
    rebuilt: &mut [u8],
) -> u64
    ensures { CodeBlockSends qp flags neighbours.now samples.now levels.old rebuilt.old result levels.new rebuilt.new }
{
    fleecebutton::fb_code_block(qp, flags, neighbours, samples, levels, rebuilt)
}

// No rebuilt sample of `fb_code_block` is farther off its original than the word's value.
#[unsafe(no_mangle)]
pub extern "C" fn fb_promised_distance(qp: u8) -> u64
    ensures { PromisedDistanceSends qp result }
{
    fleecebutton::fb_promised_distance(qp)
}

// The record file of a plane in slices of so many rows, and the plane that a decoder rebuilds from it; the bytes used are the word's value.
#[unsafe(no_mangle)]
pub extern "C" fn fb_code_plane(
    width: usize,
    height: usize,
    rows: usize,
    qp: u8,
    plane: &[u8],
    file: &mut [u8],
    rebuilt: &mut [u8],
) -> u64
    ensures { CodePlaneSends width height rows qp plane.now file.old rebuilt.old result file.new rebuilt.new }
{
    fleecebutton::fb_code_plane(width, height, rows, qp, plane, file, rebuilt)
}

// The same of a colour picture, whose chroma planes have quantizers of their own by their offsets from the QP.
#[unsafe(no_mangle)]
pub extern "C" fn fb_code_picture(
    width: usize,
    height: usize,
    rows: usize,
    qp: u8,
    cb_offset: i32,
    cr_offset: i32,
    luma: &[u8],
    cb: &[u8],
    cr: &[u8],
    file: &mut [u8],
    luma_out: &mut [u8],
    cb_out: &mut [u8],
    cr_out: &mut [u8],
) -> u64
    ensures { CodePictureSends width height rows qp cb_offset cr_offset luma.now cb.now cr.now file.old luma_out.old cb_out.old cr_out.old result file.new luma_out.new cb_out.new cr_out.new }
{
    fleecebutton::fb_code_picture(
        width, height, rows, qp, cb_offset, cr_offset, luma, cb, cr, file, luma_out, cb_out, cr_out,
    )
}

// The size of the picture whose file this is and the rows of a slice: width + 256 * height + 65536 * rows is the word's value.
#[unsafe(no_mangle)]
pub extern "C" fn fb_read_head(file: &[u8]) -> u64
    ensures { ReadHeadSends file.now result }
{
    fleecebutton::fb_read_head(file)
}

// The luma plane of a record file, mono or colour.
#[unsafe(no_mangle)]
pub extern "C" fn fb_decode_plane(file: &[u8], plane: &mut [u8]) -> u64
    ensures { DecodePlaneSends file.now plane.old result plane.new }
{
    fleecebutton::fb_decode_plane(file, plane)
}

// The planes of a record file: luma, and of a colour file Cb and Cr, whose planes a mono file leaves as they are. The word's value is 1 for colour,
// 0 for mono.
#[unsafe(no_mangle)]
pub extern "C" fn fb_decode_picture(
    file: &[u8],
    luma: &mut [u8],
    cb: &mut [u8],
    cr: &mut [u8],
) -> u64
    ensures { DecodePictureSends file.now luma.old cb.old cr.old result luma.new cb.new cr.new }
{
    fleecebutton::fb_decode_picture(file, luma, cb, cr)
}

// Whether the decoder accepts a file and its luma plane is theirs: success exactly then. Nothing is written.
#[unsafe(no_mangle)]
pub extern "C" fn fb_inspect(file: &[u8], theirs: &[u8]) -> u64
    ensures { InspectSends file.now theirs.now result }
{
    fleecebutton::fb_inspect(file, theirs)
}

// The sheet of an original plane, a rebuilt plane and a map of macroblocks present: three means, in the area. The word's value is 1 where there
// is a sheet, and 0 where nothing is present.
#[unsafe(no_mangle)]
pub extern "C" fn fb_quality_sheet(
    width: usize,
    height: usize,
    original: &[u8],
    rebuilt: &[u8],
    map: &[u8],
    out: &mut [f64],
) -> u64
    ensures { QualitySheetSends width height original.now rebuilt.now map.now out.old result out.new }
{
    fleecebutton::fb_quality_sheet(width, height, original, rebuilt, map, out)
}

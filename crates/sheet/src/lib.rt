// The quality sheet of a rebuilt plane (02, Req 09).

#![tactic(auto)]

ghost use Rattle.sheet.specs.Entry.{Sheets};

use refusal::Refusal;

pub mod inner;
mod map;
mod means;
mod sums;

// Three means over the samples of the macroblocks that are present.
#[derive(Clone, Copy)]
pub struct Sheet {
    pub absolute: f64,
    pub squared: f64,
    pub signed: f64,
}

// The sheet of an original plane, a rebuilt plane and a map of macroblocks present; with nothing present there is none.
pub fn quality_sheet(
    width: usize,
    height: usize,
    original: &[u8],
    rebuilt: &[u8],
    map: &[u8],
) -> Result<Option<Sheet>, Refusal>
    ensures { Sheets width height original.now rebuilt.now map.now result }
{
    if !head::inner::size_holds(width, height) {
        return Err(Refusal::Size);
    }
    let count = width * height;
    if original.len() != 256 * count {
        return Err(Refusal::Length);
    }
    if rebuilt.len() != 256 * count {
        return Err(Refusal::Length);
    }
    if map.len() != count {
        return Err(Refusal::Length);
    }
    if let Some(flag) = map::first_flag(map) {
        return Err(Refusal::Flags(flag));
    }
    let layout = picture::inner::one_slice(width, height);
    Ok(means::divided(
        map::present(map),
        sums::over_picture(layout, original, rebuilt, map),
    ))
}

// The sheet in an area that the caller lends, for those who hand it on.
ghost use Rattle.std.specs.Prelude.{◌≡◌, length};
ghost use Rattle.sheet.specs.Entry.{given_in, Writes};
ghost use Rattle.sheet.specs.Means.{means_of, area_of};

use crate::{Sheet, quality_sheet};
use refusal::Refusal;

// Three means over the numbers of an area.
fn put_means(sheet: Sheet, out: &mut [f64])
    requires { length out.old ≡ 3 }
    ensures { out.new ≡ means_of sheet }
{
    out.copy_from_slice(&[sheet.absolute, sheet.squared, sheet.signed]);
}

// The three means of a sheet; without one the area keeps its numbers.
fn put(given: Option<Sheet>, out: &mut [f64])
    requires { length out.old ≡ 3 }
    ensures { out.new ≡ area_of given out.old }
{
    if let Some(sheet) = given {
        put_means(sheet, out);
    }
}

// `quality_sheet`, with the three means in the area too. Its length is tested among the other lengths, behind SIZE.
pub fn write_sheet(
    width: usize,
    height: usize,
    original: &[u8],
    rebuilt: &[u8],
    map: &[u8],
    out: &mut [f64],
) -> Result<Option<Sheet>, Refusal>
    ensures { Writes width height original.now rebuilt.now map.now out.old result out.new }
{
    if !head::inner::size_holds(width, height) {
        return Err(Refusal::Size);
    }
    if out.len() != 3 {
        return Err(Refusal::Length);
    }
    let given = quality_sheet(width, height, original, rebuilt, map)?;
    put(given, out);
    Ok(given)
}

// The rows that the rules read.
ghost use Rattle.std.specs.Prelude.{◌≡◌, length};
ghost use Rattle.intra4.specs.Code.{top_row, left_row};

use crate::inner::flag;

// The corner and what stands above; the corner and what stands at the left; and what of it is present.
#[derive(Clone, Copy)]
pub(crate) struct Rows {
    pub(crate) top: [u8; 9],
    pub(crate) left: [u8; 5],
    pub(crate) flags: u8,
}

// The rows as lent, D in place of E to H where these are missing. A missing side is in its row all the same, and no permitted mode reads it.
// The rows are written out: with nine by `<[u8; 9]>::try_from(&n[..9]).unwrap()`, or by `array::from_fn`, which both proved, a choice has 3 to 9 instructions
// more, 2 to 3 in a hundred; the five stand in no one part.
pub(crate) fn resolve(n: &[u8], flags: u8) -> Rows
    requires { length n.now ≡ 13 }
    ensures { (result.top ≡ top_row n.now flags) × (result.left ≡ left_row n.now) × (result.flags ≡ flags) }
{
    let left = [n[0], n[9], n[10], n[11], n[12]];
    if flag(flags, 3) {
        let top = [n[0], n[1], n[2], n[3], n[4], n[5], n[6], n[7], n[8]];
        Rows { top, left, flags }
    } else {
        let d = n[4];
        let top = [n[0], n[1], n[2], n[3], d, d, d, d, d];
        Rows { top, left, flags }
    }
}

// What the crates above call, without tests. Modes and flags are numbers, as the call from C, the record and the paper have them: `permitted` is
// public and answers for every number, `fill` for each that is permitted.
ghost use Rattle.std.specs.Prelude.{◌≡◌, true, cond, [], ◌∷◌, ◌*◌, ◌<◌, ◌≤◌, length};
ghost use Rattle.lists.specs.Tab.{grid};
ghost use Rattle.intra4.specs.Samples.{side_if};
ghost use Rattle.intra4.specs.Rules as paper;
ghost use Rattle.intra4.specs.Rules.{samples_of};
ghost use Rattle.sides.specs.Samples.{mask};
ghost use Rattle.sides.specs.Plane as slope;
ghost use Rattle.sides.specs.Rules as standard;
ghost use Rattle.sides.specs.Choice.{Picks};

use crate::{fills, rules, search};
use choice::inner::Standing;
use intra4::inner::{all, flag};

// ---- over n: 16 for Intra 16x16, 8 for chroma

// Vertical prediction from what is above (`above` true), or horizontal from what is at the left, of n by n samples. The loop over rows and columns
// stands here, in `put_slanted`, in `chroma::quarters` and in `intra4::fills`: one that these crates share would be a public function over any rule,
// and .ci/stamp wants of each public function a uniqueness theorem, which such a one has not.
// n stands beside the sides of that length, as the theorems of `put_side`, `put_plane` and `mean` have it, and `above` as that of `put_side` has it.
pub fn put_side(n: usize, side: &[u8], above: bool, out: &mut [u8])
    requires { (n ≤ 16) × (length side.now ≡ n) × (length out.old ≡ n * n) }
    ensures { out.new ≡ grid n (cond above paper.vertical paper.horizontal (paper.row_of [] side.now)) }
{
    let own = fills::row_of(side);
    for y in 0..n {
        for x in 0..n {
            out[n * y + x] = own[if above { x } else { y }];
        }
    }
}

// Plane prediction of n by n samples.
pub fn put_plane(n: usize, above: &[u8], left: &[u8], corner: u8, out: &mut [u8])
    requires { (2 ≤ n) × (n ≤ 16) × (length above.now ≡ n) × (length left.now ≡ n) × (length out.old ≡ n * n) }
    ensures { out.new ≡ grid n (slope.plane n (paper.row_of (corner ∷ []) above.now) (paper.row_of (corner ∷ []) left.now)) }
{
    let b = rules::tilt(n, corner, above);
    let c = rules::tilt(n, corner, left);
    let a = rules::start(above[n - 1], left[n - 1]);
    fills::put_slanted(n, a, b, c, out);
}

// The mean of the sides that are there: the first if `first` says so, the second if `second` does. Flags and no `Option`s, since the function is public
// and its clause takes a missing side's bytes too.
pub fn mean(n: u16, above: &[u8], left: &[u8], first: bool, second: bool) -> u8
    requires { (0 < n) × (n ≤ 16) × (length above.now ≡ n) × (length left.now ≡ n) }
    ensures { result ≡ paper.mean n (side_if first above.now) (side_if second left.now) }
{
    match (first, second) {
        (true, true) => ((rules::sum_of(above) + rules::sum_of(left) + n) / (2 * n)) as u8,
        (true, false) => ((rules::sum_of(above) + n / 2) / n) as u8,
        (false, true) => ((rules::sum_of(left) + n / 2) / n) as u8,
        (false, false) => 128,
    }
}

// ---- Intra 16x16: lent are the corner, the sixteen samples above, the sixteen at the left

// What the mode needs is present. A number above 3 is no mode. Chroma has `permitted` and `fill` of its own: a `match` each over another table of the
// standard, which has the numbers of DC and of vertical the other way round.
#[tactic(auto, unfolding(crate::specs::Rules::permitted))]
pub fn permitted(flags: u8, mode: u8) -> bool
    ensures { result ≡ standard.permitted flags mode }
{
    match mode {
        0 => flag(flags, 0),
        1 => flag(flags, 1),
        2 => true,
        3 => all(flags),
        _ => false,
    }
}

// The 256 samples of a permitted mode. A plane's size is no literal: of a literal the compiler unrolls a row, and then takes several rows at once
// and not several samples of a row, which costs twice the time.
pub fn fill(neighbours: &[u8], flags: u8, mode: u8, out: &mut [u8])
    requires { (length neighbours.now ≡ 33) × (standard.permitted flags mode ≡ true) × (length out.old ≡ 256) }
    ensures { out.new ≡ samples_of (standard.predicted (mask 16 neighbours.now flags) mode) }
{
    let above = &neighbours[1..17];
    let left = &neighbours[17..33];
    match mode {
        0 => put_side(16, above, true, out),
        1 => put_side(16, left, false, out),
        2 => out.fill(mean(16, above, left, flag(flags, 0), flag(flags, 1))),
        _ => put_plane(neighbours.len() / 2, above, left, neighbours[0], out),
    }
}

// The permitted mode with the least SAD, the lower number on a tie; its samples are written. Modes are tried where they are written, so the
// chosen one is filled once more.
pub fn choose(neighbours: &[u8], flags: u8, samples: &[u8], prediction: &mut [u8]) -> Standing
    requires { (length neighbours.now ≡ 33) × (length samples.now ≡ 256) × (length prediction.old ≡ 256) }
    ensures { Picks (mask 16 neighbours.now flags) samples.now result prediction.new }
{
    let best = search::best(neighbours, flags, samples, prediction);
    let mode = best.mode;
    fill(neighbours, flags, mode, prediction);
    best
}

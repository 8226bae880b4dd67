// What the crates above call, without tests. Lent are the corner, the eight samples above, the eight at the left. Modes and flags
// are numbers, as in `intra4`.
ghost use Rattle.std.specs.Prelude.{◌≡◌, true, length};
ghost use Rattle.intra4.specs.Rules.{samples_of};
ghost use Rattle.sides.specs.Samples.{mask};
ghost use Rattle.chroma.specs.Rules as standard;
ghost use Rattle.chroma.specs.Choice.{PicksForBoth};

use crate::{quarters, search};
use choice::inner::Standing;
use intra4::inner::{all, flag};
use sides::inner::{put_plane, put_side};

// What the mode needs is present. A number above 3 is no mode. This and `fill` are not those of `sides`: a `match` each over another table of the
// standard, which has the numbers of DC and of vertical the other way round.
#[tactic(auto, unfolding(crate::specs::Rules::permitted))]
pub fn permitted(flags: u8, mode: u8) -> bool
    ensures { result ≡ standard.permitted flags mode }
{
    match mode {
        0 => true,
        1 => flag(flags, 1),
        2 => flag(flags, 0),
        3 => all(flags),
        _ => false,
    }
}

// The 64 samples of a permitted mode. A plane's size is no literal, as in `sides`.
pub fn fill(neighbours: &[u8], flags: u8, mode: u8, out: &mut [u8])
    requires { (length neighbours.now ≡ 17) × (standard.permitted flags mode ≡ true) × (length out.old ≡ 64) }
    ensures { out.new ≡ samples_of (standard.predicted (mask 8 neighbours.now flags) mode) }
{
    let above = &neighbours[1..9];
    let left = &neighbours[9..17];
    match mode {
        0 => quarters::put_quarters(
            quarters::means(above, left, flag(flags, 0), flag(flags, 1)),
            out,
        ),
        1 => put_side(8, left, false, out),
        2 => put_side(8, above, true, out),
        _ => put_plane(neighbours.len() / 2, above, left, neighbours[0], out),
    }
}

// One mode for Cb and Cr: the permitted one with the least sum of both SADs, the lower number on a tie; both planes' samples are written. Modes are
// tried where they are written, so the chosen one is filled once more.
pub fn choose_for_both(
    flags: u8,
    cb_neighbours: &[u8],
    cr_neighbours: &[u8],
    cb_samples: &[u8],
    cr_samples: &[u8],
    cb_prediction: &mut [u8],
    cr_prediction: &mut [u8],
) -> Standing
    requires { (length cb_neighbours.now ≡ 17) × (length cr_neighbours.now ≡ 17) × (length cb_samples.now ≡ 64) × (length cr_samples.now ≡ 64) × (length cb_prediction.old ≡ 64) × (length cr_prediction.old ≡ 64) }
    ensures { PicksForBoth (mask 8 cb_neighbours.now flags) (mask 8 cr_neighbours.now flags) cb_samples.now cr_samples.now result cb_prediction.new cr_prediction.new }
{
    let best = search::best(
        flags,
        cb_neighbours,
        cr_neighbours,
        cb_samples,
        cr_samples,
        cb_prediction,
        cr_prediction,
    );
    let mode = best.mode;
    fill(cb_neighbours, flags, mode, cb_prediction);
    fill(cr_neighbours, flags, mode, cr_prediction);
    best
}

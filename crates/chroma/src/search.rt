// The search for the least sum of both planes' SADs over the four modes. What is lent of a plane stands slice by slice: with a struct for each plane, by
// value or lent, the compiler makes `sides::inner::put_plane` otherwise, and a choice takes 18 to 20 per cent more.
ghost use Rattle.std.specs.Prelude.{◌≡◌, true, ◌≤◌, length};
ghost use Rattle.choice.specs.Choice.{is};
ghost use Rattle.choice.specs.Code.{standing, looked, Small};
ghost use Rattle.intra4.specs.Choice.{cost_of};
ghost use Rattle.sides.specs.Samples.{mask};
ghost use Rattle.chroma.specs.Rules as standard;
ghost use Rattle.chroma.specs.Choice.{both_costs, chosen_for_both};

use crate::inner::{fill, permitted};
use choice::inner::Standing;

// A permitted mode's samples in `trial`, and their SAD.
fn tried(neighbours: &[u8], flags: u8, mode: u8, samples: &[u8], trial: &mut [u8]) -> u32
    requires { (length neighbours.now ≡ 17) × (standard.permitted flags mode ≡ true) × (length samples.now ≡ 64) × (length trial.old ≡ 64) }
    ensures { (is result ≡ cost_of 8 samples.now (standard.predicted (mask 8 neighbours.now flags) mode)) × (result ≤ 16320) }
{
    fill(neighbours, flags, mode, trial);
    u32::from(choice::inner::sad(trial, samples))
}

// One more mode is looked at, if it is permitted; its samples are tried in `cb` and `cr`.
fn consider(
    flags: u8,
    cb_neighbours: &[u8],
    cr_neighbours: &[u8],
    cb_samples: &[u8],
    cr_samples: &[u8],
    mode: u8,
    best: Standing,
    cb: &mut [u8],
    cr: &mut [u8],
) -> Standing
    requires { (length cb_neighbours.now ≡ 17) × (length cr_neighbours.now ≡ 17) × (length cb_samples.now ≡ 64) × (length cr_samples.now ≡ 64) × (length cb.old ≡ 64) × (length cr.old ≡ 64) }
    ensures { (result ≡ looked mode (both_costs (mask 8 cb_neighbours.now flags) (mask 8 cr_neighbours.now flags) cb_samples.now cr_samples.now mode) best) × Small (both_costs (mask 8 cb_neighbours.now flags) (mask 8 cr_neighbours.now flags) cb_samples.now cr_samples.now mode) }
{
    if permitted(flags, mode) {
        let cost = tried(cb_neighbours, flags, mode, cb_samples, cb)
            + tried(cr_neighbours, flags, mode, cr_samples, cr);
        choice::inner::look(mode, cost, best)
    } else {
        best
    }
}

// The best of the four modes. A loop, and not a fold as in `intra4::search`: a fold of `consider` was proved, and a choice
// took 20 per cent more (214 ns, not 178).
pub(crate) fn best(
    flags: u8,
    cb_neighbours: &[u8],
    cr_neighbours: &[u8],
    cb_samples: &[u8],
    cr_samples: &[u8],
    cb: &mut [u8],
    cr: &mut [u8],
) -> Standing
    requires { (length cb_neighbours.now ≡ 17) × (length cr_neighbours.now ≡ 17) × (length cb_samples.now ≡ 64) × (length cr_samples.now ≡ 64) × (length cb.old ≡ 64) × (length cr.old ≡ 64) }
    ensures { result ≡ standing (chosen_for_both (mask 8 cb_neighbours.now flags) (mask 8 cr_neighbours.now flags) cb_samples.now cr_samples.now) }
{
    let mut best = choice::inner::unsettled();
    for mode in 0..4 {
        best = consider(
            flags,
            cb_neighbours,
            cr_neighbours,
            cb_samples,
            cr_samples,
            mode,
            best,
            cb,
            cr,
        );
    }
    best
}

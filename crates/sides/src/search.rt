// The search for the least SAD over the four modes.
ghost use Rattle.std.specs.Prelude.{◌≡◌, length};
ghost use Rattle.choice.specs.Code.{standing, looked, Small};
ghost use Rattle.sides.specs.Samples.{mask};
ghost use Rattle.sides.specs.Choice.{costs_of, chosen};

use crate::inner::{fill, permitted};
use choice::inner::Standing;

// One more mode is looked at, if it is permitted; its samples are tried in `trial`.
fn consider(
    neighbours: &[u8],
    flags: u8,
    samples: &[u8],
    mode: u8,
    best: Standing,
    trial: &mut [u8],
) -> Standing
    requires { (length neighbours.now ≡ 33) × (length samples.now ≡ 256) × (length trial.old ≡ 256) }
    ensures { (result ≡ looked mode (costs_of (mask 16 neighbours.now flags) samples.now mode) best) × Small (costs_of (mask 16 neighbours.now flags) samples.now mode) }
{
    if permitted(flags, mode) {
        fill(neighbours, flags, mode, trial);
        choice::inner::look(mode, u32::from(choice::inner::sad(trial, samples)), best)
    } else {
        best
    }
}

// The best of the four modes. A loop, and not a fold as in `intra4::search`: a fold of `consider` was proved, and a choice
// took 18 per cent more (238 ns, not 201).
pub(crate) fn best(neighbours: &[u8], flags: u8, samples: &[u8], trial: &mut [u8]) -> Standing
    requires { (length neighbours.now ≡ 33) × (length samples.now ≡ 256) × (length trial.old ≡ 256) }
    ensures { result ≡ standing (chosen (mask 16 neighbours.now flags) samples.now) }
{
    let mut best = choice::inner::unsettled();
    for mode in 0..4 {
        best = consider(neighbours, flags, samples, mode, best, trial);
    }
    best
}

// What the crates above call, without tests. Modes and flags are numbers, as the call from C, the record and the paper have them: `permitted` is
// public and answers for every number, `fill` for each that is permitted.
ghost use Rattle.std.specs.Prelude.{◌≡◌, true, ◌<◌, length};
ghost use Rattle.intra4.specs.Samples.{bit_of, mask, all_present};
ghost use Rattle.intra4.specs.Rules as paper;
ghost use Rattle.intra4.specs.Entry.{Picks};
ghost use Rattle.intra4.specs.Code.{with_samples};

use crate::samples::Rows;
use crate::{Chosen, fills, rules, samples, search};
use choice::inner::Standing;

// The chosen mode, its SAD and its sixteen samples.
#[derive(Clone, Copy)]
pub struct Choice {
    pub mode: u8,
    pub sad: u32,
    pub prediction: [u8; 16],
}

// Bit k of the flags.
pub fn flag(flags: u8, k: u8) -> bool
    requires { k < 8 }
    ensures { result ≡ bit_of flags k }
{
    (flags >> k) & 1 == 1
}

// A-D, I-L and M are present.
pub fn all(flags: u8) -> bool
    ensures { result ≡ all_present flags }
{
    flag(flags, 0) && flag(flags, 1) && flag(flags, 2)
}

// What the mode needs is present. A number above 8 is no mode. Each mode has its own key, as in the paper's table: of `0 | 3 | 7` and its like the
// compiler makes tests of bits, and a prediction takes 3 to 19 per cent more.
#[tactic(auto, unfolding(crate::specs::Rules::permitted))]
pub fn permitted(flags: u8, mode: u8) -> bool
    ensures { result ≡ paper.permitted flags mode }
{
    match mode {
        0 => flag(flags, 0),
        1 => flag(flags, 1),
        2 => true,
        3 => flag(flags, 0),
        4 => all(flags),
        5 => all(flags),
        6 => all(flags),
        7 => flag(flags, 0),
        8 => flag(flags, 1),
        _ => false,
    }
}

// The sixteen samples of a permitted mode.
pub fn fill(neighbours: &[u8], flags: u8, mode: u8, out: &mut [u8])
    requires { (length neighbours.now ≡ 13) × (paper.permitted flags mode ≡ true) × (length out.old ≡ 16) }
    ensures { out.new ≡ paper.samples_of (paper.predicted (mask neighbours.now flags) mode) }
{
    fills::put(samples::resolve(neighbours, flags), mode, out);
}

// The same, found at once where vertical prediction fits exactly, or else horizontal does: no higher number can cost less than nothing.
pub(crate) fn pick(neighbours: &[u8], flags: u8, samples: &[u8], prediction: &mut [u8]) -> Chosen
    requires { (length neighbours.now ≡ 13) × (length samples.now ≡ 16) × (length prediction.old ≡ 16) }
    ensures { Picks (mask neighbours.now flags) samples.now (with_samples result prediction.new) }
{
    let rows = samples::resolve(neighbours, flags);
    let Rows { top, left, .. } = rows;
    if flag(flags, 0) && search::fits(move |x, y| rules::vertical(&top, x, y), samples) {
        prediction.copy_from_slice(samples);
        return Chosen { mode: 0, sad: 0 };
    }
    if flag(flags, 1) && search::fits(move |x, y| rules::horizontal(&left, x, y), samples) {
        prediction.copy_from_slice(samples);
        return Chosen { mode: 1, sad: 0 };
    }
    let mut area = [[0u8; 16]; 9];
    fills::put_all(rows, &mut area);
    // by hand, here alone: a `From` for one place would be longer, and public, so that docs/STAMP.md would want a theorem of it
    let Standing { mode, cost } = search::best(&area, flags, samples);
    prediction.copy_from_slice(&area[usize::from(mode)]);
    Chosen { mode, sad: cost }
}

// The same by value.
pub fn chosen(neighbours: &[u8], flags: u8, samples: &[u8]) -> Choice
    requires { (length neighbours.now ≡ 13) × (length samples.now ≡ 16) }
    ensures { Picks (mask neighbours.now flags) samples.now result }
{
    let mut prediction = [0u8; 16];
    let Chosen { mode, sad } = pick(neighbours, flags, samples, &mut prediction);
    Choice {
        mode,
        sad,
        prediction,
    }
}

// The search for the least SAD over the area of all nine predictions.
ghost use Rattle.std.specs.Prelude.{◌≡◌, true, ◌↔◌, ℕ, ◌<◌, ◌≤◌, length};
ghost use Rattle.lists.specs.Tab.{grid};
ghost use Rattle.choice.specs.Choice.{best_of};
ghost use Rattle.choice.specs.Code.{standing, looked, Small};
ghost use Rattle.intra4.specs.Code.{Gives, area_cost};

use crate::fills;
use crate::inner::permitted;
use choice::inner::Standing;

// Whether the samples are what `rule` gives. The first and the last are looked at before all sixteen are made: on busy ground they mostly differ.
// By their SAD: `==` was proved, is a call of its own in the whole library, and a dial was coded in 16.4 ms with it, in 14.6 without.
pub(crate) fn fits<F: Fn(usize, usize) -> u8>(rule: F, samples: &[u8]) -> bool
    requires callable { (x y : ℕ) → x < 4 → y < 4 → F.pre rule x y }
    requires block { length samples.now ≡ 16 }
    ensures { (g : ℕ → ℕ → ℕ) → Gives (F.post rule) g → (result ≡ true) ↔ (grid 4 g ≡ samples.now) }
{
    if rule(0, 0) != samples[0] || rule(3, 3) != samples[15] {
        return false;
    }
    let mut trial = [0u8; 16];
    fills::put_by(rule, &mut trial);
    choice::inner::sad(&trial, samples) == 0
}

// The best of the nine modes, among those that are permitted. A `for` and no `filter` with `fold`: of these the compiler kept a loop with `permitted`'s jump
// table in it where it unrolls this one, and a choice took a quarter more.
pub(crate) fn best(area: &[[u8; 16]; 9], flags: u8, samples: &[u8]) -> Standing
    requires { length samples.now ≡ 16 }
    ensures { result ≡ standing (best_of 9 (area_cost area.now flags samples.now)) }
{
    let mut best = choice::inner::unsettled();
    for mode in 0..9 {
        if permitted(flags, mode) {
            let cost = choice::inner::sad(&area[usize::from(mode)], samples);
            best = choice::inner::look(mode, u32::from(cost), best);
        }
    }
    best
}

// What the modes take from the sides: slopes and means. n stands beside a side of that length, as `rising` and `falling` of specs/Code have it; `gain`, `rise`,
// `rises`, `row_start` and `fills::put_slanted` have n and no side.
ghost use Rattle.std.specs.Prelude.{◌≡◌, [], ◌∷◌, ◌+◌, ◌*◌, ◌<◌, ◌≤◌, pos, ◌+ℤ◌, ◌*ℤ◌, length, get_or};
ghost use Rattle.lists.specs.Tab.{tab};
ghost use Rattle.lists.specs.Total.{total};
ghost use Rattle.whole.specs.Bounds.{Within, Each};
ghost use Rattle.intra4.specs.Rules as paper;
ghost use Rattle.sides.specs.Plane as standard;
ghost use Rattle.sides.specs.Code.{rising, falling, rise_of, shown_of};

// A sample times its weight.
fn weighted(weight: usize, sample: u8) -> u32
    requires { weight ≤ 8 }
    ensures { (result ≡ weight * sample) × (result ≤ 2040) }
{
    (weight as u32) * u32::from(sample)
}

// In the standard's sums i is a weight and two places, so these loops count it.
fn rising(n: usize, side: &[u8]) -> u32
    requires { (2 ≤ n) × (n ≤ 16) × (length side.now ≡ n) }
    ensures { (result ≡ rising n side.now) × (result ≤ 16320) }
{
    let half = n / 2;
    let mut sum: u32 = 0;
    for i in 0..half {
        sum += weighted(i + 1, side[half + i]);
    }
    sum
}

fn falling(n: usize, corner: u8, side: &[u8]) -> u32
    requires { (2 ≤ n) × (n ≤ 16) × (length side.now ≡ n) }
    ensures { (result ≡ falling n corner side.now) × (result ≤ 16320) }
{
    let last = n / 2 - 1;
    let mut sum: u32 = 0;
    for i in 0..last {
        sum += weighted(i + 1, side[last - 1 - i]);
    }
    sum + weighted(last + 1, corner)
}

// H or V.
fn slope(n: usize, corner: u8, side: &[u8]) -> i32
    requires { (2 ≤ n) × (n ≤ 16) × (length side.now ≡ n) }
    ensures { (result ≡ standard.slope n (paper.row_of (corner ∷ []) side.now)) × Within 16320 result }
{
    (rising(n, side) as i32) - (falling(n, corner, side) as i32)
}

fn gain(n: usize) -> i32
    ensures { (result ≡ pos (standard.gain n)) × Within 34 result }
{
    if n == 8 { 34 } else { 5 }
}

// b or c.
pub(crate) fn tilt(n: usize, corner: u8, side: &[u8]) -> i32
    requires { (2 ≤ n) × (n ≤ 16) × (length side.now ≡ n) }
    ensures { (result ≡ standard.tilt n (standard.slope n (paper.row_of (corner ∷ []) side.now))) × Within 600000 result }
{
    (gain(n) * slope(n, corner, side) + 32) >> 6
}

// a
pub(crate) fn start(above: u8, left: u8) -> i32
    ensures { (result ≡ pos 16 *ℤ (pos left +ℤ pos above)) × Within 8160 result }
{
    16 * (i32::from(left) + i32::from(above))
}

// How far a plane rises from the middle to place k.
fn rise(n: usize, b: i32, k: usize) -> i32
    requires { (2 ≤ n) × (n ≤ 16) × (Within 600000 b) × (k < 16) }
    ensures { (result ≡ rise_of n b k) × Within 20000000 result }
{
    b * (k as i32 - (n / 2 - 1) as i32)
}

// The same for sixteen columns.
pub(crate) fn rises(n: usize, b: i32) -> [i32; 16]
    requires { (2 ≤ n) × (n ≤ 16) × (Within 600000 b) }
    ensures { (result ≡ tab 16 (rise_of n b)) × Each 20000000 result }
{
    std::array::from_fn(|x| rise(n, b, x))
}

// What a plane's row y has before its columns rise.
pub(crate) fn row_start(n: usize, a: i32, c: i32, y: usize) -> i32
    requires { (2 ≤ n) × (n ≤ 16) × (Within 8160 a) × (Within 600000 c) × (y < n) }
    ensures { (result ≡ a +ℤ rise_of n c y +ℤ pos 16) × Within 30000000 result }
{
    a + rise(n, c, y) + 16
}

pub(crate) fn shown(row: i32, rise: i32) -> u8
    requires { (Within 30000000 row) × (Within 20000000 rise) }
    ensures { result ≡ shown_of row rise }
{
    whole::inner::clip((row + rise) >> 5, 255)
}

pub(crate) fn sum_of(side: &[u8]) -> u16
    requires { length side.now ≤ 16 }
    ensures { (result ≡ total (length side.now) (λ k. get_or side.now k 0)) × (result ≤ 255 * length side.now) }
{
    let mut sum: u16 = 0;
    for sample in side {
        sum += u16::from(*sample);
    }
    sum
}

// The sample of each direction at column x and row y. A row has the corner in front: the paper's T(k) is t[k + 1], S(k) is s[k + 1].
// x and y are counted by the loops of `put_by`: a type of numbers below 4 would be made for each sample. Rows are slices: `two`, `three` and `sum_of_four` read
// either row, and these differ in length.
ghost use Rattle.std.specs.Prelude.{◌≡◌, ◌+◌, ◌<◌, ◌≤◌, length, get_or, drop};
ghost use Rattle.lists.specs.Total.{total};
ghost use Rattle.intra4.specs.Rules as paper;
ghost use Rattle.intra4.specs.Code.{with_corner, past_corner, mean_of};

use crate::inner::flag;

fn avg2(a: u8, b: u8) -> u8
    ensures { result ≡ paper.avg2 a b }
{
    ((u16::from(a) + u16::from(b) + 1) / 2) as u8
}

fn avg3(a: u8, b: u8, c: u8) -> u8
    ensures { result ≡ paper.avg3 a b c }
{
    ((u16::from(a) + 2 * u16::from(b) + u16::from(c) + 2) / 4) as u8
}

// avg2 of two samples side by side.
fn two(row: &[u8], k: usize) -> u8
    requires { k + 1 < length row.now }
    ensures { result ≡ paper.avg2 (get_or row.now k 0) (get_or row.now (k + 1) 0) }
{
    avg2(row[k], row[k + 1])
}

// avg3 of three samples side by side.
fn three(row: &[u8], k: usize) -> u8
    requires { k + 2 < length row.now }
    ensures { result ≡ paper.avg3 (get_or row.now k 0) (get_or row.now (k + 1) 0) (get_or row.now (k + 2) 0) }
{
    avg3(row[k], row[k + 1], row[k + 2])
}

pub(crate) fn vertical(t: &[u8], x: usize, y: usize) -> u8
    requires { (x < 4) × (y < 4) × (5 ≤ length t.now) }
    ensures { result ≡ paper.vertical (past_corner t.now) x y }
{
    t[x + 1]
}

pub(crate) fn horizontal(s: &[u8], x: usize, y: usize) -> u8
    requires { (x < 4) × (y < 4) × (5 ≤ length s.now) }
    ensures { result ≡ paper.horizontal (past_corner s.now) x y }
{
    s[y + 1]
}

// The sum of the four samples past the corner.
fn sum_of_four(row: &[u8]) -> u16
    requires { 5 ≤ length row.now }
    ensures { (result ≡ total 4 (λ k. get_or (drop 1 row.now) k 0)) × (result ≤ 1020) }
{
    u16::from(row[1]) + u16::from(row[2]) + u16::from(row[3]) + u16::from(row[4])
}

// `sides::inner::mean` is the same over any size, in a crate above, where docs/STAMP.md names it: one function of both would be public here, with a
// theorem of its own, and that one would call it.
pub(crate) fn dc(t: &[u8], s: &[u8], flags: u8) -> u8
    requires { (5 ≤ length t.now) × (5 ≤ length s.now) }
    ensures { result ≡ mean_of t.now s.now flags }
{
    // of a match over the pair of flags the compiler makes predictions of every mode 4 to 16 per cent slower
    if flag(flags, 0) && flag(flags, 1) {
        ((sum_of_four(t) + sum_of_four(s) + 4) / 8) as u8
    } else if flag(flags, 0) {
        ((sum_of_four(t) + 2) / 4) as u8
    } else if flag(flags, 1) {
        ((sum_of_four(s) + 2) / 4) as u8
    } else {
        128
    }
}

pub(crate) fn down_left(t: &[u8], x: usize, y: usize) -> u8
    requires { (x < 4) × (y < 4) × (9 ≤ length t.now) }
    ensures { result ≡ paper.down_left (past_corner t.now) x y }
{
    let z = x + y;
    match z {
        6 => avg3(t[7], t[8], t[8]),
        _ => three(t, z + 1),
    }
}

pub(crate) fn down_right(t: &[u8], s: &[u8], x: usize, y: usize) -> u8
    requires { (x < 4) × (y < 4) × (5 ≤ length t.now) × (5 ≤ length s.now) }
    ensures { result ≡ paper.down_right (with_corner t.now) (with_corner s.now) x y }
{
    // x - y, and 3 more
    let z = x + 3 - y;
    match z {
        ..=2 => three(s, y - x - 1),
        3 => avg3(t[1], t[0], s[1]),
        4.. => three(t, x - y - 1),
    }
}

pub(crate) fn vertical_right(t: &[u8], s: &[u8], x: usize, y: usize) -> u8
    requires { (x < 4) × (y < 4) × (5 ≤ length t.now) × (5 ≤ length s.now) }
    ensures { result ≡ paper.vertical_right (with_corner t.now) (with_corner s.now) x y }
{
    let h = y / 2;
    // the paper's z, and 3 more
    let z = 2 * x + 3 - y;
    match z {
        0 | 1 => three(s, y - 2),
        2 => avg3(s[1], t[0], t[1]),
        4 | 6 | 8 => three(t, x - h - 1),
        _ => two(t, x - h),
    }
}

pub(crate) fn horizontal_down(t: &[u8], s: &[u8], x: usize, y: usize) -> u8
    requires { (x < 4) × (y < 4) × (5 ≤ length t.now) × (5 ≤ length s.now) }
    ensures { result ≡ paper.horizontal_down (with_corner t.now) (with_corner s.now) x y }
{
    vertical_right(s, t, y, x)
}

pub(crate) fn vertical_left(t: &[u8], x: usize, y: usize) -> u8
    requires { (x < 4) × (y < 4) × (9 ≤ length t.now) }
    ensures { result ≡ paper.vertical_left (past_corner t.now) x y }
{
    let k = x + y / 2 + 1;
    match y {
        0 | 2 => two(t, k),
        _ => three(t, k),
    }
}

pub(crate) fn horizontal_up(s: &[u8], x: usize, y: usize) -> u8
    requires { (x < 4) × (y < 4) × (5 ≤ length s.now) }
    ensures { result ≡ paper.horizontal_up (past_corner s.now) x y }
{
    let k = y + x / 2 + 1;
    let z = x + 2 * y;
    match z {
        0 | 2 | 4 => two(s, k),
        1 | 3 => three(s, k),
        5 => avg3(s[3], s[4], s[4]),
        _ => s[4],
    }
}

// DC of chroma: a mean for each quarter, 4 by 4 of the 8 by 8 samples.
ghost use Rattle.std.specs.Prelude.{◌≡◌, false, cond, ◌/◌, ◌<◌, length};
ghost use Rattle.lists.specs.Tab.{grid};
ghost use Rattle.intra4.specs.Samples.{side_if};
ghost use Rattle.intra4.specs.Rules as paper;
ghost use Rattle.chroma.specs.Rules.{along_of};
ghost use Rattle.chroma.specs.Code.{quarter_at, quarter_means};

use sides::inner::mean;

// Whether the second of two sides serves where the first is preferred.
fn instead(first: bool, second: bool) -> bool
    ensures { result ≡ cond first false second }
{
    !first && second
}

// The mean beside the quarter in column u, row v. Flags beside the sides, here and in `means`, since `mean`, which each quarter calls, takes them.
fn quarter_mean(u: usize, v: usize, above: &[u8], left: &[u8], first: bool, second: bool) -> u8
    requires { (u < 2) × (v < 2) × (length above.now ≡ 8) × (length left.now ≡ 8) }
    ensures { result ≡ paper.mean 4 (along_of u (side_if first above.now)) (along_of v (side_if second left.now)) }
{
    let x = 4 * u;
    let y = 4 * v;
    mean(4, &above[x..x + 4], &left[y..y + 4], first, second)
}

// The means of the four quarters: the upper two, then the lower two.
pub(crate) fn means(above: &[u8], left: &[u8], first: bool, second: bool) -> [u8; 4]
    requires { (length above.now ≡ 8) × (length left.now ≡ 8) }
    ensures { result ≡ quarter_means (side_if first above.now) (side_if second left.now) }
{
    let upper_left = quarter_mean(0, 0, above, left, first, second);
    let upper_right = quarter_mean(1, 0, above, left, first, instead(first, second));
    let lower_left = quarter_mean(0, 1, above, left, instead(second, first), second);
    let lower_right = quarter_mean(1, 1, above, left, first, second);
    [upper_left, upper_right, lower_left, lower_right]
}

// Each quarter's mean in all its places. `sides::inner::put_side` says why the loop is this crate's own.
pub(crate) fn put_quarters(means: [u8; 4], out: &mut [u8])
    requires { length out.old ≡ 64 }
    ensures { out.new ≡ grid 8 (λ x y. quarter_at means (x / 4) (y / 4)) }
{
    for y in 0usize..8 {
        for x in 0usize..8 {
            out[8 * y + x] = means[2 * (y / 4) + x / 4];
        }
    }
}

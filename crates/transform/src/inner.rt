// The transforms of whole blocks, by value. Forward and Hadamard hold sixteen numbers as four rows of four; the inverse writes over one array.
ghost use Rattle.std.specs.Prelude.{◌≡◌, ℕ, ◌+◌, ◌*◌, ◌<◌, [], pos, length, get_or};
ghost use Rattle.lists.specs.Stores.{stores};
ghost use Rattle.lists.specs.Tab.{tab, turned};
ghost use Rattle.whole.specs.Bounds.{Within, Each};
ghost use Rattle.transform.specs.Matrix.{transposed, raster, entries};
ghost use Rattle.transform.specs.Quads.{line, matrix, rows_of, through, wide};
ghost use Rattle.transform.specs.Forward.{C, forward};
ghost use Rattle.transform.specs.Hadamard.{H4, H2, hadamard};
ghost use Rattle.transform.specs.Inverse.{back, inverse, rounded};

use std::array;

// Sixteen numbers as four rows. Written out, as in `turned`: by `array::from_fn` the closure, which gives an array, wants clauses of its own.
#[tactic(auto, unfolding(lists::specs::Tab::tab))]
fn in_rows(x: [i32; 16]) -> [[i32; 4]; 4]
    ensures { result ≡ rows_of 4 (raster 4 x) }
{
    [
        [x[0], x[1], x[2], x[3]],
        [x[4], x[5], x[6], x[7]],
        [x[8], x[9], x[10], x[11]],
        [x[12], x[13], x[14], x[15]],
    ]
}

// Four rows as sixteen numbers.
fn in_raster(rows: [[i32; 4]; 4]) -> [i32; 16]
    ensures { result ≡ entries 4 (matrix rows) }
{
    array::from_fn(|place| rows[place / 4][place % 4])
}

// Rows and columns exchanged: as the rows that are held, and as `turned` of `lists` exchanges the sixteen numbers in raster order.
#[tactic(auto, unfolding(lists::specs::Tab::tab, lists::specs::Tab::grid, lists::specs::Tab::turned))]
fn turned(rows: [[i32; 4]; 4]) -> [[i32; 4]; 4]
    ensures held { result ≡ rows_of 4 (transposed (matrix rows)) }
    ensures exchanged { entries 4 (matrix result) ≡ turned (pos 0) 4 (entries 4 (matrix rows)) }
{
    let [a, b, c, d] = rows;
    [
        [a[0], b[0], c[0], d[0]],
        [a[1], b[1], c[1], d[1]],
        [a[2], b[2], c[2], d[2]],
        [a[3], b[3], c[3], d[3]],
    ]
}

// A step of each row. Four calls and no `map`, with which `forward` took 41 ns in place of 35 (361 instructions in place of 323).
fn each_row<F: Fn([i32; 4]) -> [i32; 4]>(rows: [[i32; 4]; 4], step: F) -> [[i32; 4]; 4]
    requires { (k : ℕ) → k < 4 → F.pre step (get_or rows k []) }
    ensures { F.post step (get_or rows 0 []) (get_or result 0 []) × F.post step (get_or rows 1 []) (get_or result 1 []) × F.post step (get_or rows 2 []) (get_or result 2 []) × F.post step (get_or rows 3 []) (get_or result 3 []) }
{
    let [a, b, c, d] = rows;
    [step(a), step(b), step(c), step(d)]
}

// One row of four through C.
fn forward_row(v: [i32; 4]) -> [i32; 4]
    requires { Each wide v }
    ensures { result ≡ tab 4 (through 4 C (line v)) }
{
    let [p, q, r, s] = v;
    let e = p + s;
    let f = q + r;
    let g = q - r;
    let h = p - s;
    [e + f, h + h + g, e - f, h - g - g]
}

// One row of four through H.
fn hadamard_row(v: [i32; 4]) -> [i32; 4]
    requires { Each wide v }
    ensures { result ≡ tab 4 (through 4 H4 (line v)) }
{
    let [p, q, r, s] = v;
    let e = p + q;
    let f = r + s;
    let g = p - q;
    let h = r - s;
    [e + f, e - f, g - h, g + h]
}

// Four numbers that stand a step apart through the inverse's sums, in their places: no slice holds a column.
fn inverse_line(x: &mut [i32], at: usize, step: usize)
    requires { (length x.old ≡ 16) × (at + step * 3 < 16) × ((j : ℕ) → j < 4 → Within wide (get_or x.old (at + step * j) (pos 0))) }
    ensures { x.new ≡ stores 4 (λ j. at + step * j) (back (λ j. get_or x.old (at + step * j) (pos 0))) x.old }
{
    let second = at + step;
    let third = second + step;
    let last = third + step;
    let p = x[at];
    let q = x[second];
    let r = x[third];
    let s = x[last];
    let e = p + r;
    let g = p - r;
    let k = (q >> 1) - s;
    let m = q + (s >> 1);
    x[at] = e + m;
    x[second] = g + k;
    x[third] = g - k;
    x[last] = e - m;
}

// (value + 32) >> 6 of each number of a slice, in its place.
fn round_all(x: &mut [i32])
    requires { Each wide x.old }
    ensures { x.new ≡ tab (length x.old) (λ place. rounded (line x.old place)) }
{
    for value in x.iter_mut() {
        *value = (*value + 32) >> 6;
    }
}

// The coefficients of sixteen residuals.
pub fn forward_block(x: [i32; 16]) -> [i32; 16]
    requires { Each 32768 x }
    ensures { result ≡ forward x }
{
    let rows = each_row(in_rows(x), forward_row);
    in_raster(turned(each_row(turned(rows), forward_row)))
}

// The residuals of sixteen rescaled coefficients.
pub fn inverse_block(d: [i32; 16]) -> [i32; 16]
    requires { Each 32768 d }
    ensures { result ≡ inverse d }
{
    let mut x = d;
    for row in 0usize..4 {
        inverse_line(&mut x, 4 * row, 1);
    }
    for column in 0usize..4 {
        inverse_line(&mut x, column, 4);
    }
    round_all(&mut x);
    x
}

// Sixteen luma DC values or levels through H.
// What it shares with `forward_block` is `each_row`: these two lines are what is left.
pub fn hadamard4(w: [i32; 16]) -> [i32; 16]
    requires { Each 32768 w }
    ensures { result ≡ hadamard 4 H4 w }
{
    let rows = each_row(in_rows(w), hadamard_row);
    in_raster(turned(each_row(turned(rows), hadamard_row)))
}

// Four chroma DC values or levels through the 2x2 H.
pub fn hadamard2(w: [i32; 4]) -> [i32; 4]
    requires { Each 32768 w }
    ensures { result ≡ hadamard 2 H2 w }
{
    let e = w[0] + w[1];
    let f = w[0] - w[1];
    let g = w[2] + w[3];
    let h = w[2] - w[3];
    [e + g, f + h, e - g, f - h]
}
